//! The pairs that parts of gate nodes ask for.
ghost use Rattle.std.specs.Prelude.{IfOk, ◌≡◌, ◌++◌};
ghost use Rattle.phase_assign.specs.ArmsData.{pair_with};
ghost use Rattle.phase_assign.specs.Uses.{asked, asked_by_arms};

use dom_base::OutOfMemory;
use dual_rail::SignedNode;
use std::alloc::Global;
use std::marker::Model;

/// Whether the pair of a node is asked for, and with which sign.
#[derive(Clone, Copy)]
enum Asked {
    Nothing,
    Plus,
    Minus,
}

/// The pairs that the parts of a gate node ask for with the sign plus. A constant and a literal ask
/// for none.
#[derive(Drop)]
pub struct Arms {
    left: u32,
    right: u32,
    left_sign: Asked,
    right_sign: Asked,
}

impl Model for Arms {
    ghost use Rattle.phase_assign.specs.ArmsData.{ArmsData, pair_with};

    ghost Value = { ArmsData };

    ghost view = { λ a. record { left = pair_with a.left_sign a.left; right = pair_with a.right_sign a.right } };
}

/// The pair of a node that is asked for with a sign.
fn pair_with(sign: Asked, node: u32) -> Option<SignedNode>
    ensures { result ≡ pair_with sign node }
{
    match sign {
        Asked::Nothing => None,
        Asked::Plus => Some(SignedNode { node, plus: true }),
        Asked::Minus => Some(SignedNode { node, plus: false }),
    }
}

/// The sign and the node of a pair that is asked for.
fn parts_of(pair: Option<SignedNode>) -> (Asked, u32)
    ensures { pair_with result.0 result.1 ≡ pair }
{
    match pair {
        None => (Asked::Nothing, 0),
        Some(SignedNode { node, plus: true }) => (Asked::Plus, node),
        Some(SignedNode { node, plus: false }) => (Asked::Minus, node),
    }
}

/// Appends the pair that is asked for with a sign.
pub fn push_asked(
    work: &mut Vec<SignedNode>,
    target: Option<SignedNode>,
    plus: bool,
) -> Result<(), OutOfMemory>
    ensures { IfOk result (λ u. work.new.items ≡ work.old.items ++ asked target plus) }
{
    if let Some(pair) = target {
        work.push(pair.signed(plus))?;
    }
    Ok(())
}

impl Arms {
    /// Those of two parts.
    pub fn new(left: Option<SignedNode>, right: Option<SignedNode>) -> Arms
        ensures { result ≡ record { left = left; right = right } }
    {
        let (left_sign, left) = parts_of(left);
        let (right_sign, right) = parts_of(right);
        Arms {
            left,
            right,
            left_sign,
            right_sign,
        }
    }

    /// Appends the pairs that are asked for with a sign.
    pub fn push(&self, work: &mut Vec<SignedNode>, plus: bool) -> Result<(), OutOfMemory>
        ensures { IfOk result (λ u. work.new.items ≡ work.old.items ++ asked_by_arms self.now plus) }
    {
        push_asked(work, pair_with(self.left_sign, self.left), plus)?;
        push_asked(work, pair_with(self.right_sign, self.right), plus)
    }
}

/// The pair that is asked for with a sign, if any, in a list.
pub fn asked_for(
    alloc: Global,
    target: Option<SignedNode>,
    plus: bool,
) -> Result<Vec<SignedNode>, OutOfMemory>
    ensures { IfOk result (λ v. v.items ≡ asked target plus) }
{
    let mut work = Vec::new(alloc);
    push_asked(&mut work, target, plus)?;
    Ok(work)
}

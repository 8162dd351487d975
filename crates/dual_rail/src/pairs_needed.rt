//! The needed pairs in order, and the place of each.
ghost use Rattle.std.specs.Prelude.{IfOk, Bool, true, ◌≡◌, ◌≤◌, ◌+◌, ◌*◌, ◌++◌, ◌^◌, ◌&&◌, Some, slice_get, length, count_by};
ghost use Rattle.gate_decompose.specs.GatesOrder.{is_operator};
ghost use Rattle.gate_decompose.specs.NeededPass.{marked_pairs, signs_at};
ghost use Rattle.dual_rail.specs.Places.{ArePlaces};
ghost use Rattle.dual_rail.specs.SignedValues.{of_sign};
ghost use Rattle.dual_rail.specs.WantedNodes.{holds};

use crate::signed::Signed;
use crate::wanted::UNWANTED;
use dom_base::OutOfMemory;
use gate_decompose::Node;
use std::alloc::Global;

/// Pairs in order, each a node's number and a sign, and the places of each node's pairs, where they are needed.
#[derive(Drop)]
pub struct NeededPairs {
    pub pairs: Vec<(u32, bool)>,
    pub places: Vec<Signed<u32>>,
}

/// The signs with which the pairs of a node are needed.
fn pair_signs(node: Node, wanted: Signed<bool>) -> Signed<bool>
    ensures { (s : Bool) → of_sign result s ≡ (is_operator node && of_sign wanted s) }
{
    match node {
        Node::Not(_) => UNWANTED,
        Node::And(_, _) | Node::Or(_, _) => wanted,
    }
}

/// Appends the pairs of a node, plus before minus, and answers their places.
fn push_pairs(
    pairs: &mut Vec<(u32, bool)>,
    node: u32,
    signs: Signed<bool>,
) -> Result<Signed<u32>, OutOfMemory>
    requires { length pairs.old.items + 2 ≤ 2 ^ 32 }
    ensures pushed { IfOk result (λ p. pairs.new.items ≡ pairs.old.items ++ signs_at (λ n s. of_sign signs s) node) }
    ensures places { IfOk result (λ p. (s : Bool) → of_sign signs s ≡ true → slice_get pairs.new.items (of_sign p s) ≡ Some (node, s)) }
{
    let plus = pairs.len() as u32;
    if signs.plus {
        pairs.push((node, true))?;
    }
    let minus = pairs.len() as u32;
    if signs.minus {
        pairs.push((node, false))?;
    }
    Ok(Signed { plus, minus })
}

/// The pairs of the wanted And and Or nodes.
pub fn needed_pairs(
    alloc: Global,
    nodes: &[Node],
    wanted: &[Signed<bool>],
) -> Result<NeededPairs, OutOfMemory>
    requires count { length wanted.now ≡ length nodes.now }
    requires fits { length nodes.now ≤ 2 ^ 30 }
    ensures pairs { IfOk result (λ o. o.pairs.items ≡ marked_pairs nodes.now (holds wanted.now)) }
    ensures places { IfOk result (λ o. ArePlaces nodes.now (holds wanted.now) o.pairs.items o.places.items) }
    ensures count { IfOk result (λ o. length o.places.items ≡ length nodes.now) }
    ensures few { IfOk result (λ o. length o.pairs.items ≤ 2 * count_by is_operator nodes.now) }
{
    let mut pairs = Vec::with_capacity(alloc, nodes.len())?;
    let mut places = Vec::with_capacity(alloc, nodes.len())?;
    for (index, node) in nodes.iter().enumerate() {
        let signs = pair_signs(*node, wanted[index]);
        let own = push_pairs(&mut pairs, index as u32, signs)?;
        places.push(own)?;
    }
    Ok(NeededPairs { pairs, places })
}

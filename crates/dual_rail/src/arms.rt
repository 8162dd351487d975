//! Pairs over arms.
ghost use Rattle.std.specs.Prelude.{IfOk, All, List, ℕ, Bool, ◌≡◌, ◌<◌, length, true};
ghost use Rattle.std.specs.List.{AllZip};
ghost use Rattle.gate_decompose.specs.GatesOrder.{is_operator};
ghost use Rattle.dual_rail.specs.ArmPlaces.{HasGates, HasPlace, HasPlacesOf, IsArmFor, IsOperation};
ghost use Rattle.dual_rail.specs.Forests.{IsPairOf};
ghost use Rattle.dual_rail.specs.Targets.{AreTargets, asked_target};
ghost use Rattle.dual_rail.specs.WantedNodes.{AreOrderedNodes};

use crate::forest::{Arm, Pair};
use crate::signed::Signed;
use crate::targets::{Target, target_of};
use dom_base::OutOfMemory;
use gate_decompose::{Node, Ref};
use std::alloc::Global;

/// An And or an Or, and its parts.
#[derive(Clone, Copy)]
struct Operation {
    is_and: bool,
    left: Ref,
    right: Ref,
}

/// The arm for a literal or a pair that is asked for.
fn arm_for(target: Target, places: &[Signed<u32>]) -> Arm
    requires { HasPlace (length places.now) (asked_target target) }
    ensures { IsArmFor places.now (asked_target target) result }
{
    match target {
        Target::Const(_) => unreachable!(),
        Target::Literal(rail) => Arm::Literal(rail),
        Target::Pair(pair) => Arm::Pair(places[pair.node as usize].of(pair.plus)),
    }
}

/// The operator of a node and its parts.
fn operation_of(node: Node) -> Operation
    requires { is_operator node ≡ true }
    ensures { IsOperation node result }
{
    match node {
        Node::Not(_) => unreachable!(),
        Node::And(left, right) => Operation {
            is_and: true,
            left,
            right,
        },
        Node::Or(left, right) => Operation {
            is_and: false,
            left,
            right,
        },
    }
}

/// The pair of a node and a sign: the node's operator over the arms of its parts for plus, the other
/// operator for minus.
fn pair_of(
    nodes: &[Node],
    targets: &[Target],
    places: &[Signed<u32>],
    node: u32,
    plus: bool,
) -> Pair
    requires targets { length targets.now ≡ length nodes.now }
    requires places { length places.now ≡ length nodes.now }
    requires order { AreOrderedNodes nodes.now }
    requires known { AreTargets nodes.now targets.now }
    requires gate { HasGates nodes.now node }
    ensures { (origin : List (ℕ × Bool)) → HasPlacesOf nodes.now origin places.now node plus
        → IsPairOf nodes.now origin (node, plus) result }
{
    let operation = operation_of(nodes[node as usize]);
    let left = arm_for(target_of(targets, operation.left, plus), places);
    let right = arm_for(target_of(targets, operation.right, plus), places);
    if operation.is_and == plus {
        Pair::And(left, right)
    } else {
        Pair::Or(left, right)
    }
}

/// The pairs of nodes and signs, in order.
pub fn pairs_of(
    alloc: Global,
    nodes: &[Node],
    targets: &[Target],
    places: &[Signed<u32>],
    origin: &[(u32, bool)],
) -> Result<Vec<Pair>, OutOfMemory>
    requires targets { length targets.now ≡ length nodes.now }
    requires places { length places.now ≡ length nodes.now }
    requires order { AreOrderedNodes nodes.now }
    requires known { AreTargets nodes.now targets.now }
    requires gates { All (λ p. HasGates nodes.now p.0) origin.now }
    requires closed { All (λ p. HasPlacesOf nodes.now origin.now places.now p.0 p.1) origin.now }
    ensures { IfOk result (λ v. AllZip (IsPairOf nodes.now origin.now) origin.now v.items) }
{
    let mut pairs = Vec::with_capacity(alloc, origin.len())?;
    for (node, plus) in origin {
        pairs.push(pair_of(nodes, targets, places, *node, *plus))?;
    }
    Ok(pairs)
}

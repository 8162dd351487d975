//! What nodes ask for: a literal or a pair, where each Not on the way changes the sign.
ghost use Rattle.std.specs.Prelude.{IfOk, List, true, ◌≡◌, ◌≤◌, ◌<◌, ◌^◌, Some, slice_get, length};
ghost use Rattle.gate_decompose.specs.declared.gates.Node.{Node as NodeData};
ghost use Rattle.gate_decompose.specs.Needed.{AsksFor};
ghost use Rattle.dual_rail.specs.Targets.{AreTargets, asked_target, other_sign_of, pair_of};
ghost use Rattle.gate_decompose.specs.GatesOrder.{NodeReadsEarlier, ReadsEarlier};
ghost use Rattle.dual_rail.specs.WantedNodes.{AreOrderedNodes};

use crate::forest::Rail;
use crate::signed::SignedNode;
use dom_base::OutOfMemory;
use gate_decompose::{Node, Ref};
use std::alloc::Global;

/// What is asked for: a constant, a literal, or the pair of a node and a sign.
#[derive(Clone, Copy)]
pub enum Target {
    Const(bool),
    Literal(Rail),
    Pair(SignedNode),
}

impl Target {
    /// What is asked for with the other sign.
    fn opposite(self) -> Target
        ensures { asked_target result ≡ other_sign_of (asked_target self) }
    {
        match self {
            Target::Const(bit) => Target::Const(!bit),
            Target::Literal(rail) => Target::Literal(Rail {
                leaf: rail.leaf,
                plus: !rail.plus,
            }),
            Target::Pair(pair) => Target::Pair(pair.signed(false)),
        }
    }

    /// The pair, if it is one.
    pub fn pair(self) -> Option<SignedNode>
        ensures { result ≡ pair_of self }
    {
        match self {
            Target::Const(_) | Target::Literal(_) => None,
            Target::Pair(pair) => Some(pair),
        }
    }
}

/// What a part asks for with the sign plus.
fn plus_target(targets: &[Target], part: Ref) -> Target
    requires { ReadsEarlier (length targets.now) part }
    ensures { (nodes : List NodeData) → AreTargets nodes targets.now → AsksFor nodes part true (asked_target result) }
{
    match part {
        Ref::Const(bit) => Target::Const(bit),
        Ref::Leaf(leaf) => Target::Literal(Rail { leaf, plus: true }),
        Ref::Node(node) => targets[node as usize],
    }
}

/// What a part asks for with a sign, where `targets` has what each node asks for with the sign plus.
pub fn target_of(targets: &[Target], part: Ref, plus: bool) -> Target
    requires { ReadsEarlier (length targets.now) part }
    ensures { (nodes : List NodeData) → AreTargets nodes targets.now → AsksFor nodes part plus (asked_target result) }
{
    let target = plus_target(targets, part);
    if plus { target } else { target.opposite() }
}

/// What the node with the next number asks for with the sign plus.
fn next_target(targets: &[Target], node: Node) -> Target
    requires fits { length targets.now < 2 ^ 32 }
    requires there { NodeReadsEarlier (length targets.now) node }
    ensures { (nodes : List NodeData) → AreTargets nodes targets.now → slice_get nodes (length targets.now) ≡ Some node
        → AsksFor nodes (Ref.Node (length targets.now)) true (asked_target result) }
{
    match node {
        Node::Not(part) => target_of(targets, part, false),
        Node::And(_, _) | Node::Or(_, _) => Target::Pair(SignedNode {
            node: targets.len() as u32,
            plus: true,
        }),
    }
}

/// What each node asks for with the sign plus.
pub fn node_targets(alloc: Global, nodes: &[Node]) -> Result<Vec<Target>, OutOfMemory>
    requires fits { length nodes.now ≤ 2 ^ 32 }
    requires order { AreOrderedNodes nodes.now }
    ensures count { IfOk result (λ v. length v.items ≡ length nodes.now) }
    ensures targets { IfOk result (λ v. AreTargets nodes.now v.items) }
{
    let mut targets = Vec::with_capacity(alloc, nodes.len())?;
    for node in nodes {
        let target = next_target(targets.as_slice(), *node);
        targets.push(target)?;
    }
    Ok(targets)
}

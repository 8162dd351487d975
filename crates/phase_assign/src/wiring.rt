//! The pairs that gate nodes and sinks ask for.
ghost use Rattle.std.specs.Prelude.{IfOk, All, List, ◌≡◌, ◌<◌, length};
ghost use Rattle.gate_decompose.specs.declared.gates.Node.{Node as NodeData};
ghost use Rattle.gate_decompose.specs.GatesOrder.{AreOrderedGates, NodeReadsEarlier, ReadsEarlier};
ghost use Rattle.dual_rail.specs.Targets.{AreTargets};
ghost use Rattle.phase_assign.specs.Wiring.{AreArmsOf, AreEnds, AreNodeArms, AreWired, IsAskedBy, IsWiring};

use crate::pairs::Arms;
use dom_base::OutOfMemory;
use dual_rail::{SignedNode, Target, node_targets, target_of};
use gate_decompose::{Gates, Node, Ref};
use std::alloc::Global;

/// The pair that a part asks for with the sign plus, if any, where `targets` has what each node asks for.
fn asked_pair(targets: &[Target], part: Ref) -> Option<SignedNode>
    requires { ReadsEarlier (length targets.now) part }
    ensures { (nodes : List NodeData) → AreTargets nodes targets.now → IsAskedBy nodes part result }
{
    target_of(targets, part, true).pair()
}

/// What the parts of a node ask for.
fn arms_of(targets: &[Target], node: Node) -> Arms
    requires { NodeReadsEarlier (length targets.now) node }
    ensures { (nodes : List NodeData) → AreTargets nodes targets.now → AreArmsOf nodes node result }
{
    match node {
        Node::Not(_) => Arms::new(None, None),
        Node::And(left, right) | Node::Or(left, right) => {
            Arms::new(asked_pair(targets, left), asked_pair(targets, right))
        }
    }
}

/// What the parts of each node ask for.
fn node_arms(alloc: Global, nodes: &[Node], targets: &[Target]) -> Result<Vec<Arms>, OutOfMemory>
    requires count { length targets.now ≡ length nodes.now }
    requires there { All (NodeReadsEarlier (length nodes.now)) nodes.now }
    requires targets { AreTargets nodes.now targets.now }
    ensures count { IfOk result (λ v. length v.items ≡ length nodes.now) }
    ensures arms { IfOk result (λ v. AreNodeArms nodes.now v.items) }
{
    let mut arms = Vec::with_capacity(alloc, nodes.len())?;
    for node in nodes {
        arms.push(arms_of(targets, *node))?;
    }
    Ok(arms)
}

/// What each sink asks for with the sign plus.
fn sink_targets(
    alloc: Global,
    sinks: &[Ref],
    targets: &[Target],
) -> Result<Vec<Option<SignedNode>>, OutOfMemory>
    requires { All (ReadsEarlier (length targets.now)) sinks.now }
    ensures count { IfOk result (λ v. length v.items ≡ length sinks.now) }
    ensures ends { IfOk result (λ v. (nodes : List NodeData) → AreTargets nodes targets.now → AreEnds nodes sinks.now v.items) }
{
    let mut ends = Vec::with_capacity(alloc, sinks.len())?;
    for sink in sinks {
        ends.push(asked_pair(targets, *sink))?;
    }
    Ok(ends)
}

/// What the parts of each node and what each sink asks for with the sign plus.
#[derive(Drop)]
pub struct Wiring {
    pub arms: Vec<Arms>,
    pub ends: Vec<Option<SignedNode>>,
}

/// What gates ask for.
pub fn wiring_of(alloc: Global, gates: &Gates) -> Result<Wiring, OutOfMemory>
    ensures ordered { IfOk result (λ w. AreOrderedGates gates.now) }
    ensures wired { IfOk result (λ w. AreWired gates.now w.arms.items w.ends.items) }
    ensures wiring { IfOk result (λ w. IsWiring w.arms.items w.ends.items) }
{
    let nodes = gates.nodes.as_slice();
    let targets = node_targets(alloc, nodes)?;
    let arms = node_arms(alloc, nodes, targets.as_slice())?;
    let ends = sink_targets(alloc, gates.sinks.as_slice(), targets.as_slice())?;
    Ok(Wiring { arms, ends })
}

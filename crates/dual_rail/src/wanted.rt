//! Which nodes are wanted with which signs: one pass over the nodes, from the last to the first.
ghost use Rattle.std.specs.Prelude.{IfOk, All, ℕ, Bool, ◌≡◌, ◌<◌, ◌||◌, ◌&&◌, Some, length};
ghost use Rattle.gate_decompose.specs.NeededPass.{is_asked_by, is_asked_by_sinks, names_node, pass, wanted_by_pass};
ghost use Rattle.gate_decompose.specs.GatesOrder.{NodeReadsEarlier, ReadsEarlier};
ghost use Rattle.dual_rail.specs.WantedNodes.{holds};
ghost use Rattle.dual_rail.specs.SignedValues.{of_sign};

use crate::signed::Signed;
use dom_base::OutOfMemory;
use gate_decompose::{Gates, Node, Ref};
use std::alloc::Global;

/// No sign.
pub const UNWANTED: Signed<bool> = Signed {
    plus: false,
    minus: false,
};

/// Adds signs with which a part is wanted, where it is a node.
fn mark(wanted: &mut [Signed<bool>], part: Ref, signs: Signed<bool>)
    requires { ReadsEarlier (length wanted.old) part }
    ensures { (n : ℕ) (s : Bool) → holds wanted.new n s ≡ (holds wanted.old n s || (names_node n part && of_sign signs s)) }
{
    if let Ref::Node(node) = part {
        let before = wanted[node as usize];
        wanted[node as usize] = Signed {
            plus: before.plus || signs.plus,
            minus: before.minus || signs.minus,
        };
    }
}

/// Adds the signs with which a node that is itself wanted with some wants its parts.
fn mark_parts(wanted: &mut [Signed<bool>], node: Node, signs: Signed<bool>)
    requires { NodeReadsEarlier (length wanted.old) node }
    ensures { (n : ℕ) (s : Bool) → holds wanted.new n s ≡ (holds wanted.old n s || is_asked_by (of_sign signs) (Some node) n s) }
{
    match node {
        Node::Not(part) => {
            let turned = Signed {
                plus: signs.minus,
                minus: signs.plus,
            };
            mark(wanted, part, turned);
        }
        Node::And(left, right) | Node::Or(left, right) => {
            mark(wanted, left, signs);
            mark(wanted, right, signs);
        }
    }
}

/// Adds the signs with which sinks want what they read.
fn mark_sinks(wanted: &mut [Signed<bool>], sinks: &[Ref], signs: &[bool])
    requires count { length signs.now ≡ length sinks.now }
    requires there { All (ReadsEarlier (length wanted.old)) sinks.now }
    ensures { (n : ℕ) (s : Bool) → holds wanted.new n s ≡ (holds wanted.old n s || is_asked_by_sinks sinks.now signs.now n s) }
{
    for (place, sink) in sinks.iter().enumerate() {
        let sign = Signed {
            plus: signs[place],
            minus: !signs[place],
        };
        mark(wanted, *sink, sign);
    }
}

/// Adds the signs with which nodes want their parts, from the last node to the first.
fn mark_nodes(wanted: &mut [Signed<bool>], nodes: &[Node])
    requires count { length wanted.old ≡ length nodes.now }
    requires there { All (NodeReadsEarlier (length nodes.now)) nodes.now }
    ensures { (n : ℕ) (s : Bool) → holds wanted.new n s ≡ pass nodes.now (holds wanted.old) (length nodes.now) n s }
{
    for index in (0..nodes.len()).rev() {
        let own = wanted[index];
        mark_parts(wanted, nodes[index], own);
    }
}

/// The signs with which each node is wanted.
pub fn wanted_nodes(
    alloc: Global,
    gates: &Gates,
    signs: &[bool],
) -> Result<Vec<Signed<bool>>, OutOfMemory>
    requires { length signs.now ≡ length gates.now.sinks }
    ensures count { IfOk result (λ v. length v.items ≡ length gates.now.nodes) }
    ensures marks { IfOk result (λ v. (n : ℕ) (s : Bool) → holds v.items n s ≡ wanted_by_pass gates.now signs.now n s) }
{
    let mut wanted = vec![in alloc; UNWANTED; gates.nodes.len()]?;
    mark_sinks(wanted.as_mut_slice(), gates.sinks.as_slice(), signs);
    mark_nodes(wanted.as_mut_slice(), gates.nodes.as_slice());
    Ok(wanted)
}

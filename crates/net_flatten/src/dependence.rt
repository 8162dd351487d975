//! What the signals of a file depend on through its tables.
ghost use Rattle.std.specs.Prelude.{◌≡◌, ◌<◌, All, IfOk, [], length, replicate, slice_set};
ghost use Rattle.net_flatten.specs.Dependences.{AreDependences, AreDrivenOnce};
ghost use Rattle.part_numbers.specs.NumberedFaults.{IsPartWithin};

use dom_base::OutOfMemory;
use graph_order::Node;
use network::Reads;
use part_numbers::{NumberedPart, PartCard};
use std::alloc::Global;

/// A node without successors for each number below a bound. The one error is want of memory.
fn lone_nodes<'a>(alloc: Global, bound: u32) -> Result<Vec<Node<'a>>, OutOfMemory>
    ensures { IfOk result (λ nodes. nodes.items ≡ replicate bound []) }
{
    let mut nodes = Vec::with_capacity(alloc, bound as usize)?;
    for _ in 0..bound {
        nodes.push(Node::alone())?;
    }
    Ok(nodes)
}

/// Replaces what a node leads to.
fn set_next<'a>(nodes: &mut Vec<Node<'a>>, number: u32, next: &'a Reads)
    requires within { number < length nodes.old.items }
    ensures { nodes.new.items ≡ slice_set nodes.old.items number next.now.items }
{
    nodes[number as usize] = Node::lending(next);
}

/// A node for each signal, which leads to what the table reads that drives the signal, if one does.
/// The one error is want of memory.
pub fn dependences<'a>(
    alloc: Global,
    signals: u32,
    parts: &'a [NumberedPart],
) -> Result<Vec<Node<'a>>, OutOfMemory>
    requires parts { All (IsPartWithin signals) parts.now }
    requires once { AreDrivenOnce parts.now }
    ensures { IfOk result (λ nodes. AreDependences signals parts.now nodes.items) }
{
    let mut nodes = lone_nodes(alloc, signals)?;
    for index in 0..parts.len() {
        let part = &parts[index];
        if let PartCard::Table(_) = part.card {
            set_next(&mut nodes, part.drives, &part.reads);
        }
    }
    Ok(nodes)
}

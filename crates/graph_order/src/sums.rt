//! Sums of weights over all walks from a node.
ghost use Rattle.std.specs.Prelude.{◌≡◌, ◌<◌, ◌+◌, ℕ, min, IfOk, length, slice_index_or};
ghost use Rattle.std.specs.List.{sum_by};
ghost use Rattle.graph_order.specs.Orders.{IsGraph, IsOrder, successors};
ghost use Rattle.graph_order.specs.WalkSums.{AreWalkSums, AreWeights, largest_u64};

use crate::order::Node;
use dom_base::OutOfMemory;
use std::alloc::Global;

/// For each node the sum of the weights at the ends of all walks from it, where the nodes are in this
/// order; or 2^64 - 1 where the sum is larger. It is linear in the graph, and fails only for want of
/// memory.
pub fn walk_sums(
    alloc: Global,
    nodes: &[Node<'_>],
    order: &[u32],
    weights: &[u64],
) -> Result<Vec<u64>, OutOfMemory>
    requires graph { IsGraph nodes.now }
    requires ordered { IsOrder nodes.now order.now }
    requires count { length weights.now ≡ length nodes.now }
    ensures { IfOk result (λ sums. (weight : ℕ → ℕ) → AreWeights nodes.now weight weights.now
        → AreWalkSums nodes.now weight (length order.now) sums.items) }
{
    let mut sums = Vec::with_capacity(alloc, nodes.len())?;
    for weight in weights {
        sums.push(*weight)?;
    }
    for node in order {
        let at = *node as usize;
        if at < sums.len() {
            let sum = sum_at(nodes, &sums, weights, *node);
            sums[at] = sum;
        }
    }
    Ok(sums)
}

/// A node's weight and the sums of the nodes that it leads to; or 2^64 - 1 where that is larger.
fn sum_at(nodes: &[Node<'_>], sums: &[u64], weights: &[u64], node: u32) -> u64
    requires graph { IsGraph nodes.now }
    requires within { node < length nodes.now }
    requires sums { length sums.now ≡ length nodes.now }
    requires weights { length weights.now ≡ length nodes.now }
    ensures { result ≡ min (slice_index_or weights.now node 0
        + sum_by (λ next. slice_index_or sums.now next 0) (successors nodes.now node)) largest_u64 }
{
    let mut total = weights[node as usize];
    let node = &nodes[node as usize];
    let next = node.next();
    for k in next {
        total = total.saturating_add(sums[*k as usize]);
    }
    total
}

//! Nodes that are needed in both signs.
ghost use Rattle.std.specs.Prelude.{◌≡◌, ◌&&◌, IfOk, false, filter, length, slice_index_or};
ghost use Rattle.std.specs.List.{range_with_len};
ghost use Rattle.synth_flow.specs.NamedComplements.{MarksAlso};
ghost use Rattle.synth_flow.specs.Summaries.{both_nodes, is_node_with_sign, needs};

use dom_base::OutOfMemory;
use std::alloc::Global;

/// How many of so many nodes are needed in both signs, where these pairs are needed.
pub fn both_signs(alloc: Global, pairs: &[(u32, bool)], nodes: usize) -> Result<u64, OutOfMemory>
    ensures { IfOk result (λ both. both ≡ length (both_nodes pairs.now nodes)) }
{
    let mut plus = vec![in alloc; false; nodes]?;
    let mut minus = vec![in alloc; false; nodes]?;
    mark_pairs(plus.as_mut_slice(), pairs, true);
    mark_pairs(minus.as_mut_slice(), pairs, false);
    Ok(count_both(plus.as_slice(), minus.as_slice()))
}

/// Marks each node of a pair with this sign.
fn mark_pairs(marks: &mut [bool], pairs: &[(u32, bool)], sign: bool)
    ensures { MarksAlso marks.old marks.new (needs pairs.now sign) }
{
    'pairs: for pair in pairs {
        mark_pair(marks, *pair, sign);
    }
}

/// Marks the node of a pair, where the pair has this sign.
fn mark_pair(marks: &mut [bool], pair: (u32, bool), sign: bool)
    ensures { MarksAlso marks.old marks.new (λ node. is_node_with_sign node sign pair) }
{
    let (node, its_sign) = pair;
    if its_sign == sign && (node as usize) < marks.len() {
        marks[node as usize] = true;
    }
}

/// How many nodes have both marks.
fn count_both(plus: &[bool], minus: &[bool]) -> u64
    requires { length plus.now ≡ length minus.now }
    ensures { result ≡ length (filter (λ node. slice_index_or plus.now node false && slice_index_or minus.now node false)
        (range_with_len 0 (length plus.now))) }
{
    let mut both: u64 = 0;
    'nodes: for node in 0..plus.len() {
        if plus[node] && minus[node] {
            both += 1;
        }
    }
    both
}

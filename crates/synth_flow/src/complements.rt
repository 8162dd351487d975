//! The leaves whose complements a deck names.
ghost use Rattle.std.specs.Prelude.{◌≡◌, ◌+◌, ◌*◌, ◌==◌, ◌||◌, IfOk, false, filter, length, slice_index_or};
ghost use Rattle.std.specs.List.{list_any, range_with_len};
ghost use Rattle.sp_network.specs.TypedTree.{tree_of};
ghost use Rattle.synth_flow.specs.NamedComplements.{MarksAlso, are_read, is_plus_end};
ghost use Rattle.deck_form.specs.NamedDecks.{reads};

use dom_base::{OutOfMemory, ToVss};
use dual_rail::{End, Rail};
use sp_network::{GatePlan, Sp};
use std::alloc::Global;

/// Marks the leaf whose opposite this gate is.
pub fn mark_gate(marks: &mut [bool], gate: u32)
    ensures { MarksAlso marks.old marks.new (λ leaf. gate == 2 * leaf + 1) }
{
    let leaf = (gate / 2) as usize;
    if gate % 2 == 1 && leaf < marks.len() {
        marks[leaf] = true;
    }
}

/// Marks each leaf whose opposite gates the tree.
fn mark_tree(marks: &mut [bool], tree: &Sp<ToVss>)
    ensures { MarksAlso marks.old marks.new (λ leaf. reads (2 * leaf + 1) (tree_of tree.now)) }
{
    match tree {
        Sp::Leaf { gate, .. } => mark_gate(marks, *gate),
        Sp::Series(left, right) | Sp::Parallel(left, right) => {
            mark_tree(marks, left);
            mark_tree(marks, right);
        }
    }
}

/// Marks each leaf whose opposite gates the tree of a plan.
fn mark_plans(marks: &mut [bool], plans: &[GatePlan])
    ensures { MarksAlso marks.old marks.new (are_read plans.now) }
{
    'plans: for plan in plans {
        mark_tree(marks, &plan.tree);
    }
}

/// Marks each leaf that is the plus literal of an end.
pub fn mark_ends(marks: &mut [bool], ends: &[End])
    ensures { MarksAlso marks.old marks.new (λ leaf. list_any (is_plus_end leaf) ends.now) }
{
    'ends: for end in ends {
        mark_end(marks, *end);
    }
}

/// Marks the leaf of which an end is the plus literal.
fn mark_end(marks: &mut [bool], end: End)
    ensures { MarksAlso marks.old marks.new (λ leaf. is_plus_end leaf end) }
{
    if let End::Literal(Rail { leaf, plus: true }) = end {
        if (leaf as usize) < marks.len() {
            marks[leaf as usize] = true;
        }
    }
}

/// The leaves, of so many, whose opposite gates a leaf of a tree or is named by a sink that is their
/// plus literal, in order.
pub fn named_complements(
    alloc: Global,
    plans: &[GatePlan],
    ends: &[End],
    leaves: u32,
) -> Result<Vec<u32>, OutOfMemory>
    ensures { IfOk result (λ named. named.items
        ≡ filter (λ leaf. are_read plans.now leaf || list_any (is_plus_end leaf) ends.now) (range_with_len 0 leaves)) }
{
    let mut marks = vec![in alloc; false; leaves as usize]?;
    mark_named(marks.as_mut_slice(), plans, ends);
    let named = marked_leaves(alloc, marks.as_slice(), leaves)?;
    Ok(named)
}

/// Marks each leaf whose opposite gates the tree of a plan, or that is the plus literal of an end.
#[tactic(auto, using(crate::proofs::LeafMarks::marks_both))]
fn mark_named(marks: &mut [bool], plans: &[GatePlan], ends: &[End])
    ensures { MarksAlso marks.old marks.new (λ leaf. are_read plans.now leaf || list_any (is_plus_end leaf) ends.now) }
{
    mark_plans(marks, plans);
    mark_ends(marks, ends);
}

/// The leaves, of so many, that are marked, in order.
pub fn marked_leaves(alloc: Global, marks: &[bool], leaves: u32) -> Result<Vec<u32>, OutOfMemory>
    requires { length marks.now ≡ leaves }
    ensures { IfOk result (λ named. named.items ≡ filter (λ leaf. slice_index_or marks.now leaf false) (range_with_len 0 leaves)) }
{
    let mut named = Vec::new(alloc);
    'leaves: for leaf in 0..leaves {
        if marks[leaf as usize] {
            named.push(leaf)?;
        }
    }
    Ok(named)
}

//! Free edges of a forest.
ghost use Rattle.std.specs.Prelude.{◌≡◌, ◌&&◌, ◌==◌, ◌<◌, ℕ, All, IfOk, MatchOption, count_by, length, map, slice_index_or, false};
ghost use Rattle.std.specs.List.{range_with_len};
ghost use Rattle.dual_rail.specs.Forests.{is_end_from};
ghost use Rattle.dual_rail.specs.Uses.{IsEndThere};
ghost use Rattle.dual_rail.specs.ForestOrder.{AreInOrder, ReadsBefore};
ghost use Rattle.tree_map.specs.Offers.{HasNoFreePair, IsFreePair};
ghost use Rattle.tree_map.specs.Plans.{is_free};

use dom_base::OutOfMemory;
use dual_rail::{Arm, End, Forest};
use std::alloc::Global;

/// For each pair whether the edge to it is free: its one use is by a pair. The one error is out of
/// memory.
pub(crate) fn free_edges(alloc: Global, forest: &Forest) -> Result<Vec<bool>, OutOfMemory>
    ensures order { AreInOrder forest.now.pairs }
    ensures free { IfOk result (λ free. free.items ≡ map (is_free forest.now) (range_with_len 0 (length forest.now.pairs))) }
{
    let mut free = used_once(alloc, &forest.uses)?;
    leave_out_ends(free.as_mut_slice(), &forest.ends);
    Ok(free)
}

/// For each pair whether it has one use.
fn used_once(alloc: Global, uses: &[u32]) -> Result<Vec<bool>, OutOfMemory>
    ensures { IfOk result (λ free. free.items ≡ map (λ n. n == 1) uses.now) }
{
    Ok(
        uses.iter()
            .map(|uses| *uses == 1)
            .collect::<Vec<bool>>(alloc)?,
    )
}

/// Leaves out the pairs that ends name.
fn leave_out_ends(free: &mut [bool], ends: &[End])
    requires there { All (IsEndThere (length free.old)) ends.now }
    ensures { (p : ℕ) → p < length free.old
        → slice_index_or free.new p false ≡ (slice_index_or free.old p false && (count_by (is_end_from p) ends.now == 0)) }
{
    for end in ends {
        if let End::FromDynamic(place) | End::FromOutput(place) = end {
            free[*place as usize] = false;
        }
    }
}

/// The pair that a free edge from an arm leads to.
pub(crate) fn free_pair(free: &[bool], arm: Arm) -> Option<usize>
    requires { ReadsBefore (length free.now) arm }
    ensures { MatchOption result (HasNoFreePair free.now arm) (IsFreePair free.now arm) }
{
    match arm {
        Arm::Pair(place) if free[place as usize] => Some(place as usize),
        _ => None,
    }
}

//! How often arms and ends name each pair.
ghost use Rattle.std.specs.Prelude.{IfOk, All, ℕ, ◌≡◌, ◌<◌, ◌≤◌, ◌+◌, ◌*◌, ◌^◌, cond, length, map, sum_by, count_by, slice_index_or};
ghost use Rattle.std.specs.List.{range_with_len};
ghost use Rattle.dual_rail.specs.Forests.{arms_of, is_end_from, is_pair_arm};
ghost use Rattle.dual_rail.specs.ForestOrder.{ReadsBefore};
ghost use Rattle.dual_rail.specs.Uses.{HasArmsThere, IsEndThere, named_by};

use crate::forest::{Arm, End, Pair};
use dom_base::OutOfMemory;
use std::alloc::Global;

/// Adds the use of an arm.
fn use_arm(uses: &mut [u32], arm: Arm)
    requires there { ReadsBefore (length uses.old) arm }
    requires room { (p : ℕ) → slice_index_or uses.old p 0 + 1 < 2 ^ 32 }
    ensures { (p : ℕ) → p < length uses.old → slice_index_or uses.new p 0 ≡ slice_index_or uses.old p 0 + cond (is_pair_arm p arm) 1 0 }
{
    if let Arm::Pair(place) = arm {
        uses[place as usize] += 1;
    }
}

/// Adds the uses of a pair's arms.
fn use_arms(uses: &mut [u32], pair: Pair)
    requires there { HasArmsThere (length uses.old) pair }
    requires room { (p : ℕ) → slice_index_or uses.old p 0 + 2 < 2 ^ 32 }
    ensures { (p : ℕ) → p < length uses.old → slice_index_or uses.new p 0 ≡ slice_index_or uses.old p 0 + named_by p pair }
{
    let (left, right) = pair.arms();
    use_arm(uses, left);
    use_arm(uses, right);
}

/// Adds the use of an end.
fn use_end(uses: &mut [u32], end: End)
    requires there { IsEndThere (length uses.old) end }
    requires room { (p : ℕ) → slice_index_or uses.old p 0 + 1 < 2 ^ 32 }
    ensures { (p : ℕ) → p < length uses.old → slice_index_or uses.new p 0 ≡ slice_index_or uses.old p 0 + cond (is_end_from p end) 1 0 }
{
    if let End::FromDynamic(place) | End::FromOutput(place) = end {
        uses[place as usize] += 1;
    }
}

/// Adds the uses of the arms of pairs.
fn use_pairs(uses: &mut [u32], pairs: &[Pair])
    requires there { All (HasArmsThere (length uses.old)) pairs.now }
    requires room { (p : ℕ) → slice_index_or uses.old p 0 + 2 * length pairs.now < 2 ^ 32 }
    ensures counts { (p : ℕ) → p < length uses.old → slice_index_or uses.new p 0 ≡ slice_index_or uses.old p 0 + sum_by (named_by p) pairs.now }
    ensures few { (p : ℕ) → slice_index_or uses.new p 0 ≤ slice_index_or uses.old p 0 + 2 * length pairs.now }
{
    for pair in pairs {
        use_arms(uses, *pair);
    }
}

/// Adds the uses of ends.
fn use_ends(uses: &mut [u32], ends: &[End])
    requires there { All (IsEndThere (length uses.old)) ends.now }
    requires room { (p : ℕ) → slice_index_or uses.old p 0 + length ends.now < 2 ^ 32 }
    ensures { (p : ℕ) → p < length uses.old → slice_index_or uses.new p 0 ≡ slice_index_or uses.old p 0 + count_by (is_end_from p) ends.now }
{
    for end in ends {
        use_end(uses, *end);
    }
}

/// The number of uses of each pair.
pub fn uses_of(alloc: Global, pairs: &[Pair], ends: &[End]) -> Result<Vec<u32>, OutOfMemory>
    requires pairs { All (HasArmsThere (length pairs.now)) pairs.now }
    requires ends { All (IsEndThere (length pairs.now)) ends.now }
    requires fits { 2 * length pairs.now + length ends.now < 2 ^ 32 }
    ensures { IfOk result (λ v. v.items
        ≡ map (λ p. sum_by (λ pair. count_by (is_pair_arm p) (arms_of pair)) pairs.now + count_by (is_end_from p) ends.now)
        (range_with_len 0 (length pairs.now))) }
{
    let mut uses = vec![in alloc; 0; pairs.len()]?;
    use_pairs(uses.as_mut_slice(), pairs);
    use_ends(uses.as_mut_slice(), ends);
    Ok(uses)
}

//! The least sums of all pairs, joined up pair by pair (Zhao, Sapatnekar 1998).
ghost use Rattle.std.specs.Prelude.{Option, ◌≡◌, ◌+◌, ◌≤◌, ◌*◌, ◌^◌, IfOk, IfSome, MatchOption, OnOk, length, map, option_map};
ghost use Rattle.std.specs.List.{range_with_len};
ghost use Rattle.cover_plan.specs.CoverTables.{combined, lower_both, split_cost};
ghost use Rattle.tree_map.specs.CoverRows.{AreFewCosts, AreSmall, IsRow, cut_number, entry_of, sum_or_zero};
ghost use Rattle.tree_map.specs.CoverSums.{AreCutsOf, AreSumsOf, sum_at, with_cut, with_row};
ghost use Rattle.tree_map.specs.LeastPlans.{operator_of};
ghost use Rattle.tree_map.specs.Offers.{HasSums, IsLeastSum};
ghost use Rattle.tree_map.specs.Plans.{is_free};

use crate::Bounds;
use crate::cost::Costs;
use crate::joins::{cheapest, join_arms, lesser};
use crate::offers::{Offer, offers_of, root_of};
use crate::sums::Sums;
use dom_base::OutOfMemory;
use dual_rail::{Forest, Pair};
use std::alloc::Global;

/// What a pair costs as a compound root, from the offers for its arms, where it may be one.
fn split_sum(costs: Costs, pair: Pair, lefts: &[Offer], rights: &[Offer]) -> Option<u32>
    requires costs { AreFewCosts costs }
    requires lefts { AreSmall (map entry_of lefts.now) }
    requires rights { AreSmall (map entry_of rights.now) }
    ensures cost { result ≡ split_cost costs (operator_of pair) (map entry_of lefts.now) (map entry_of rights.now) }
    ensures few { IfSome result (λ sum. sum ≤ 2 ^ 31 + 10) }
{
    if !costs.may_split(pair) {
        return None;
    }
    Some(cheapest(lefts)? + cheapest(rights)? + costs.compound)
}

/// What a pair adds to the tree above it where it is cut, from its own least sum and from the offers for its arms:
/// a leaf, and its least cost as a root. It is 0 where it can be none.
fn cut_of(costs: Costs, pair: Pair, own: Option<u32>, lefts: &[Offer], rights: &[Offer]) -> u32
    requires costs { AreFewCosts costs }
    requires own { IfSome own (λ sum. sum ≤ 2 ^ 31 + 10) }
    requires lefts { AreSmall (map entry_of lefts.now) }
    requires rights { AreSmall (map entry_of rights.now) }
    ensures { result ≡ sum_or_zero (option_map (λ n. 1 + n) (lower_both (option_map (λ n. n + costs.simple) own)
        (split_cost costs (operator_of pair) (map entry_of lefts.now) (map entry_of rights.now)))) }
{
    let simple = match own {
        Some(sum) => sum + (1 + costs.simple),
        None => 0,
    };
    match split_sum(costs, pair, lefts, rights) {
        Some(sum) => lesser(simple, 1 + sum),
        None => simple,
    }
}

/// The least sum of a pair.
fn least_sum(table: &Sums, place: usize) -> Option<u32>
    ensures { MatchOption result (HasSums (sum_at table.now place) → ⊥) (IsLeastSum (sum_at table.now place)) }
{
    match root_of(table, place) {
        Some((_, least)) => Some(least),
        None => None,
    }
}

/// Appends the sums of one more pair, and what it adds where it is cut, from the offers for its arms.
fn push_pair(
    table: &mut Sums,
    pair: Pair,
    row: &[u32],
    lefts: &[Offer],
    rights: &[Offer],
) -> Result<(), OutOfMemory>
    requires costs { AreFewCosts table.old.costs }
    requires width { (1 ≤ table.old.w) × (table.old.w ≤ 8) }
    requires height { (1 ≤ table.old.h) × (table.old.h ≤ 6) }
    requires count { length table.old.sums ≡ length table.old.cuts * (table.old.w * table.old.h) }
    requires lefts { AreSmall (map entry_of lefts.now) }
    requires rights { AreSmall (map entry_of rights.now) }
    requires row { IsRow table.old.w table.old.h
        (combined table.old.costs (operator_of pair) (map entry_of lefts.now) (map entry_of rights.now)) row.now }
    ensures { OnOk result (table.new ≡ with_cut (with_row table.old row.now)
        (cut_number table.old.costs table.old.w table.old.h (operator_of pair) (map entry_of lefts.now) (map entry_of rights.now))) }
{
    let place = table.count();
    table.push_row(row)?;
    let own = least_sum(table, place);
    let cut = cut_of(table.costs(), pair, own, lefts, rights);
    table.push_cut(cut)
}

/// The least sums of the pairs of a forest at these costs, where `free` says of each pair whether the edge to it
/// is free. The one error is want of memory.
pub(crate) fn sums_of(
    alloc: Global,
    forest: &Forest,
    free: &[bool],
    bounds: Bounds,
    costs: Costs,
) -> Result<Sums, OutOfMemory>
    requires width { (2 ≤ bounds.w) × (bounds.w ≤ 8) }
    requires height { (2 ≤ bounds.h) × (bounds.h ≤ 6) }
    requires costs { AreFewCosts costs }
    requires free { free.now ≡ map (is_free forest.now) (range_with_len 0 (length forest.now.pairs)) }
    ensures width { IfOk result (λ t. t.w ≡ bounds.w) }
    ensures height { IfOk result (λ t. t.h ≡ bounds.h) }
    ensures costs { IfOk result (λ t. t.costs ≡ costs) }
    ensures count { IfOk result (λ t. length t.sums ≡ length forest.now.pairs * (bounds.w * bounds.h)) }
    ensures sums { IfOk result (AreSumsOf forest.now) }
    ensures cuts { IfOk result (AreCutsOf forest.now) }
{
    let shapes = (bounds.w * bounds.h) as usize;
    let mut table = Sums::none(alloc, bounds, costs, forest.pairs.len())?;
    let mut numbers = vec![in alloc; 0; shapes]?;
    let row = numbers.as_mut_slice();
    let mut lefts = Vec::new(alloc);
    let mut rights = Vec::new(alloc);
    for pair in &forest.pairs {
        let (left, right) = pair.arms();
        offers_of(&table, free, left, &mut lefts)?;
        offers_of(&table, free, right, &mut rights)?;
        join_arms(row, bounds, costs, *pair, &lefts, &rights);
        push_pair(&mut table, *pair, row, &lefts, &rights)?;
    }
    Ok(table)
}

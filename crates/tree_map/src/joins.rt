//! Rows with the least sum of each shape, joined up from the offers for the arms of a pair.
ghost use Rattle.std.specs.Prelude.{◌≡◌, ◌≤◌, ◌<◌, ◌*◌, ◌++◌, ◌∷◌, [], List, length, map, min};
ghost use Rattle.cover_plan.specs.Covers.{joined_sum};
ghost use Rattle.cover_plan.specs.CoverTables.{Entry, combined, lowest};
ghost use Rattle.cover_plan.specs.Parts.{joined_shape};
ghost use Rattle.tree_map.specs.CoverRows.{AreFewCosts, AreSmall, IsRow, IsSmall, entry_of, joined_entry};
ghost use Rattle.tree_map.specs.LeastPlans.{operator_of};

use crate::Bounds;
use crate::cost::Costs;
use crate::offers::Offer;
use crate::shape::Shape;
use dual_rail::Pair;

/// The least sum of these offers.
pub(crate) fn cheapest(offers: &[Offer]) -> Option<u32>
    ensures { result ≡ lowest (map entry_of offers.now) }
{
    let mut least = None;
    for offer in offers {
        least = match least {
            Some(sum) => Some(offer.sum.min(sum)),
            None => Some(offer.sum),
        };
    }
    least
}

/// The shape and the sum that offers for the arms of a pair come to.
fn joined(costs: Costs, pair: Pair, left: &Offer, right: &Offer) -> (Shape, u32)
    requires costs { AreFewCosts costs }
    requires left { IsSmall (entry_of left.now) }
    requires right { IsSmall (entry_of right.now) }
    ensures shape { result.0 ≡ joined_shape (operator_of pair) left.now.shape right.now.shape }
    ensures sum { result.1 ≡ joined_sum costs (operator_of pair) left.now.sum right.now.sum }
{
    let shape = Shape::joined(pair, left.shape, right.shape);
    (shape, left.sum + right.sum + costs.node(pair))
}

/// The lesser of a number in a row, where 0 is none, and a sum.
pub(crate) fn lesser(number: u32, sum: u32) -> u32
    ensures none { number ≡ 0 → result ≡ sum }
    ensures some { 0 < number → result ≡ min sum number }
{
    if number == 0 { sum } else { sum.min(number) }
}

/// Puts the sum of a shape into a row, where the shape is within the bounds and the sum is its least.
fn keep_least(row: &mut [u32], bounds: Bounds, shape: Shape, sum: u32)
    requires count { length row.old ≡ bounds.w * bounds.h }
    requires few { bounds.w * bounds.h ≤ 48 }
    requires tall { 1 ≤ shape.height }
    requires wide { 1 ≤ shape.width }
    requires some { 1 ≤ sum }
    ensures count { length row.new ≡ length row.old }
    ensures least { (es : List Entry) → IsRow bounds.w bounds.h es row.old
        → IsRow bounds.w bounds.h (es ++ record { shape = shape; sum = sum } ∷ []) row.new }
{
    if shape.height > bounds.h || shape.width > bounds.w {
        return;
    }
    let index = shape.index(bounds);
    row[index] = lesser(row[index], sum);
}

/// Puts an offer for the left arm with each for the right arm into a row.
fn join_right(
    row: &mut [u32],
    bounds: Bounds,
    costs: Costs,
    pair: Pair,
    left: &Offer,
    rights: &[Offer],
)
    requires costs { AreFewCosts costs }
    requires count { length row.old ≡ bounds.w * bounds.h }
    requires few { bounds.w * bounds.h ≤ 48 }
    requires left { IsSmall (entry_of left.now) }
    requires rights { AreSmall (map entry_of rights.now) }
    ensures count { length row.new ≡ length row.old }
    ensures least { (es : List Entry) → IsRow bounds.w bounds.h es row.old
        → IsRow bounds.w bounds.h
        (es ++ map (joined_entry costs (operator_of pair) (entry_of left.now)) (map entry_of rights.now)) row.new }
{
    for right in rights {
        let (shape, sum) = joined(costs, pair, left, right);
        keep_least(row, bounds, shape, sum);
    }
}

/// Makes a row of the least sums of a pair, from the offers for its arms: each for the left arm with
/// each for the right arm.
pub(crate) fn join_arms(
    row: &mut [u32],
    bounds: Bounds,
    costs: Costs,
    pair: Pair,
    lefts: &[Offer],
    rights: &[Offer],
)
    requires costs { AreFewCosts costs }
    requires count { length row.old ≡ bounds.w * bounds.h }
    requires few { bounds.w * bounds.h ≤ 48 }
    requires lefts { AreSmall (map entry_of lefts.now) }
    requires rights { AreSmall (map entry_of rights.now) }
    ensures { IsRow bounds.w bounds.h (combined costs (operator_of pair) (map entry_of lefts.now) (map entry_of rights.now)) row.new }
{
    row.fill(0);
    for left in lefts {
        join_right(row, bounds, costs, pair, left, rights);
    }
}

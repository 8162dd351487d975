//! Offers for an arm: its choices in order, with the shape and the sum that each gives.
ghost use Rattle.std.specs.Prelude.{◌≤◌, ◌<◌, ◌≡◌, MatchOption, OnOk, Some, false, length, true};
ghost use Rattle.dual_rail.specs.ForestOrder.{ReadsBefore};
ghost use Rattle.tree_map.specs.CoverSums.{sum_at};
ghost use Rattle.tree_map.specs.Offers.{AreKept, AreOffersFor, HasSums, IsFirstShape};

use crate::free::free_pair;
use crate::shape::{LEAF, Shape};
use crate::sums::Sums;
use dom_base::OutOfMemory;
use dual_rail::Arm;

/// What is done with the pair below an arm: it is kept in a shape, or cut off. Nothing is done where
/// no free edge leads to a pair.
#[derive(Clone, Copy)]
pub(crate) enum Choice {
    Keep(Shape),
    CutOff,
    Nothing,
}

/// A choice for an arm, and the shape and the sum that it gives the arm. A sum is the leaves of the arm
/// and the whole costs of the trees that are cut off.
#[derive(Clone, Copy)]
pub(crate) struct Offer {
    pub choice: Choice,
    pub shape: Shape,
    pub sum: u32,
}

/// The one offer for an arm without a free edge: the arm is a leaf.
const NOTHING: Offer = Offer {
    choice: Choice::Nothing,
    shape: LEAF,
    sum: 1,
};

/// Puts the offers to keep a pair in place of these, by rising height, and those of one height by
/// rising width.
fn kept_offers(sums: &Sums, place: usize, offers: &mut Vec<Offer>) -> Result<(), OutOfMemory>
    ensures { OnOk result (AreKept (sum_at sums.now place) offers.new.items) }
{
    offers.clear();
    let bounds = sums.bounds();
    let row = sums.row(place);
    for index in 0..row.len() {
        let sum = row[index];
        if sum != 0 {
            let shape = Shape::at(bounds, index);
            offers.push(Offer {
                choice: Choice::Keep(shape),
                shape,
                sum,
            })?;
        }
    }
    Ok(())
}

/// The shape that a pair takes as a root, with its sum, where it has any: of the shapes of least sum the lowest,
/// and of these the narrowest.
pub(crate) fn root_of(sums: &Sums, place: usize) -> Option<(Shape, u32)>
    ensures { MatchOption result (HasSums (sum_at sums.now place) → ⊥)
        (λ r. IsFirstShape (sum_at sums.now place) r.0 × (sum_at sums.now place r.0 ≡ Some r.1)) }
{
    let bounds = sums.bounds();
    let row = sums.row(place);
    let mut first = 0;
    let mut least = 0;
    for index in 0..row.len() {
        let sum = row[index];
        if is_less(sum, least) {
            first = index;
            least = sum;
        }
    }
    if least == 0 {
        None
    } else {
        Some((Shape::at(bounds, first), least))
    }
}

/// Whether a number of a row is less than another, where 0 is none.
fn is_less(sum: u32, other: u32) -> bool
    ensures less { result ≡ true → (0 < sum) × (0 < other → sum < other) }
    ensures not_less { result ≡ false → 0 < sum → (0 < other) × (other ≤ sum) }
{
    // Less one, 0 is the greatest number: one comparison serves.
    sum.wrapping_sub(1) < other.wrapping_sub(1)
}

/// Puts the offers for an arm in place of these: to keep the pair that a free edge leads to in each of
/// its shapes, and last to cut it off, which brings its whole cost. Without a free edge the
/// arm is a leaf.
pub(crate) fn offers_of(
    sums: &Sums,
    free: &[bool],
    arm: Arm,
    offers: &mut Vec<Offer>,
) -> Result<(), OutOfMemory>
    requires there { ReadsBefore (length free.now) arm }
    ensures { OnOk result (AreOffersFor sums.now free.now arm offers.new.items) }
{
    let Some(place) = free_pair(free, arm) else {
        offers.clear();
        offers.push(NOTHING)?;
        return Ok(());
    };
    kept_offers(sums, place, offers)?;
    if let Some(sum) = sums.cut(place) {
        let cut = Offer {
            choice: Choice::CutOff,
            shape: LEAF,
            sum,
        };
        offers.push(cut)?;
    }
    Ok(())
}

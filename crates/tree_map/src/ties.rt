//! The ties of the cover: the choices of pairs, from the last pair to the first (Zhao, Sapatnekar 1998).
ghost use Rattle.std.specs.Prelude.{◌≡◌, ◌≤◌, ◌<◌, ◌*◌, ◌+◌, ℕ, IfOk, IfSome, MatchOption, None, Some, length, map, slice_get, true, false};
ghost use Rattle.std.specs.List.{range_with_len};
ghost use Rattle.dual_rail.specs.declared.forest.Pair.{Pair as PairData};
ghost use Rattle.cover_plan.specs.Parts.{TreeShape};
ghost use Rattle.dual_rail.specs.ForestOrder.{ReadsBefore};
ghost use Rattle.tree_map.specs.BesideLeaves.{ArePicked, IsBesideLeaf, IsPicked, NoneBesideLeaf};
ghost use Rattle.tree_map.specs.CoverSums.{AreCutsOf, AreSumsOf, cut_at, sum_at};
ghost use Rattle.compound_plan.specs.Plans.{IsDecided};
ghost use Rattle.tree_map.specs.Offers.{HasSums};
ghost use Rattle.tree_map.specs.Plans.{IsFree, is_free, is_kept};
ghost use Rattle.tree_map.specs.Ties.{AreFirstOffers, AreSmall, Give, IsDecision, IsFirstLeast, IsFirstRight, IsRootKind, IsSmall, NoneGives, SomeGive};

use crate::decisions::{Decision, Decisions};
use crate::free::free_pair;
use crate::offers::{Choice, Offer, offers_of, root_of};
use crate::shape::Shape;
use crate::sums::Sums;
use dom_base::OutOfMemory;
use dual_rail::{Arm, Forest, Pair};
use std::alloc::Global;

/// What the choices for the arms of a pair are to give: its shape at its least sum, less the cost of its node.
#[derive(Clone, Copy)]
struct Wanted {
    pair: Pair,
    shape: Shape,
    sum: u32,
}

impl Wanted {
    /// Whether two offers give it.
    fn is_given(&self, left: &Offer, right: &Offer) -> bool
        requires left { IsSmall left.now.shape }
        requires right { IsSmall right.now.shape }
        ensures given { result ≡ true → Give self.now left.now right.now }
        ensures not_given { result ≡ false → Give self.now left.now right.now → ⊥ }
    {
        left.sum <= self.sum
            && right.sum == self.sum - left.sum
            && Shape::joined(self.pair, left.shape, right.shape) == self.shape
    }

    /// The first offer for the right arm that gives it with an offer for the left arm.
    fn first_right(&self, left: &Offer, rights: &[Offer]) -> Option<Offer>
        requires left { IsSmall left.now.shape }
        requires rights { AreSmall rights.now }
        ensures { MatchOption result (NoneGives self.now left.now rights.now (length rights.now))
            (IsFirstRight self.now left.now rights.now) }
    {
        for right in rights {
            if self.is_given(left, right) {
                return Some(*right);
            }
        }
        None
    }

    /// The first two offers that give it, where the left arm counts before the right arm.
    fn first_offers(&self, lefts: &[Offer], rights: &[Offer]) -> (Offer, Offer)
        requires lefts { AreSmall lefts.now }
        requires rights { AreSmall rights.now }
        requires some { SomeGive self.now lefts.now rights.now }
        ensures { AreFirstOffers self.now lefts.now rights.now result.0 result.1 }
    {
        for left in lefts {
            if let Some(right) = self.first_right(left, rights) {
                return (*left, right);
            }
        }
        unreachable!()
    }

    /// The first offers for the arms of a pair: each alone where it is the root of a compound cell, else the first two
    /// that give it.
    fn first_choices(&self, split: bool, lefts: &[Offer], rights: &[Offer]) -> (Offer, Offer)
        requires lefts { AreSmall lefts.now }
        requires rights { AreSmall rights.now }
        requires some { SomeGive self.now lefts.now rights.now }
        ensures together { split ≡ false → AreFirstOffers self.now lefts.now rights.now result.0 result.1 }
        ensures left { split ≡ true → IsFirstLeast lefts.now result.0 }
        ensures right { split ≡ true → IsFirstLeast rights.now result.1 }
    {
        if split {
            (first_alone(lefts), first_alone(rights))
        } else {
            self.first_offers(lefts, rights)
        }
    }

    /// The shape in which the tree of this pair gives it beside a leaf, where there is one.
    fn kept_beside_leaf(&self, sums: &Sums, place: usize) -> Option<Shape>
        ensures { MatchOption result (NoneBesideLeaf self.now (sum_at sums.now place)) (IsBesideLeaf self.now (sum_at sums.now place)) }
    {
        let shape = self.shape.beside_leaf(self.pair);
        let sum = sums.sum(place, shape.height, shape.width)?;
        if sum < self.sum && self.sum - sum == 1 {
            Some(shape)
        } else {
            None
        }
    }

    /// What is done with this pair beside a leaf: it is kept in the shape that gives it, or cut off where none does.
    fn choice_beside_leaf(&self, sums: &Sums, place: usize) -> Choice
        ensures { IsPicked self.now (sum_at sums.now place) result }
    {
        match self.kept_beside_leaf(sums, place) {
            Some(shape) => Choice::Keep(shape),
            None => Choice::CutOff,
        }
    }

    /// The first choices for the arms of the pair where one of them is a leaf: no list of offers is needed.
    fn choices_beside_leaf(
        &self,
        free: &[bool],
        sums: &Sums,
        left: Arm,
        right: Arm,
    ) -> Option<(Choice, Choice)>
        requires left { ReadsBefore (length free.now) left }
        requires right { ReadsBefore (length free.now) right }
        ensures { IfSome result (λ c. ArePicked self.now sums.now free.now left right c.0 c.1) }
    {
        match (free_pair(free, left), free_pair(free, right)) {
            (None, None) => Some((Choice::Nothing, Choice::Nothing)),
            (Some(place), None) => Some((self.choice_beside_leaf(sums, place), Choice::Nothing)),
            (None, Some(place)) => Some((Choice::Nothing, self.choice_beside_leaf(sums, place))),
            (Some(_), Some(_)) => None,
        }
    }
}

/// The first offer of least sum.
fn first_alone(offers: &[Offer]) -> Offer
    requires some { 0 < length offers.now }
    ensures { IsFirstLeast offers.now result }
{
    let mut first = offers[0];
    for offer in offers {
        if is_cheaper(offer, &first) {
            first = *offer;
        }
    }
    first
}

/// Whether an offer has a lower sum than another.
fn is_cheaper(offer: &Offer, other: &Offer) -> bool
    ensures less { result ≡ true → offer.now.sum < other.now.sum }
    ensures not_less { result ≡ false → other.now.sum ≤ offer.now.sum }
{
    offer.sum < other.sum
}

/// The shape of a pair, and whether it is the root of a compound cell: a kept pair has its shape, and a root is
/// compound where that costs less than each simple one.
fn shape_of(sums: &Sums, place: usize, kept: Option<Shape>) -> (Shape, bool)
    requires some { HasSums (sum_at sums.now place) }
    ensures stays { IfSome kept (λ before. (result.0 ≡ before) × (result.1 ≡ false)) }
    ensures root { kept ≡ None → IsRootKind sums.now place result.0 result.1 }
{
    match kept {
        Some(shape) => (shape, false),
        None => {
            let Some((shape, least)) = root_of(sums, place) else {
                unreachable!()
            };
            (shape, is_compound(sums, place, least))
        }
    }
}

/// Whether a root of this least sum costs less as a compound one.
fn is_compound(sums: &Sums, place: usize, least: u32) -> bool
    ensures compound { result ≡ true → (cut : ℕ) × (cut_at sums.now place ≡ Some cut) × (cut ≤ least + sums.now.costs.simple) }
    ensures simple { result ≡ false → (cut : ℕ) → cut_at sums.now place ≡ Some cut → least + sums.now.costs.simple < cut }
{
    match sums.cut(place) {
        Some(cut) => u64::from(cut) <= u64::from(least) + u64::from(sums.costs().simple),
        None => false,
    }
}

/// What is decided of a pair, where `kept` is its shape if it is kept. The two lists are for the offers.
fn decision_of(
    forest: &Forest,
    free: &[bool],
    sums: &Sums,
    place: usize,
    kept: Option<Shape>,
    lefts: &mut Vec<Offer>,
    rights: &mut Vec<Offer>,
) -> Result<Decision, OutOfMemory>
    requires width { (2 ≤ sums.now.w) × (sums.now.w ≤ 8) }
    requires height { (2 ≤ sums.now.h) × (sums.now.h ≤ 6) }
    requires free { free.now ≡ map (is_free forest.now) (range_with_len 0 (length forest.now.pairs)) }
    requires sums { AreSumsOf forest.now sums.now }
    requires cuts { AreCutsOf forest.now sums.now }
    requires place { place < length forest.now.pairs }
    requires kept { (shape : TreeShape) → kept ≡ Some shape → (sum : ℕ) × (sum_at sums.now place shape ≡ Some sum) }
    ensures { IfOk result (λ d. (pair : PairData) → slice_get forest.now.pairs place ≡ Some pair
        → IsDecision sums.now.costs forest.now sums.now.w sums.now.h pair kept d.split d.shape d.left d.right) }
{
    let pair = forest.pairs[place];
    let (left_arm, right_arm) = pair.arms();
    let (shape, split) = shape_of(sums, place, kept);
    let Some(sum) = sums.sum(place, shape.height, shape.width) else {
        unreachable!()
    };
    let wanted = Wanted {
        pair,
        shape,
        sum: sum - sums.costs().node(pair),
    };
    if !split {
        if let Some((left, right)) = wanted.choices_beside_leaf(free, sums, left_arm, right_arm) {
            return Ok(Decision {
                split,
                shape,
                left,
                right,
            });
        }
    }
    offers_of(sums, free, left_arm, lefts)?;
    offers_of(sums, free, right_arm, rights)?;
    let (left, right) = wanted.first_choices(split, lefts.as_slice(), rights.as_slice());
    Ok(Decision {
        split,
        shape,
        left: left.choice,
        right: right.choice,
    })
}

/// The choices of the cover, where `free` says of each pair whether the edge to it is free, and `sums`
/// has the least sums of each pair. A simple root takes its lowest shape of least sum, and of these the
/// narrowest. Each pair takes the first two choices that give its shape at least sum, but each arm of a
/// compound root its first choice of least sum alone. The one error is want of memory.
pub(crate) fn decisions(
    alloc: Global,
    forest: &Forest,
    free: &[bool],
    sums: &Sums,
) -> Result<Decisions, OutOfMemory>
    requires width { (2 ≤ sums.now.w) × (sums.now.w ≤ 8) }
    requires height { (2 ≤ sums.now.h) × (sums.now.h ≤ 6) }
    requires count { length sums.now.sums ≡ length forest.now.pairs * (sums.now.w * sums.now.h) }
    requires free { free.now ≡ map (is_free forest.now) (range_with_len 0 (length forest.now.pairs)) }
    requires sums { AreSumsOf forest.now sums.now }
    requires cuts { AreCutsOf forest.now sums.now }
    ensures kept { IfOk result (λ d. length d.kept.items ≡ length forest.now.pairs) }
    ensures split { IfOk result (λ d. length d.split.items ≡ length forest.now.pairs) }
    ensures shapes { IfOk result (λ d. length d.shapes.items ≡ length forest.now.pairs) }
    ensures free { IfOk result (λ d. (place : ℕ) → is_kept d.kept.items place ≡ true → IsFree forest.now place) }
    ensures marked { IfOk result (λ d. (place : ℕ) → is_kept d.split.items place ≡ true
        → (is_kept d.kept.items place ≡ false) × (place < length forest.now.pairs)) }
    ensures decided { IfOk result (λ d. (place : ℕ) (pair : PairData) (shape : TreeShape)
        → slice_get forest.now.pairs place ≡ Some pair → slice_get d.shapes.items place ≡ Some shape
        → IsDecided sums.now.costs forest.now sums.now.w sums.now.h d.kept.items d.split.items d.shapes.items place pair shape) }
{
    let mut decisions = Decisions::none(alloc, forest.pairs.len())?;
    let mut lefts = Vec::new(alloc);
    let mut rights = Vec::new(alloc);
    for place in (0..forest.pairs.len()).rev() {
        let kept = decisions.kept_shape(place);
        let Decision {
            split,
            shape,
            left,
            right,
        } = decision_of(forest, free, sums, place, kept, &mut lefts, &mut rights)?;
        decisions.decide(place, forest.pairs[place], split, shape, left, right);
    }
    Ok(decisions)
}

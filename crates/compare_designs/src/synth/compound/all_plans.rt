//! The costs of plans with compound roots, and the least of all, where all sets of kept edges are tried.
use crate::synth::compound::offers::{COMPOUND, SIMPLE, Shape, joined};
use plain_synthesis::{PlainArm, PlainBounds, PlainForest};
use std::alloc::{AllocError, Global};

/// The most free edges of a forest of which all plans are tried.
const MOST_FREE: usize = 9;

/// A leaf.
const LEAF: Shape = Shape {
    height: 1,
    width: 1,
    sum: 1,
};

/// Whether an edge to a pair is kept.
fn is_kept(kept: &[bool], place: usize) -> bool {
    kept.get(place).copied().unwrap_or(false)
}

/// The pair that an arm keeps.
fn kept_pair(kept: &[bool], arm: PlainArm) -> Option<usize> {
    match arm {
        PlainArm::Pair(place) if is_kept(kept, place) => Some(place),
        _ => None,
    }
}

/// The height and the width of the tree of a pair, with its leaves and series nodes, at most so deep.
fn tree_shape(forest: &PlainForest, kept: &[bool], place: usize, fuel: usize) -> Shape {
    let Some(pair) = forest.pairs.get(place) else {
        return LEAF;
    };
    if fuel == 0 {
        return LEAF;
    }
    let left = match kept_pair(kept, pair.left) {
        Some(below) => tree_shape(forest, kept, below, fuel - 1),
        None => LEAF,
    };
    let right = match kept_pair(kept, pair.right) {
        Some(below) => tree_shape(forest, kept, below, fuel - 1),
        None => LEAF,
    };
    joined(pair.series, left, right)
}

/// What stands at an arm: a leaf, or the tree of a kept pair.
fn arm_shape(forest: &PlainForest, kept: &[bool], arm: PlainArm, fuel: usize) -> Shape {
    match kept_pair(kept, arm) {
        Some(place) => tree_shape(forest, kept, place, fuel),
        None => LEAF,
    }
}

/// What the cell of a root costs, as a simple or as a compound one. There is none where neither is within the bounds.
fn root_cost(
    forest: &PlainForest,
    kept: &[bool],
    place: usize,
    bounds: PlainBounds,
) -> Option<usize> {
    let pair = forest.pairs.get(place)?;
    let fuel = forest.pairs.len();
    let left = arm_shape(forest, kept, pair.left, fuel);
    let right = arm_shape(forest, kept, pair.right, fuel);
    let whole = joined(pair.series, left, right);
    let mut least = None;
    if whole.fits(bounds) {
        least = Some(whole.sum.saturating_add(SIMPLE));
    }
    if !pair.series && left.fits(bounds) && right.fits(bounds) {
        let compound = whole.sum.saturating_add(COMPOUND);
        least = Some(match least {
            Some(simple) => compound.min(simple),
            None => compound,
        });
    }
    least
}

/// The least cost of the cells of a plan that keeps these edges, where it has cells within the bounds.
fn cost_of(forest: &PlainForest, kept: &[bool], bounds: PlainBounds) -> Option<usize> {
    let mut cost = 0usize;
    for place in 0..forest.pairs.len() {
        if !is_kept(kept, place) {
            cost = cost.saturating_add(root_cost(forest, kept, place, bounds)?);
        }
    }
    Some(cost)
}

/// The cost of a plan with these compound roots, where its cells are within the bounds.
pub fn plan_cost(
    forest: &PlainForest,
    kept: &[bool],
    split: &[bool],
    bounds: PlainBounds,
) -> Option<usize> {
    let mut cost = 0usize;
    let fuel = forest.pairs.len();
    for (place, pair) in forest.pairs.iter().enumerate() {
        if is_kept(kept, place) {
            continue;
        }
        let left = arm_shape(forest, kept, pair.left, fuel);
        let right = arm_shape(forest, kept, pair.right, fuel);
        let whole = joined(pair.series, left, right);
        let is_compound = is_kept(split, place);
        let fits = if is_compound {
            !pair.series && left.fits(bounds) && right.fits(bounds)
        } else {
            whole.fits(bounds)
        };
        if !fits {
            return None;
        }
        let beside = if is_compound { COMPOUND } else { SIMPLE };
        cost = cost.saturating_add(whole.sum).saturating_add(beside);
    }
    Some(cost)
}

/// The least cost of all plans of a forest with few free edges.
pub fn least_cost(
    alloc: Global,
    forest: &PlainForest,
    bounds: PlainBounds,
) -> Result<Option<usize>, AllocError> {
    let mut free: Vec<usize> = Vec::new(alloc);
    let mut kept: Vec<bool> = Vec::new(alloc);
    for place in 0..forest.pairs.len() {
        kept.push(false)?;
        if forest.is_free(place) {
            free.push(place)?;
        }
    }
    if free.len() > MOST_FREE {
        return Ok(None);
    }
    let mut count = 1usize;
    for _ in free.iter() {
        count = count.saturating_mul(2);
    }
    let mut least = None;
    for number in 0..count {
        let mut rest = number;
        for place in free.iter() {
            if let Some(slot) = kept.get_mut(*place) {
                *slot = rest % 2 == 1;
            }
            rest /= 2;
        }
        if let Some(cost) = cost_of(forest, &kept, bounds) {
            least = Some(match least {
                Some(before) => cost.min(before),
                None => cost,
            });
        }
    }
    Ok(least)
}

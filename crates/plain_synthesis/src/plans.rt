//! Plans: sets of kept free edges. A kept edge is named by the pair that it leads to.
use crate::forest::{PlainArm, PlainForest};
use std::alloc::{AllocError, Global};

/// The most free edges of a forest of which all plans are tried.
const MOST_FREE: usize = 12;

/// The bounds of a tree.
#[derive(Clone, Copy)]
pub struct PlainBounds {
    pub width: usize,
    pub height: usize,
}

/// The height, the width and the number of leaves of a tree.
#[derive(Clone, Copy)]
pub struct Measures {
    pub height: usize,
    pub width: usize,
    pub leaves: usize,
}

impl Measures {
    /// Those of a leaf.
    pub fn leaf() -> Measures {
        Measures {
            height: 1,
            width: 1,
            leaves: 1,
        }
    }

    /// Those of two trees in series or in parallel.
    pub fn joined(self, series: bool, other: Measures) -> Measures {
        let leaves = self.leaves.saturating_add(other.leaves);
        if series {
            Measures {
                height: self.height.saturating_add(other.height),
                width: self.width.max(other.width),
                leaves,
            }
        } else {
            Measures {
                height: self.height.max(other.height),
                width: self.width.saturating_add(other.width),
                leaves,
            }
        }
    }

    /// Whether a tree is within the bounds.
    pub fn fit(self, bounds: PlainBounds) -> bool {
        self.height <= bounds.height && self.width <= bounds.width
    }
}

/// Whether an edge to a pair is kept.
pub fn is_kept(kept: &[bool], place: usize) -> bool {
    kept.get(place).copied().unwrap_or(false)
}

/// The pair that an arm keeps.
pub fn kept_pair(kept: &[bool], arm: PlainArm) -> Option<usize> {
    match arm {
        PlainArm::Pair(place) if is_kept(kept, place) => Some(place),
        _ => None,
    }
}

/// The measures of the tree of a pair, at most so deep.
pub fn tree_measures(forest: &PlainForest, kept: &[bool], place: usize, fuel: usize) -> Measures {
    let Some(pair) = forest.pairs.get(place) else {
        return Measures::leaf();
    };
    if fuel == 0 {
        return Measures::leaf();
    }
    let left = match kept_pair(kept, pair.left) {
        Some(below) => tree_measures(forest, kept, below, fuel - 1),
        None => Measures::leaf(),
    };
    let right = match kept_pair(kept, pair.right) {
        Some(below) => tree_measures(forest, kept, below, fuel - 1),
        None => Measures::leaf(),
    };
    left.joined(pair.series, right)
}

/// The cost of a plan: for each tree its leaves and 5. There is none where a tree isn't within the bounds.
pub fn plan_cost(forest: &PlainForest, kept: &[bool], bounds: PlainBounds) -> Option<usize> {
    let mut cost = 0usize;
    for place in 0..forest.pairs.len() {
        if !is_kept(kept, place) {
            let tree = tree_measures(forest, kept, place, forest.pairs.len());
            if !tree.fit(bounds) {
                return None;
            }
            cost = cost.saturating_add(tree.leaves).saturating_add(5);
        }
    }
    Some(cost)
}

/// The pairs of these that a free edge leads to.
fn free_places(
    alloc: Global,
    forest: &PlainForest,
    places: &[usize],
) -> Result<Vec<usize>, AllocError> {
    let mut free = Vec::new(alloc);
    for place in places {
        if forest.is_free(*place) {
            free.push(*place)?;
        }
    }
    Ok(free)
}

/// How many sets there are of few places.
fn set_count(places: &[usize]) -> Option<usize> {
    if places.len() > MOST_FREE {
        return None;
    }
    let mut count = 1usize;
    for _ in places {
        count = count.saturating_mul(2);
    }
    Some(count)
}

/// The plan that keeps the edges to those of these places whose bits are set in a number.
fn kept_by(
    alloc: Global,
    forest: &PlainForest,
    places: &[usize],
    number: usize,
) -> Result<Vec<bool>, AllocError> {
    let mut kept: Vec<bool> = vec![in alloc; false; forest.pairs.len()]?;
    let mut rest = number;
    for place in places {
        if let Some(slot) = kept.get_mut(*place) {
            *slot = rest % 2 == 1;
        }
        rest /= 2;
    }
    Ok(kept)
}

fn all_places(alloc: Global, forest: &PlainForest) -> Result<Vec<usize>, AllocError> {
    let mut places = Vec::new(alloc);
    for place in 0..forest.pairs.len() {
        places.push(place)?;
    }
    Ok(places)
}

/// The least cost and the number of plans, where all sets of free edges are tried.
#[derive(Clone, Copy, PartialEq, Eq)]
pub struct AllPlans {
    pub least: usize,
    pub plans: u64,
}

/// All plans of a forest with few free edges.
pub fn all_plans(
    alloc: Global,
    forest: &PlainForest,
    bounds: PlainBounds,
) -> Result<Option<AllPlans>, AllocError> {
    let free = free_places(alloc, forest, &all_places(alloc, forest)?)?;
    let Some(count) = set_count(&free) else {
        return Ok(None);
    };
    let mut least = None;
    let mut plans = 0u64;
    for number in 0..count {
        let kept = kept_by(alloc, forest, &free, number)?;
        if let Some(cost) = plan_cost(forest, &kept, bounds) {
            plans = plans.saturating_add(1);
            least = Some(match least {
                Some(before) => cost.min(before),
                None => cost,
            });
        }
    }
    match least {
        Some(least) => Ok(Some(AllPlans { least, plans })),
        None => Ok(None),
    }
}

/// A height and a width of a pair's tree, with the least sum of its leaves and of the costs of all other
/// trees below.
#[derive(Clone, Copy, PartialEq, Eq)]
pub struct Entry {
    pub height: usize,
    pub width: usize,
    pub sum: usize,
}

/// Adds an entry, in order of heights and then of widths; of two with one shape the lower sum stays.
pub fn add_entry(entries: &mut Vec<Entry>, entry: Entry) -> Result<(), AllocError> {
    for old in entries.iter_mut() {
        if old.height == entry.height && old.width == entry.width {
            old.sum = old.sum.min(entry.sum);
            return Ok(());
        }
    }
    entries.push(entry)?;
    entries.sort_unstable_by_key(|entry| (entry.height, entry.width));
    Ok(())
}

/// The pairs that free edges lead to from these, and that are none of these.
fn more_below(
    alloc: Global,
    forest: &PlainForest,
    places: &[usize],
) -> Result<Vec<usize>, AllocError> {
    let mut more = Vec::new(alloc);
    for pair in places.iter().filter_map(|place| forest.pairs.get(*place)) {
        for arm in [pair.left, pair.right] {
            if let Some(below) = forest.free_pair(arm) {
                if !places.contains(&below) && !more.contains(&below) {
                    more.push(below)?;
                }
            }
        }
    }
    Ok(more)
}

/// A pair and all that free edges reach from it.
fn part_below(alloc: Global, forest: &PlainForest, top: usize) -> Result<Vec<usize>, AllocError> {
    let mut places = Vec::new(alloc);
    places.push(top)?;
    for _ in 0..forest.pairs.len() {
        let more = more_below(alloc, forest, &places)?;
        if more.is_empty() {
            return Ok(places);
        }
        places.extend_from_slice(&more)?;
    }
    Ok(places)
}

/// What a plan of the part below a pair comes to, where its trees are within the bounds.
fn part_entry(
    forest: &PlainForest,
    places: &[usize],
    top: usize,
    kept: &[bool],
    bounds: PlainBounds,
) -> Option<Entry> {
    let fuel = forest.pairs.len();
    let tree = tree_measures(forest, kept, top, fuel);
    if !tree.fit(bounds) {
        return None;
    }
    let mut sum = tree.leaves;
    for place in places {
        if *place != top && !is_kept(kept, *place) {
            let other = tree_measures(forest, kept, *place, fuel);
            if !other.fit(bounds) {
                return None;
            }
            sum = sum.saturating_add(other.leaves).saturating_add(5);
        }
    }
    Some(Entry {
        height: tree.height,
        width: tree.width,
        sum,
    })
}

/// The least sums of a pair by shape, over so many sets of these free edges.
fn sums_of_sets(
    alloc: Global,
    forest: &PlainForest,
    places: &[usize],
    free: &[usize],
    count: usize,
    bounds: PlainBounds,
) -> Result<Vec<Entry>, AllocError> {
    let top = places.first().copied().unwrap_or(0);
    let mut entries = Vec::new(alloc);
    for number in 0..count {
        let kept = kept_by(alloc, forest, free, number)?;
        if let Some(entry) = part_entry(forest, places, top, &kept, bounds) {
            add_entry(&mut entries, entry)?;
        }
    }
    Ok(entries)
}

/// The least sums of a pair by shape, where all plans of the part below it are tried.
pub fn sums_by_plans(
    alloc: Global,
    forest: &PlainForest,
    top: usize,
    bounds: PlainBounds,
) -> Result<Option<Vec<Entry>>, AllocError> {
    let places = part_below(alloc, forest, top)?;
    let mut free = free_places(alloc, forest, &places)?;
    free.retain(|place| *place != top);
    match set_count(&free) {
        Some(count) => {
            let entries = sums_of_sets(alloc, forest, &places, &free, count, bounds)?;
            Ok(Some(entries))
        }
        None => Ok(None),
    }
}

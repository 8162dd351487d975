//! The cover by tables: least sums joined up from what each pair reads, and the chosen plan.
use crate::forest::{PlainArm, PlainForest, PlainPair};
use crate::plans::{Entry, Measures, PlainBounds, add_entry};
use std::alloc::{AllocError, Global};

/// What a pair does with one of its arms: nothing where no free edge stands there, else it keeps the pair
/// below in a shape, or cuts it.
#[derive(Clone, Copy)]
enum Choice {
    Nothing,
    Keep(usize, usize),
    Cut,
}

/// A choice with the height, the width and the sum that it gives.
#[derive(Clone, Copy)]
struct Offer {
    choice: Choice,
    height: usize,
    width: usize,
    sum: usize,
}

/// The least sum of a table.
fn least_sum(entries: &[Entry]) -> Option<usize> {
    entries.iter().map(|entry| entry.sum).min()
}

/// All choices of an arm in order: kept shapes by rising height and then width, the cut last.
fn offers(
    alloc: Global,
    forest: &PlainForest,
    tables: &[Vec<Entry>],
    arm: PlainArm,
) -> Result<Vec<Offer>, AllocError> {
    let mut all = Vec::new(alloc);
    let Some(place) = forest.free_pair(arm) else {
        all.push(Offer {
            choice: Choice::Nothing,
            height: 1,
            width: 1,
            sum: 1,
        })?;
        return Ok(all);
    };
    let Some(entries) = tables.get(place) else {
        return Ok(all);
    };
    for entry in entries.iter() {
        all.push(Offer {
            choice: Choice::Keep(entry.height, entry.width),
            height: entry.height,
            width: entry.width,
            sum: entry.sum,
        })?;
    }
    if let Some(least) = least_sum(entries) {
        all.push(Offer {
            choice: Choice::Cut,
            height: 1,
            width: 1,
            sum: least.saturating_add(6),
        })?;
    }
    Ok(all)
}

/// What two offers in series or in parallel give.
fn joined(series: bool, left: Offer, right: Offer) -> Entry {
    let shape = |offer: Offer| Measures {
        height: offer.height,
        width: offer.width,
        leaves: 1,
    };
    let both = shape(left).joined(series, shape(right));
    Entry {
        height: both.height,
        width: both.width,
        sum: left.sum.saturating_add(right.sum),
    }
}

/// The table of a pair over these.
fn entries_of(
    alloc: Global,
    forest: &PlainForest,
    tables: &[Vec<Entry>],
    pair: PlainPair,
    bounds: PlainBounds,
) -> Result<Vec<Entry>, AllocError> {
    let lefts = offers(alloc, forest, tables, pair.left)?;
    let rights = offers(alloc, forest, tables, pair.right)?;
    let mut entries = Vec::new(alloc);
    for left in lefts.iter() {
        for right in rights.iter() {
            let entry = joined(pair.series, *left, *right);
            if entry.height <= bounds.height && entry.width <= bounds.width {
                add_entry(&mut entries, entry)?;
            }
        }
    }
    Ok(entries)
}

/// The tables of all pairs: the least sum for each shape within the bounds.
pub fn cover_tables(
    alloc: Global,
    forest: &PlainForest,
    bounds: PlainBounds,
) -> Result<Vec<Vec<Entry>>, AllocError> {
    let mut tables: Vec<Vec<Entry>> = Vec::new(alloc);
    for pair in forest.pairs.iter() {
        let entries = entries_of(alloc, forest, &tables, *pair, bounds)?;
        tables.push(entries)?;
    }
    Ok(tables)
}

/// The shape that a root takes: of those of least sum the lowest, and of these the narrowest.
fn root_entry(entries: &[Entry]) -> Option<Entry> {
    let least = least_sum(entries)?;
    entries.iter().copied().find(|entry| entry.sum == least)
}

/// The first two choices that together give a decided entry.
fn first_choices(
    series: bool,
    lefts: &[Offer],
    rights: &[Offer],
    decided: Entry,
) -> Option<(Choice, Choice)> {
    for left in lefts {
        for right in rights {
            if joined(series, *left, *right) == decided {
                return Some((left.choice, right.choice));
            }
        }
    }
    None
}

/// The entries that are decided so far, by pair.
#[derive(Drop)]
struct Decided {
    entries: Vec<Option<Entry>>,
}

impl Decided {
    fn at(&self, place: usize) -> Option<Entry> {
        match self.entries.get(place) {
            Some(entry) => *entry,
            None => None,
        }
    }

    /// Decides the pairs below the arms of a pair with this entry. It answers whether some choices give that.
    fn decide_arms(
        &mut self,
        alloc: Global,
        forest: &PlainForest,
        tables: &[Vec<Entry>],
        pair: PlainPair,
        entry: Entry,
    ) -> Result<bool, AllocError> {
        let lefts = offers(alloc, forest, tables, pair.left)?;
        let rights = offers(alloc, forest, tables, pair.right)?;
        match first_choices(pair.series, &lefts, &rights, entry) {
            Some((left, right)) => {
                self.decide(forest, tables, pair.left, left);
                self.decide(forest, tables, pair.right, right);
                Ok(true)
            }
            None => Ok(false),
        }
    }

    /// Decides the pair below an arm by the choice for it.
    fn decide(
        &mut self,
        forest: &PlainForest,
        tables: &[Vec<Entry>],
        arm: PlainArm,
        choice: Choice,
    ) {
        let (Some(place), Choice::Keep(height, width)) = (forest.free_pair(arm), choice) else {
            return;
        };
        let Some(entries) = tables.get(place) else {
            return;
        };
        let found = entries
            .iter()
            .copied()
            .find(|entry| entry.height == height && entry.width == width);
        if let Some(slot) = self.entries.get_mut(place) {
            *slot = found;
        }
    }
}

/// The chosen plan, by these tables, as the kept edges. It decides the pairs from the last to the first.
pub fn chosen_plan(
    alloc: Global,
    forest: &PlainForest,
    tables: &[Vec<Entry>],
) -> Result<Option<Vec<bool>>, AllocError> {
    let mut decided = Decided {
        entries: Vec::new(alloc),
    };
    let mut kept = Vec::new(alloc);
    decided.entries.resize(forest.pairs.len(), None)?;
    for (place, pair) in forest.pairs.iter().enumerate().rev() {
        let entries = tables
            .get(place)
            .map_or([].as_slice(), |entries| entries.as_slice());
        let below = decided.at(place);
        kept.push(below.is_some())?;
        let Some(entry) = below.or(root_entry(entries)) else {
            return Ok(None);
        };
        if !decided.decide_arms(alloc, forest, tables, *pair, entry)? {
            return Ok(None);
        }
    }
    kept.reverse();
    Ok(Some(kept))
}

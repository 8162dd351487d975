//! The cover with compound roots by tables: least sums joined up from what each pair reads, and the chosen plan.
use crate::synth::compound::offers::{
    COMPOUND, Choice, Offer, Root, SIMPLE, Shape, Table, add_shape, joined, offers,
};
use plain_synthesis::{PlainArm, PlainBounds, PlainForest};
use std::alloc::{AllocError, Global};

/// A plan: for each pair whether its edge is kept, and whether it is the root of a compound cell.
#[derive(Drop)]
pub struct Plan {
    pub kept: Vec<bool>,
    pub split: Vec<bool>,
}

/// The first offer of least sum.
fn first_least(offers: &[Offer]) -> Option<Offer> {
    let least = offers.iter().map(|offer| offer.shape.sum).min()?;
    offers
        .iter()
        .copied()
        .find(|offer| offer.shape.sum == least)
}

/// The shape that a simple root takes: of those of least sum the lowest, and of these the narrowest.
fn root_shape(shapes: &[Shape]) -> Option<Shape> {
    let least = shapes.iter().map(|shape| shape.sum).min()?;
    shapes.iter().copied().find(|shape| shape.sum == least)
}

/// What a pair with these shapes costs as a root: as a simple one where that is no more.
fn root_of(series: bool, shapes: &[Shape], lefts: &[Offer], rights: &[Offer]) -> Option<Root> {
    let simple = root_shape(shapes)?.sum.saturating_add(SIMPLE);
    let none = Root {
        cost: simple,
        is_compound: false,
    };
    if series {
        return Some(none);
    }
    let (Some(left), Some(right)) = (first_least(lefts), first_least(rights)) else {
        return Some(none);
    };
    let arms = left.shape.sum.saturating_add(right.shape.sum);
    let compound = arms.saturating_add(COMPOUND);
    if compound < simple {
        return Some(Root {
            cost: compound,
            is_compound: true,
        });
    }
    Some(none)
}

/// The tables of all pairs. There are none where a pair has no shape within the bounds.
pub fn cover_tables(
    alloc: Global,
    forest: &PlainForest,
    bounds: PlainBounds,
) -> Result<Option<Vec<Table>>, AllocError> {
    let mut tables: Vec<Table> = Vec::new(alloc);
    for pair in forest.pairs.iter() {
        let lefts = offers(alloc, forest, &tables, pair.left)?;
        let rights = offers(alloc, forest, &tables, pair.right)?;
        let mut shapes = Vec::new(alloc);
        for left in lefts.iter() {
            for right in rights.iter() {
                let shape = joined(pair.series, left.shape, right.shape);
                if shape.fits(bounds) {
                    add_shape(&mut shapes, shape)?;
                }
            }
        }
        let Some(root) = root_of(pair.series, &shapes, &lefts, &rights) else {
            return Ok(None);
        };
        tables.push(Table { shapes, root })?;
    }
    Ok(Some(tables))
}

/// The first two choices that together give a decided shape.
fn first_choices(
    series: bool,
    lefts: &[Offer],
    rights: &[Offer],
    decided: Shape,
) -> Option<(Choice, Choice)> {
    for left in lefts {
        for right in rights {
            if joined(series, left.shape, right.shape) == decided {
                return Some((left.choice, right.choice));
            }
        }
    }
    None
}

/// Decides the pair below an arm by the choice for it.
fn decide(decided: &mut [Option<Shape>], forest: &PlainForest, arm: PlainArm, choice: Choice) {
    let (Some(place), Choice::Keep(shape)) = (forest.free_pair(arm), choice) else {
        return;
    };
    if let Some(slot) = decided.get_mut(place) {
        *slot = Some(shape);
    }
}

/// The choices of a pair for its arms: of a kept pair or a simple root those that give its shape, of a compound root
/// for each arm the first of least sum by itself.
fn choices(
    table: &Table,
    series: bool,
    lefts: &[Offer],
    rights: &[Offer],
    below: Option<Shape>,
) -> Option<(Choice, Choice)> {
    if below.is_none() && table.root.is_compound {
        let left = first_least(lefts)?;
        let right = first_least(rights)?;
        return Some((left.choice, right.choice));
    }
    let shape = below.or(root_shape(&table.shapes))?;
    first_choices(series, lefts, rights, shape)
}

/// The chosen plan, by these tables. It decides the pairs from the last to the first.
pub fn chosen_plan(
    alloc: Global,
    forest: &PlainForest,
    tables: &[Table],
) -> Result<Option<Plan>, AllocError> {
    let mut decided: Vec<Option<Shape>> = Vec::new(alloc);
    for _ in 0..forest.pairs.len() {
        decided.push(None)?;
    }
    let (mut kept, mut split) = (Vec::new(alloc), Vec::new(alloc));
    for (place, pair) in forest.pairs.iter().enumerate().rev() {
        let Some(table) = tables.get(place) else {
            return Ok(None);
        };
        let below = match decided.get(place) {
            Some(shape) => *shape,
            None => None,
        };
        kept.push(below.is_some())?;
        split.push(below.is_none() && table.root.is_compound)?;
        let lefts = offers(alloc, forest, tables, pair.left)?;
        let rights = offers(alloc, forest, tables, pair.right)?;
        let Some((left, right)) = choices(table, pair.series, &lefts, &rights, below) else {
            return Ok(None);
        };
        decide(&mut decided, forest, pair.left, left);
        decide(&mut decided, forest, pair.right, right);
    }
    kept.reverse();
    split.reverse();
    Ok(Some(Plan { kept, split }))
}

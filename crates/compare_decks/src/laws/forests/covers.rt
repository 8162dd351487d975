//! The comparison of covers: the tables hold the least sums over all plans, and the chosen plan costs no
//! more than any plan.
use crate::laws::forests::drawn::{chain, drawn_gates, wide_and, wide_or};
use comparison::Trouble;
use plain_synthesis::{
    PlainBounds, PlainForest, PlainGates, all_plans, chosen_plan, chosen_signs, cover_tables,
    forest_of, plan_cost, sums_by_plans,
};
use plain_texts::Draws;
use std::alloc::Global;

/// What came of a comparison: the numbers of forests and of plans where all are alike, else the first case
/// that differs.
#[derive(Clone, Copy)]
pub enum CoverResult {
    Alike(u64, u64),
    Differ(u64),
}

/// Compares the covers of so many generated forests.
pub fn covers(alloc: Global, cases: u64) -> Result<CoverResult, Trouble> {
    let mut forests = 0u64;
    let mut plans = 0u64;
    for number in 0..cases {
        let mut draws = Draws::of_case(number);
        let gates = drawn_gates(alloc, &mut draws)?;
        let signs = chosen_signs(alloc, &gates)?;
        let forest = forest_of(alloc, &gates, &signs)?;
        let bounds = PlainBounds {
            width: draws.below(3).saturating_add(2),
            height: draws.below(4).saturating_add(2),
        };
        match compared(alloc, &forest, bounds)? {
            Comparison::Alike(more) => {
                forests = forests.saturating_add(1);
                plans = plans.saturating_add(more);
            }
            Comparison::TooLarge => (),
            Comparison::Differs => return Ok(CoverResult::Differ(number)),
        }
    }
    Ok(CoverResult::Alike(forests, plans))
}

/// What came of one forest: the number of its plans, or that it has too many to try.
#[derive(Clone, Copy, PartialEq, Eq)]
enum Comparison {
    Alike(u64),
    TooLarge,
    Differs,
}

fn compared(
    alloc: Global,
    forest: &PlainForest,
    bounds: PlainBounds,
) -> Result<Comparison, Trouble> {
    let tables = cover_tables(alloc, forest, bounds)?;
    let Some(all) = all_plans(alloc, forest, bounds)? else {
        return Ok(Comparison::TooLarge);
    };
    for (place, table) in tables.iter().enumerate() {
        let Some(sums) = sums_by_plans(alloc, forest, place, bounds)? else {
            return Ok(Comparison::TooLarge);
        };
        if sums.as_slice() != table.as_slice() {
            return Ok(Comparison::Differs);
        }
    }
    let Some(kept) = chosen_plan(alloc, forest, &tables)? else {
        return Ok(Comparison::Differs);
    };
    if plan_cost(forest, &kept, bounds) == Some(all.least) {
        Ok(Comparison::Alike(all.plans))
    } else {
        Ok(Comparison::Differs)
    }
}

/// The cost of the chosen plan of gates whose one sink has the sign plus, and the least cost over all plans.
fn costs(
    alloc: Global,
    gates: &PlainGates,
    bounds: PlainBounds,
) -> Result<(usize, usize), Trouble> {
    let forest = forest_of(alloc, gates, &[true])?;
    let tables = cover_tables(alloc, &forest, bounds)?;
    let Some(kept) = chosen_plan(alloc, &forest, &tables)? else {
        return Err(Trouble::Refused);
    };
    let (Some(cost), Some(all)) = (
        plan_cost(&forest, &kept, bounds),
        all_plans(alloc, &forest, bounds)?,
    ) else {
        return Err(Trouble::Refused);
    };
    Ok((cost, all.least))
}

/// A worked cover: the cost of the chosen plan, the least cost of all plans, and the one that is wanted.
#[derive(Clone, Copy)]
pub struct CoverCosts {
    pub cost: usize,
    pub least: usize,
    pub wanted: usize,
}

/// The worked covers: the And of five inputs at height 4 and at height 2, the Or of nine inputs, and the
/// chain.
pub fn worked(alloc: Global) -> Result<[CoverCosts; 4], Trouble> {
    Ok([
        worked_cover(alloc, &wide_and(alloc)?, 4, 16)?,
        worked_cover(alloc, &wide_and(alloc)?, 2, 28)?,
        worked_cover(alloc, &wide_or(alloc)?, 4, 20)?,
        worked_cover(alloc, &chain(alloc)?, 4, 17)?,
    ])
}

fn worked_cover(
    alloc: Global,
    gates: &PlainGates,
    height: usize,
    wanted: usize,
) -> Result<CoverCosts, Trouble> {
    let (cost, least) = costs(alloc, gates, PlainBounds { width: 8, height })?;
    Ok(CoverCosts {
        cost,
        least,
        wanted,
    })
}

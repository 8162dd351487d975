//! The comparison of signs, covers, levels and clocks.
use crate::logic::alike::are_alike;
use crate::logic::clocked::Clocked;
use crate::logic::cover_cases::{Forests, drawn_case};
use comparison::Trouble;
use plain_synthesis::{PlainBounds, cells_of, chosen_plan, cover_tables};
use std::alloc::Global;
use tree_map::Bounds;

/// The most clocks.
const MOST_CLOCKS: u8 = 4;

/// What came of a comparison: the number of networks, of plans and of cells where all are alike, else the first case
/// that differs.
#[derive(Clone, Copy)]
pub enum Outcome {
    Alike(Counts),
    Differs(u64),
}

/// How many networks, plans and cells were compared.
#[derive(Clone, Copy)]
pub struct Counts {
    pub networks: u64,
    pub plans: u64,
    pub cells: u64,
}

fn plain_bounds(bounds: Bounds) -> PlainBounds {
    PlainBounds {
        width: bounds.w as usize,
        height: bounds.h as usize,
    }
}

/// Compares so many generated networks.
pub fn compare_covers(alloc: Global, networks: u64) -> Result<Outcome, Trouble> {
    let mut counts = Counts {
        networks: 0,
        plans: 0,
        cells: 0,
    };
    for number in 0..networks {
        let case = drawn_case(alloc, number)?;
        let Some(forests) = case.forests(alloc)? else {
            return Ok(Outcome::Differs(number));
        };
        for bounds in [
            Bounds { w: 2, h: 2 },
            Bounds { w: 4, h: 4 },
            Bounds { w: 8, h: 6 },
            Bounds { w: 3, h: 5 },
        ] {
            let Some(cells) = forests.compared(alloc, bounds)? else {
                return Ok(Outcome::Differs(number));
            };
            counts.plans = counts.plans.saturating_add(1);
            counts.cells = counts.cells.saturating_add(cells);
        }
        counts.networks = counts.networks.saturating_add(1);
    }
    Ok(Outcome::Alike(counts))
}

impl Forests {
    /// The number of cells within these bounds, where the trees, the levels and the clocks of each number of clocks
    /// are alike.
    fn compared(&self, alloc: Global, bounds: Bounds) -> Result<Option<u64>, Trouble> {
        let tables = cover_tables(alloc, &self.plain, plain_bounds(bounds))?;
        let Some(kept) = chosen_plan(alloc, &self.plain, &tables)? else {
            return Err(Trouble::Refused);
        };
        let mut count = 0u64;
        for clocks in 1..MOST_CLOCKS + 1 {
            let cells = cells_of(alloc, &self.plain, &kept, clocks as usize)?;
            let clocked = Clocked::of(alloc, &self.forest, bounds, clocks)?;
            if !are_alike(
                alloc,
                &clocked.plans,
                &clocked.levels,
                self.forest.leaves,
                &cells,
            )? {
                return Ok(None);
            }
            count = cells.len() as u64;
        }
        Ok(Some(count))
    }
}

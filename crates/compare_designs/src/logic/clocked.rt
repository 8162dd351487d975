//! Covers with their levels and clocks.
ghost use Rattle.std.specs.Prelude.{◌≤◌};

use clock_phase::assign_clocks;
use comparison::{Trouble, read_earlier};
use dual_rail::Forest;
use sp_network::GatePlan;
use std::alloc::Global;
use tree_map::{Bounds, map};

/// The most leaves and the most cells of a case.
const MOST: u32 = 100_000;

/// The plans of the cells of a cover, with their levels.
#[derive(Drop)]
pub struct Clocked {
    pub plans: Vec<GatePlan>,
    pub levels: Vec<u32>,
}

/// The plans of the cells of the chosen cover within these bounds.
fn mapped(alloc: Global, forest: &Forest, bounds: Bounds) -> Result<Vec<GatePlan>, Trouble> {
    if 2 <= bounds.w && bounds.w <= 8 && 2 <= bounds.h && bounds.h <= 6 {
        Ok(map(alloc, forest, bounds)?)
    } else {
        Err(Trouble::Refused)
    }
}

impl Clocked {
    /// The chosen cover of a forest within these bounds, on so many clocks.
    pub fn of(
        alloc: Global,
        forest: &Forest,
        bounds: Bounds,
        clocks: u8,
    ) -> Result<Clocked, Trouble>
        requires some_clock { 1 ≤ clocks }
        requires few_clocks { clocks ≤ 4 }
    {
        let mut plans = mapped(alloc, forest, bounds)?;
        let mut levels = vec![in alloc; 0u32; plans.len()]?;
        if forest.leaves >= MOST || plans.len() >= MOST as usize {
            return Err(Trouble::Refused);
        }
        if !read_earlier(plans.as_slice(), forest.leaves) {
            return Err(Trouble::Refused);
        }
        assign_clocks(
            plans.as_mut_slice(),
            levels.as_mut_slice(),
            forest.leaves,
            clocks,
        );
        Ok(Clocked { plans, levels })
    }
}

//! The cells of a network's forest, with their clocks.
ghost use Rattle.std.specs.Prelude.{◌≤◌, IfOk};
ghost use Rattle.compound_flow.specs.ClockedCells.{IsClockedCells};

use crate::wholes::{WholePlans, cell_plans, whole_plans};
use compound_plan::CellPlan;
use dom_base::OutOfMemory;
use dual_rail::Forest;
use std::alloc::Global;
use synth_flow::{named_complements, with_clocks};
use tree_map::{Bounds, CompoundCover, compound_cover};

/// The cells of a cover with compound roots: for each pair the number of the cell that it would be the root of, the plan
/// of each cell with its clock, and the leaves whose complements are named.
#[derive(Drop)]
pub struct ClockedCells {
    pub cells: Vec<u32>,
    pub plans: Vec<CellPlan>,
    pub complements: Vec<u32>,
}

/// The cells of the chosen cover of a forest with compound roots, each of whose trees is within the bounds, with the
/// clocks of the levels of their whole trees, of so many clocks. The one error is out of memory.
pub fn clocked_cells(
    alloc: Global,
    forest: &Forest,
    bounds: Bounds,
    phases: u8,
) -> Result<ClockedCells, OutOfMemory>
    requires some_width { 2 ≤ bounds.w }
    requires few_wide { bounds.w ≤ 8 }
    requires some_height { 2 ≤ bounds.h }
    requires few_high { bounds.h ≤ 6 }
    requires some_phase { 1 ≤ phases }
    requires few_phases { phases ≤ 4 }
    ensures { IfOk result (λ c. IsClockedCells forest.now bounds.w bounds.h phases c.cells.items c.plans.items c.complements.items) }
{
    let CompoundCover { kept, cells, plans } = compound_cover(alloc, forest, bounds)?;
    drop(kept);
    let WholePlans {
        plans: wholes,
        compound,
    } = whole_plans(alloc, plans)?;
    let clocked = with_clocks(alloc, wholes, forest.leaves, phases)?;
    let complements = named_complements(
        alloc,
        clocked.as_slice(),
        forest.ends.as_slice(),
        forest.leaves,
    )?;
    let plans = cell_plans(alloc, clocked, compound.as_slice())?;
    Ok(ClockedCells {
        cells,
        plans,
        complements,
    })
}

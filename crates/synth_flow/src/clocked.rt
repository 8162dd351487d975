//! Plans with their clocks.
ghost use Rattle.std.specs.Prelude.{◌≤◌, ◌<◌, ◌+◌, ◌*◌, ◌^◌, IfOk, length};
ghost use Rattle.clock_phase.specs.Plans.{ReadEarlierCells, trees_of};
ghost use Rattle.synth_flow.specs.ClockedPlans.{AreClocked, IsClockedCover};

use clock_phase::assign_clocks;
use dom_base::OutOfMemory;
use dual_rail::Forest;
use sp_network::GatePlan;
use std::alloc::Global;
use tree_map::{Bounds, Cover, cover};

/// The plans with the clocks of their levels, of so many clocks.
#[tactic(auto, using(crate::proofs::SynthFacts::synth_facts))]
pub fn with_clocks(
    alloc: Global,
    plans: Vec<GatePlan>,
    leaves: u32,
    phases: u8,
) -> Result<Vec<GatePlan>, OutOfMemory>
    requires some_phase { 1 ≤ phases }
    requires few_phases { phases ≤ 4 }
    requires room { 2 * leaves + length plans.items < 2 ^ 32 }
    requires earlier { ReadEarlierCells leaves (trees_of plans.items) }
    ensures { IfOk result (λ p. AreClocked leaves phases plans.items p.items) }
{
    let mut plans = plans;
    let mut levels = vec![in alloc; 0u32; plans.len()]?;
    assign_clocks(plans.as_mut_slice(), levels.as_mut_slice(), leaves, phases);
    Ok(plans)
}

/// The chosen cover of a forest by trees within the bounds, with the clocks of their levels, of so many
/// clocks. The one error is out of memory.
pub fn clocked_cover(
    alloc: Global,
    forest: &Forest,
    bounds: Bounds,
    phases: u8,
) -> Result<Cover, OutOfMemory>
    requires some_width { 2 ≤ bounds.w }
    requires few_wide { bounds.w ≤ 8 }
    requires some_height { 2 ≤ bounds.h }
    requires few_high { bounds.h ≤ 6 }
    requires some_phase { 1 ≤ phases }
    requires few_phases { phases ≤ 4 }
    ensures { IfOk result (λ c. IsClockedCover forest.now bounds.w bounds.h phases c.kept.items c.cells.items c.plans.items) }
{
    let Cover { kept, cells, plans } = cover(alloc, forest, bounds)?;
    let plans = with_clocks(alloc, plans, forest.leaves, phases)?;
    Ok(Cover { kept, cells, plans })
}

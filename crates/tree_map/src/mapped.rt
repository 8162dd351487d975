//! The chosen cover of a forest.
ghost use Rattle.std.specs.Prelude.{◌≡◌, ◌≤◌, ℕ, Bool, IfOk, List};
ghost use Rattle.sp_network.specs.Tree.{Tree};
ghost use Rattle.compound_plan.specs.Plans.{CellTrees, IsChosenPlan as IsChosenPlanAt, compound_costs};
ghost use Rattle.tree_map.specs.CompoundCover.{HaveFirstClocks, cell_trees};
ghost use Rattle.tree_map.specs.CoverRows.{AreFewCosts};
ghost use Rattle.tree_map.specs.LeastPlans.{IsChosenPlan};
ghost use Rattle.tree_map.specs.MappedCover.{HaveFirstClock, plan_trees, root_cell_numbers};

use crate::bounds::Bounds;
use crate::compound_cells::{CompoundCover, compound_cells_of};
use crate::cost::{COMPOUND, Costs, ORDINARY};
use crate::decisions::Decisions;
use crate::free::free_edges;
use crate::tables::sums_of;
use crate::ties::decisions;
use crate::trees::{Cover, cells_of};
use compound_plan::CellPlan;
use dom_base::OutOfMemory;
use dual_rail::Forest;
use sp_network::GatePlan;
use std::alloc::Global;

/// The cover that the ties choose among those of least cost, by trees within the bounds (Zhao,
/// Sapatnekar 1998). The cost of a tree is its leaves and 5. Each clock is 1. The one error is out of
/// memory.
pub fn cover(alloc: Global, forest: &Forest, bounds: Bounds) -> Result<Cover, OutOfMemory>
    requires some_width { 2 ≤ bounds.w }
    requires few_wide { bounds.w ≤ 8 }
    requires some_height { 2 ≤ bounds.h }
    requires few_high { bounds.h ≤ 6 }
    ensures chosen { IfOk result (λ c. IsChosenPlan forest.now bounds.w bounds.h c.kept.items (plan_trees c.plans.items)) }
    ensures cells { IfOk result (λ c. c.cells.items ≡ root_cell_numbers c.kept.items) }
    ensures clocks { IfOk result (λ c. HaveFirstClock c.plans.items) }
{
    let kept = kept_edges(alloc, forest, bounds)?;
    let (cells, plans) = cells_of(alloc, forest, &kept)?;
    Ok(Cover { kept, cells, plans })
}

/// For each pair of a forest whether the chosen cover keeps its edge: what `cover` says of it, without the trees. A
/// pair that isn't kept is the root of a cell. The one error is out of memory.
pub fn kept_edges(alloc: Global, forest: &Forest, bounds: Bounds) -> Result<Vec<bool>, OutOfMemory>
    requires some_width { 2 ≤ bounds.w }
    requires few_wide { bounds.w ≤ 8 }
    requires some_height { 2 ≤ bounds.h }
    requires few_high { bounds.h ≤ 6 }
    ensures chosen { IfOk result (λ kept. (trees : List (Tree ℕ)) × IsChosenPlan forest.now bounds.w bounds.h kept.items trees) }
{
    let decided = chosen(alloc, forest, bounds, ORDINARY)?;
    Ok(decided.kept)
}

/// The plans of the cells of the chosen cover, in the order of their roots. Each clock is 1. The one
/// error is out of memory.
pub fn map(alloc: Global, forest: &Forest, bounds: Bounds) -> Result<Vec<GatePlan>, OutOfMemory>
    requires some_width { 2 ≤ bounds.w }
    requires few_wide { bounds.w ≤ 8 }
    requires some_height { 2 ≤ bounds.h }
    requires few_high { bounds.h ≤ 6 }
    ensures chosen { IfOk result (λ plans. (kept : List Bool) × IsChosenPlan forest.now bounds.w bounds.h kept (plan_trees plans.items)) }
    ensures clocks { IfOk result (λ plans. HaveFirstClock plans.items) }
{
    Ok(cover(alloc, forest, bounds)?.plans)
}

/// The cover that the ties choose among those of least cost with compound roots, where an Or may be the root of a
/// compound cell of two trees. Each tree is within the bounds. A simple cell costs the leaves and the series nodes of its
/// tree and 4, a compound cell those of both trees and 8. Each clock is 1. The one error is out of memory.
pub fn compound_cover(
    alloc: Global,
    forest: &Forest,
    bounds: Bounds,
) -> Result<CompoundCover, OutOfMemory>
    requires some_width { 2 ≤ bounds.w }
    requires few_wide { bounds.w ≤ 8 }
    requires some_height { 2 ≤ bounds.h }
    requires few_high { bounds.h ≤ 6 }
    ensures chosen { IfOk result (λ c. (split : List Bool)
        × IsChosenPlanAt compound_costs forest.now bounds.w bounds.h c.kept.items split (cell_trees c.plans.items)) }
    ensures cells { IfOk result (λ c. c.cells.items ≡ root_cell_numbers c.kept.items) }
    ensures clocks { IfOk result (λ c. HaveFirstClocks c.plans.items) }
{
    let decided = chosen(alloc, forest, bounds, COMPOUND)?;
    let (cells, plans) = compound_cells_of(alloc, forest, &decided.kept, &decided.split)?;
    Ok(CompoundCover {
        kept: decided.kept,
        cells,
        plans,
    })
}

/// The plans of the cells of the chosen cover with compound roots, in the order of their roots. Each clock is 1. The one
/// error is out of memory.
pub fn map_compound(
    alloc: Global,
    forest: &Forest,
    bounds: Bounds,
) -> Result<Vec<CellPlan>, OutOfMemory>
    requires some_width { 2 ≤ bounds.w }
    requires few_wide { bounds.w ≤ 8 }
    requires some_height { 2 ≤ bounds.h }
    requires few_high { bounds.h ≤ 6 }
    ensures chosen { IfOk result (λ plans. (kept : List Bool) × (split : List Bool)
        × IsChosenPlanAt compound_costs forest.now bounds.w bounds.h kept split (cell_trees plans.items)) }
    ensures clocks { IfOk result (λ plans. HaveFirstClocks plans.items) }
{
    Ok(compound_cover(alloc, forest, bounds)?.plans)
}

/// What the chosen cover at these costs does with each pair. The one error is out of memory.
fn chosen(
    alloc: Global,
    forest: &Forest,
    bounds: Bounds,
    costs: Costs,
) -> Result<Decisions, OutOfMemory>
    requires width { (2 ≤ bounds.w) × (bounds.w ≤ 8) }
    requires height { (2 ≤ bounds.h) × (bounds.h ≤ 6) }
    requires costs { AreFewCosts costs }
    ensures { IfOk result (λ d. (cells : List CellTrees)
        × IsChosenPlanAt costs forest.now bounds.w bounds.h d.kept.items d.split.items cells) }
{
    let free = free_edges(alloc, forest)?;
    let sums = sums_of(alloc, forest, &free, bounds, costs)?;
    let decisions = decisions(alloc, forest, &free, &sums)?;
    Ok(decisions)
}

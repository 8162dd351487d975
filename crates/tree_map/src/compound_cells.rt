//! The cells of a cover with compound roots.
ghost use Rattle.std.specs.Prelude.{◌≡◌, ◌<◌, IfOk, length};
ghost use Rattle.std.specs.List.{AllZip};
ghost use Rattle.compound_plan.specs.CellPlans.{clock_of, trees_of};
ghost use Rattle.compound_plan.specs.Plans.{IsCellOf};
ghost use Rattle.dual_rail.specs.ForestOrder.{IsForest};
ghost use Rattle.tree_map.specs.CompoundCover.{AreOrs, HaveFirstClocks, cell_trees};
ghost use Rattle.tree_map.specs.MappedCover.{root_cell_numbers};
ghost use Rattle.tree_map.specs.Plans.{roots};

use crate::trees::{arm_tree, cell_numbers, pair_tree};
use compound_plan::CellPlan;
use dom_base::OutOfMemory;
use dual_rail::Forest;
use sp_network::GatePlan;
use std::alloc::Global;

/// A cover of a forest with compound roots: for each pair whether its edge is kept and the number of the cell that it would
/// be the root of, and the plan of the cell of each root, in order.
#[derive(Drop)]
pub struct CompoundCover {
    pub kept: Vec<bool>,
    pub cells: Vec<u32>,
    pub plans: Vec<CellPlan>,
}

/// The cells of a cover with compound roots: for each pair the number of the cell that it would be the root of, and the
/// plans of the cells, each with the trees of its root and the clock 1. The one error is out of memory.
pub(crate) fn compound_cells_of(
    alloc: Global,
    forest: &Forest,
    kept: &[bool],
    split: &[bool],
) -> Result<(Vec<u32>, Vec<CellPlan>), OutOfMemory>
    requires one_each { length kept.now ≡ length forest.now.pairs }
    requires mark_each { length split.now ≡ length forest.now.pairs }
    requires ors { AreOrs forest.now split.now }
    ensures cells { IfOk result (λ c. c.0.items ≡ root_cell_numbers kept.now) }
    ensures trees { IfOk result (λ c. AllZip (IsCellOf forest.now kept.now split.now) (roots kept.now) (cell_trees c.1.items)) }
    ensures clocks { IfOk result (λ c. HaveFirstClocks c.1.items) }
{
    let pairs = forest.pairs.len();
    let cells = cell_numbers(alloc, kept)?;
    let mut plans = Vec::new(alloc);
    for place in 0..pairs {
        if !kept[place] {
            let plan = cell_plan(alloc, forest, kept, split, &cells, place)?;
            plans.push(plan)?;
        }
    }
    Ok((cells, plans))
}

/// The plan of the cell whose root is this pair.
fn cell_plan(
    alloc: Global,
    forest: &Forest,
    kept: &[bool],
    split: &[bool],
    cells: &[u32],
    place: usize,
) -> Result<CellPlan, OutOfMemory>
    requires forest { IsForest forest.now }
    requires one_each { length kept.now ≡ length forest.now.pairs }
    requires mark_each { length split.now ≡ length forest.now.pairs }
    requires ors { AreOrs forest.now split.now }
    requires cells { cells.now ≡ root_cell_numbers kept.now }
    requires there { place < length forest.now.pairs }
    ensures trees { IfOk result (λ plan. IsCellOf forest.now kept.now split.now place (trees_of plan)) }
    ensures clock { IfOk result (λ plan. clock_of plan ≡ 1) }
{
    if !split[place] {
        let tree = pair_tree(alloc, forest, kept, cells, place)?;
        return Ok(CellPlan::Simple(GatePlan { tree, clock: 1 }));
    }
    let (left, right) = forest.pairs[place].arms();
    let left = arm_tree(alloc, forest, kept, cells, left)?;
    let right = arm_tree(alloc, forest, kept, cells, right)?;
    Ok(CellPlan::Compound {
        left,
        right,
        clock: 1,
    })
}

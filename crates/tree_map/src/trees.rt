//! The trees of a cover.
ghost use Rattle.std.specs.Prelude.{◌≡◌, ◌+◌, ◌*◌, ◌<◌, ◌^◌, IfOk, length};
ghost use Rattle.std.specs.List.{AllZip};
ghost use Rattle.dual_rail.specs.ForestOrder.{IsForest};
ghost use Rattle.sp_network.specs.Tree.{Leaf};
ghost use Rattle.sp_network.specs.TypedTree.{tree_of};
ghost use Rattle.tree_map.specs.MappedCover.{HaveFirstClock, IsArmInForest, root_cell_numbers, plan_trees};
ghost use Rattle.tree_map.specs.Plans.{IsArmTree, IsTreeOf, rail_gate, roots};

use dom_base::{OutOfMemory, ToVss};
use dual_rail::{Arm, Forest, Pair, Rail};
use sp_network::{GatePlan, Sp};
use std::alloc::Global;

/// A cover of a forest: for each pair whether its edge is kept and the number of the cell that it would be
/// the root of, and the plan of the cell of each root, in order.
#[derive(Drop)]
pub struct Cover {
    pub kept: Vec<bool>,
    pub cells: Vec<u32>,
    pub plans: Vec<GatePlan>,
}

/// The cells of a cover: for each pair the number of the cell that it would be the root of, and the plans of
/// the cells, each with the tree of its root and the clock 1. The one error is out of memory.
pub(crate) fn cells_of(
    alloc: Global,
    forest: &Forest,
    kept: &[bool],
) -> Result<(Vec<u32>, Vec<GatePlan>), OutOfMemory>
    requires one_each { length kept.now ≡ length forest.now.pairs }
    ensures cells { IfOk result (λ c. c.0.items ≡ root_cell_numbers kept.now) }
    ensures trees { IfOk result (λ c. AllZip (IsTreeOf forest.now kept.now) (roots kept.now) (plan_trees c.1.items)) }
    ensures clocks { IfOk result (λ c. HaveFirstClock c.1.items) }
{
    let pairs = forest.pairs.len();
    let cells = cell_numbers(alloc, kept)?;
    let mut plans = Vec::new(alloc);
    for place in 0..pairs {
        if !kept[place] {
            let tree = pair_tree(alloc, forest, kept, &cells, place)?;
            plans.push(GatePlan { tree, clock: 1 })?;
        }
    }
    Ok((cells, plans))
}

/// For each pair the number of the cell that it would be the root of: how many pairs before it aren't kept. The one
/// error is out of memory.
pub fn cell_numbers(alloc: Global, kept: &[bool]) -> Result<Vec<u32>, OutOfMemory>
    requires few { length kept.now < 2 ^ 32 }
    ensures { IfOk result (λ cells. cells.items ≡ root_cell_numbers kept.now) }
{
    let mut cells = Vec::with_capacity(alloc, kept.len())?;
    let mut next = 0;
    for keep in kept {
        cells.push(next)?;
        if !*keep {
            next += 1;
        }
    }
    Ok(cells)
}

/// The tree whose root is this pair.
#[cycle(tree)]
pub(crate) fn pair_tree(
    alloc: Global,
    forest: &Forest,
    kept: &[bool],
    cells: &[u32],
    place: usize,
) -> Result<Sp<ToVss>, OutOfMemory>
    requires forest { IsForest forest.now }
    requires one_each { length kept.now ≡ length forest.now.pairs }
    requires cells { cells.now ≡ root_cell_numbers kept.now }
    requires there { place < length forest.now.pairs }
    ensures { IfOk result (λ tree. IsTreeOf forest.now kept.now place (tree_of tree)) }
{
    match forest.pairs[place] {
        Pair::And(left, right) => {
            let left = arm_tree(alloc, forest, kept, cells, left)?;
            let right = arm_tree(alloc, forest, kept, cells, right)?;
            Ok(Sp::Series(Box::new(alloc, left)?, Box::new(alloc, right)?))
        }
        Pair::Or(left, right) => {
            let left = arm_tree(alloc, forest, kept, cells, left)?;
            let right = arm_tree(alloc, forest, kept, cells, right)?;
            Ok(Sp::Parallel(Box::new(alloc, left)?, Box::new(alloc, right)?))
        }
    }
}

/// The tree below an arm: a leaf, or the tree of a kept pair.
#[cycle(tree)]
pub(crate) fn arm_tree(
    alloc: Global,
    forest: &Forest,
    kept: &[bool],
    cells: &[u32],
    arm: Arm,
) -> Result<Sp<ToVss>, OutOfMemory>
    requires forest { IsForest forest.now }
    requires one_each { length kept.now ≡ length forest.now.pairs }
    requires cells { cells.now ≡ root_cell_numbers kept.now }
    requires there { IsArmInForest forest.now arm }
    ensures { IfOk result (λ tree. IsArmTree forest.now kept.now arm (tree_of tree)) }
{
    match arm {
        Arm::Literal(rail) => Ok(leaf(gate_of(rail))),
        Arm::Pair(place) => {
            let place = place as usize;
            if kept[place] {
                pair_tree(alloc, forest, kept, cells, place)
            } else {
                Ok(leaf(2 * forest.leaves + cells[place]))
            }
        }
    }
}

/// A leaf of a pull-down tree.
fn leaf(gate: u32) -> Sp<ToVss>
    ensures { tree_of result ≡ Leaf gate }
{
    Sp::Leaf { gate, rail: ToVss }
}

/// The number of the gate that a rail is: twice its leaf, and 1 more for the opposite.
pub fn gate_of(rail: Rail) -> u32
    requires { 2 * rail.leaf + 1 < 2 ^ 32 }
    ensures { result ≡ rail_gate rail }
{
    if rail.plus {
        2 * rail.leaf
    } else {
        2 * rail.leaf + 1
    }
}

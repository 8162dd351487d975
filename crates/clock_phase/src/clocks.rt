//! Levels and clocks of the cells of a plan.
ghost use Rattle.std.specs.Prelude.{◌≡◌, ◌≤◌, ◌<◌, ◌+◌, ◌*◌, ◌^◌, length, map, slice_index_or, All};
ghost use Rattle.clock_phase.specs.Levels.{AreLevels, cells_read, clock_of, greatest};
ghost use Rattle.clock_phase.specs.Plans.{ReadEarlierCells, clocks_of, trees_of};
ghost use Rattle.sp_network.specs.Tree.{EachLeaf};
ghost use Rattle.sp_network.specs.TypedTree.{tree_of};

use dom_base::ToVss;
use sp_network::{GatePlan, Sp};

/// Writes the level of each cell into `levels`, which is 1 and the greatest level of the cells that
/// it reads, and gives each cell its clock, which is `1 + (level - 1) * phases / greatest level`,
/// rounded down. Of so many `leaves`, leaf n gates as `2 * n` and `2 * n + 1`, and the output of cell
/// k as `2 * leaves + k`. The trees stay as they are. It takes no memory.
pub fn assign_clocks(plans: &mut [GatePlan], levels: &mut [u32], leaves: u32, phases: u8)
    requires some_phase { 1 ≤ phases }
    requires few_phases { phases ≤ 4 }
    requires one_each { length levels.old ≡ length plans.old }
    requires room { 2 * leaves + length plans.old < 2 ^ 32 }
    requires earlier { ReadEarlierCells leaves (trees_of plans.old) }
    ensures levels { AreLevels leaves (trees_of plans.old) levels.new }
    ensures trees { trees_of plans.new ≡ trees_of plans.old }
    ensures clocks { clocks_of plans.new ≡ map (clock_of phases (greatest levels.new)) levels.new }
{
    set_levels(plans, levels, leaves);
    set_clocks(plans, levels, phases);
}

/// Writes the level of each cell.
fn set_levels(plans: &[GatePlan], levels: &mut [u32], leaves: u32)
    requires one_each { length levels.old ≡ length plans.now }
    requires room { 2 * leaves + length plans.now < 2 ^ 32 }
    requires earlier { ReadEarlierCells leaves (trees_of plans.now) }
    ensures levels { AreLevels leaves (trees_of plans.now) levels.new }
{
    for k in 0..plans.len() {
        let level = 1 + greatest_level_read(&plans[k].tree, leaves, levels);
        levels[k] = level;
    }
}

/// The greatest level of the cells that a tree reads, or 0.
fn greatest_level_read(tree: &Sp<ToVss>, leaves: u32, levels: &[u32]) -> u32
    requires room { 2 * leaves + length levels.now < 2 ^ 32 }
    requires there { EachLeaf (λ gate. gate < 2 * leaves + length levels.now) (tree_of tree.now) }
    ensures { result ≡ greatest (map (λ cell. slice_index_or levels.now cell 0) (cells_read leaves (tree_of tree.now))) }
{
    match tree {
        Sp::Leaf { gate, .. } => {
            let rails = 2 * leaves;
            if *gate < rails {
                0
            } else {
                levels[(*gate - rails) as usize]
            }
        }
        Sp::Series(left, right) => greatest_level_read(left, leaves, levels).max(
            greatest_level_read(right, leaves, levels),
        ),
        Sp::Parallel(left, right) => greatest_level_read(left, leaves, levels).max(
            greatest_level_read(right, leaves, levels),
        ),
    }
}

/// Gives each cell the clock of its level.
fn set_clocks(plans: &mut [GatePlan], levels: &[u32], phases: u8)
    requires some_phase { 1 ≤ phases }
    requires few_phases { phases ≤ 4 }
    requires one_each { length levels.now ≡ length plans.old }
    requires from_one { All (λ level. 1 ≤ level) levels.now }
    ensures trees { trees_of plans.new ≡ trees_of plans.old }
    ensures clocks { clocks_of plans.new ≡ map (clock_of phases (greatest levels.now)) levels.now }
{
    let top = greatest_of(levels);
    for k in 0..plans.len() {
        let plan = &mut plans[k];
        plan.clock = clock_of_level(phases, top, levels[k]);
    }
}

/// The greatest of some numbers, or 0.
fn greatest_of(numbers: &[u32]) -> u32
    ensures { result ≡ greatest numbers.now }
{
    let mut top: u32 = 0;
    for number in numbers {
        top = top.max(*number);
    }
    top
}

/// The clock of a level, which is `1 + (level - 1) * phases / levels`, rounded down, where `levels` is the greatest level.
pub fn clock_of_level(phases: u8, levels: u32, level: u32) -> u8
    requires some_phase { 1 ≤ phases }
    requires few_phases { phases ≤ 4 }
    requires from_one { 1 ≤ level }
    requires within { level ≤ levels }
    ensures { result ≡ clock_of phases levels level }
{
    let place = u64::from(level - 1) * u64::from(phases) / u64::from(levels);
    1 + place as u8
}

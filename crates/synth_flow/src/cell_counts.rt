//! The cells of a cover, counted without their trees.
ghost use Rattle.std.specs.Prelude.{ℕ, ◌≡◌, ◌<◌, ◌+◌, ◌*◌, ◌^◌, ◌==◌, ◌||◌, List, length};
ghost use Rattle.std.specs.List.{list_any};
ghost use Rattle.clock_phase.specs.Levels.{AreLevels};
ghost use Rattle.dual_rail.specs.ForestOrder.{IsForest};
ghost use Rattle.sp_network.specs.Tree.{Tree, Leaf};
ghost use Rattle.tree_map.specs.MappedCover.{IsArmInForest, root_cell_numbers};
ghost use Rattle.tree_map.specs.Plans.{IsArmTree, IsTreeOf, roots};
ghost use Rattle.synth_flow.specs.CellCounts.{AreTreesOf, greatest_read, is_read_in};
ghost use Rattle.synth_flow.specs.NamedComplements.{MarksAlso, is_plus_end};
ghost use Rattle.deck_form.specs.NamedDecks.{reads};

use crate::complements::{mark_ends, mark_gate};
use dual_rail::{Arm, Forest};
use tree_map::gate_of;

/// The level of the cell whose output this gate is, or 0 where it is a rail of one of so many leaves.
fn gate_level(gate: u32, leaves: u32, levels: &[u32]) -> u32
    requires room { 2 * leaves < 2 ^ 32 }
    ensures { result ≡ greatest_read leaves levels.now (Leaf gate) }
{
    let rails = 2 * leaves;
    if gate < rails {
        0
    } else {
        levels.get((gate - rails) as usize).copied().unwrap_or(0)
    }
}

/// The level of the cell that a leaf with this gate reads, or 0, and marks the leaf of the forest whose opposite the gate is.
fn leaf_count(gate: u32, leaves: u32, levels: &[u32], marks: &mut [bool]) -> u32
    requires room { 2 * leaves < 2 ^ 32 }
    ensures level { result ≡ greatest_read leaves levels.now (Leaf gate) }
    ensures marks { MarksAlso marks.old marks.new (λ leaf. gate == 2 * leaf + 1) }
{
    mark_gate(marks, gate);
    gate_level(gate, leaves, levels)
}

/// The greatest level of the cells that the tree whose root is this pair reads, or 0, and marks the leaves whose opposites gate it.
#[cycle(count)]
fn pair_count(
    forest: &Forest,
    kept: &[bool],
    cells: &[u32],
    levels: &[u32],
    marks: &mut [bool],
    place: usize,
) -> u32
    requires forest { IsForest forest.now }
    requires one_each { length kept.now ≡ length forest.now.pairs }
    requires cells { cells.now ≡ root_cell_numbers kept.now }
    requires there { place < length forest.now.pairs }
    ensures level { (tree : Tree ℕ) → IsTreeOf forest.now kept.now place tree
        → result ≡ greatest_read forest.now.leaves levels.now tree }
    ensures marks { (tree : Tree ℕ) → IsTreeOf forest.now kept.now place tree
        → MarksAlso marks.old marks.new (λ leaf. reads (2 * leaf + 1) tree) }
{
    let (left, right) = forest.pairs[place].arms();
    let first = arm_count(forest, kept, cells, levels, marks, left);
    let second = arm_count(forest, kept, cells, levels, marks, right);
    first.max(second)
}

/// So for the tree below an arm: a leaf, or the tree of a kept pair.
#[cycle(count)]
fn arm_count(
    forest: &Forest,
    kept: &[bool],
    cells: &[u32],
    levels: &[u32],
    marks: &mut [bool],
    arm: Arm,
) -> u32
    requires forest { IsForest forest.now }
    requires one_each { length kept.now ≡ length forest.now.pairs }
    requires cells { cells.now ≡ root_cell_numbers kept.now }
    requires there { IsArmInForest forest.now arm }
    ensures level { (tree : Tree ℕ) → IsArmTree forest.now kept.now arm tree
        → result ≡ greatest_read forest.now.leaves levels.now tree }
    ensures marks { (tree : Tree ℕ) → IsArmTree forest.now kept.now arm tree
        → MarksAlso marks.old marks.new (λ leaf. reads (2 * leaf + 1) tree) }
{
    match arm {
        Arm::Literal(rail) => leaf_count(gate_of(rail), forest.leaves, levels, marks),
        Arm::Pair(place) => {
            let place = place as usize;
            if kept[place] {
                pair_count(forest, kept, cells, levels, marks, place)
            } else {
                leaf_count(
                    2 * forest.leaves + cells[place],
                    forest.leaves,
                    levels,
                    marks,
                )
            }
        }
    }
}

/// Writes the level of each cell of a cover, whose roots stand at these places, and marks the leaves whose opposites
/// gate a tree.
fn count_trees(
    forest: &Forest,
    kept: &[bool],
    cells: &[u32],
    places: &[usize],
    levels: &mut [u32],
    marks: &mut [bool],
)
    requires forest { IsForest forest.now }
    requires one_each { length kept.now ≡ length forest.now.pairs }
    requires cells { cells.now ≡ root_cell_numbers kept.now }
    requires places { places.now ≡ roots kept.now }
    requires levels { length levels.old ≡ length places.now }
    requires trees { (trees : List (Tree ℕ)) × AreTreesOf forest.now kept.now trees }
    ensures levels { (trees : List (Tree ℕ)) → AreTreesOf forest.now kept.now trees → AreLevels forest.now.leaves trees levels.new }
    ensures marks { (trees : List (Tree ℕ)) → AreTreesOf forest.now kept.now trees → MarksAlso marks.old marks.new (is_read_in trees) }
{
    'cells: for k in 0..places.len() {
        let level = pair_count(forest, kept, cells, levels, marks, places[k]);
        levels[k] = 1 + level;
    }
}

/// The same, and marks the leaves too that are the plus literal of an end: all whose complements are named.
pub fn count_cells(
    forest: &Forest,
    kept: &[bool],
    cells: &[u32],
    places: &[usize],
    levels: &mut [u32],
    marks: &mut [bool],
)
    requires forest { IsForest forest.now }
    requires one_each { length kept.now ≡ length forest.now.pairs }
    requires cells { cells.now ≡ root_cell_numbers kept.now }
    requires places { places.now ≡ roots kept.now }
    requires levels { length levels.old ≡ length places.now }
    requires trees { (trees : List (Tree ℕ)) × AreTreesOf forest.now kept.now trees }
    ensures levels { (trees : List (Tree ℕ)) → AreTreesOf forest.now kept.now trees → AreLevels forest.now.leaves trees levels.new }
    ensures marks { (trees : List (Tree ℕ)) → AreTreesOf forest.now kept.now trees
        → MarksAlso marks.old marks.new (λ leaf. is_read_in trees leaf || list_any (is_plus_end leaf) forest.now.ends) }
{
    count_trees(forest, kept, cells, places, levels, marks);
    mark_ends(marks, forest.ends.as_slice());
}

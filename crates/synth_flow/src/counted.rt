//! The chosen cover of a forest, counted without its trees.
ghost use Rattle.std.specs.Prelude.{◌≡◌, ◌≤◌, IfOk};
ghost use Rattle.tree_map.specs.Plans.{roots};
ghost use Rattle.synth_flow.specs.WholeTexts.{IsCountedCover};

use crate::cell_counts::count_cells;
use crate::complements::marked_leaves;
use dom_base::OutOfMemory;
use dual_rail::Forest;
use std::alloc::Global;
use tree_map::{Bounds, cell_numbers, kept_edges};

/// The chosen cover of a forest: for each pair whether its edge is kept and the number of the cell that it would be the root
/// of, in the order of the cells the places of their roots and their levels, and the leaves whose complements are named.
#[derive(Drop)]
pub struct CountedCover {
    pub kept: Vec<bool>,
    pub cells: Vec<u32>,
    pub places: Vec<usize>,
    pub levels: Vec<u32>,
    pub complements: Vec<u32>,
}

/// The chosen cover of a forest by trees within the bounds. The one error is out of memory.
pub fn counted_cover(
    alloc: Global,
    forest: &Forest,
    bounds: Bounds,
) -> Result<CountedCover, OutOfMemory>
    requires some_width { 2 ≤ bounds.w }
    requires few_wide { bounds.w ≤ 8 }
    requires some_height { 2 ≤ bounds.h }
    requires few_high { bounds.h ≤ 6 }
    ensures { IfOk result (λ c. IsCountedCover forest.now bounds.w bounds.h c.kept.items c.cells.items c.places.items c.levels.items
        c.complements.items) }
{
    let leaves = forest.leaves;
    let kept = kept_edges(alloc, forest, bounds)?;
    let cells = cell_numbers(alloc, kept.as_slice())?;
    let places = places_of_roots(alloc, kept.as_slice())?;
    let mut levels = vec![in alloc; 0u32; places.len()]?;
    let mut marks = vec![in alloc; false; leaves as usize]?;
    count_cells(
        forest,
        kept.as_slice(),
        cells.as_slice(),
        places.as_slice(),
        levels.as_mut_slice(),
        marks.as_mut_slice(),
    );
    let complements = marked_leaves(alloc, marks.as_slice(), leaves)?;
    Ok(CountedCover {
        kept,
        cells,
        places,
        levels,
        complements,
    })
}

/// The places of the roots of the cells, in order: of the pairs that aren't kept.
fn places_of_roots(alloc: Global, kept: &[bool]) -> Result<Vec<usize>, OutOfMemory>
    ensures { IfOk result (λ places. places.items ≡ roots kept.now) }
{
    let mut places = Vec::new(alloc);
    'pairs: for place in 0..kept.len() {
        if !kept[place] {
            places.push(place)?;
        }
    }
    Ok(places)
}

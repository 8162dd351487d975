//! What the text of a deck is made of.
use dom_base::NetName;
use domino_cell::Style;
use dual_rail::Forest;

/// A forest whose edges are kept or cut: for each pair whether its edge is kept and the number of the cell that it would be
/// the root of, and the names of the pins.
#[derive(Clone, Copy)]
pub struct CutForest<'a> {
    pub forest: &'a Forest,
    pub kept: &'a [bool],
    pub cells: &'a [u32],
    pub pins: &'a [NetName],
}

/// A deck of this name, in cells of this style on so many clocks, whose sinks have these signs: a forest whose edges are kept
/// or cut; in the order of the cells the places of their roots and their levels, of which `top` is the greatest; the leaves
/// whose complements it has; the outputs; and the start values of its latches.
#[derive(Clone, Copy)]
pub struct PlannedDeck<'a> {
    pub name: &'a [u8],
    pub style: Style,
    pub phases: u8,
    pub signs: &'a [bool],
    pub cover: CutForest<'a>,
    pub places: &'a [usize],
    pub levels: &'a [u32],
    pub top: u32,
    pub complements: &'a [u32],
    pub outs: &'a [NetName],
    pub starts: &'a [bool],
}

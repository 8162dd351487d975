//! Options of synthesis.
use crate::Style;
use tree_map::Bounds;

/// The bounds of the trees, the number of clocks, and the style of the cells.
#[derive(Clone, Copy)]
pub struct SynthOptions {
    pub bounds: Bounds,
    pub phases: u8,
    pub style: Style,
}

//! Latches of a model.
use dom_base::Name;

/// The edge of its control signal at which a latch takes its input.
#[derive(Clone, Copy, Debug, PartialEq, Eq)]
pub enum Edge2 {
    Rising,
    Falling,
}

/// What a latch is clocked by: an edge of a signal. A `signal` of `None` is the word `NIL`, by which
/// BLIF names no signal of the model.
#[derive(Clone, Debug, Drop)]
pub struct Control {
    pub edge: Edge2,
    pub signal: Option<Name>,
}

/// A latch of BLIF, the card `.latch`. `init` is its start value: 0 or 1, 2 where it may be either,
/// or 3 where it is unknown. `line` is the line of the card, from 1.
#[derive(Clone, Debug, Drop)]
pub struct Latch {
    pub input: Name,
    pub output: Name,
    pub control: Option<Control>,
    pub init: u8,
    pub line: u64,
}

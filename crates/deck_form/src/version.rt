//! Versions of the text of a deck.

/// Version 1 has all devices in one subcircuit; version 2 has a subcircuit for each shape of a cell, a complement, a
/// latch and a sink, and calls of them.
#[derive(Clone, Copy, Debug, PartialEq, Eq)]
pub enum DeckVersion {
    One,
    Two,
}

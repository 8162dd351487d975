//! Decks whose subcircuits call one another: what such a text stands for, and the text of a circuit by
//! its cells.
#![tactic(auto)]

mod laws;

pub use laws::{cells_read_back, decks_are_good, expansion_goes_by_steps, sizes_count};

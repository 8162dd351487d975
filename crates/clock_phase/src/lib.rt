//! Levels of cells and their clocks (Rabaey, Digital Integrated Circuits: domino logic).
#![tactic(auto)]

mod clocks;
mod laws;

pub use clocks::{assign_clocks, clock_of_level};
pub use laws::clocks_rise_with_levels;

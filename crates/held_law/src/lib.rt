//! The law of cells that hold what they have evaluated while the cells before them are precharged:
//! each of their nets holds its target, in every legal run.
#![tactic(auto)]

mod laws;

pub use laws::held_cells_hold_targets;

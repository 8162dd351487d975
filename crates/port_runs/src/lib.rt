//! Legal runs of a circuit by its ports: the places and moves of the environment in a cycle, how its
//! clocks fall, and the order in which they come.
#![tactic(auto)]

mod clocking;
mod laws;

pub use clocking::Clocking;
pub use laws::{runs_go_on, runs_stand_in_order};

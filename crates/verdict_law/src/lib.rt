//! The verdict and the trace of a deck that is right: all is the same, over each stimulus and in each order of events.
#![tactic(auto)]

mod laws;

pub use laws::{one_clock_is_right, realised_is_same, right_deck_has_outputs, right_deck_is_same};

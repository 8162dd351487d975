//! The run that the simulator chooses, in each order of events: on a loose domino deck it is a legal
//! run, reads the deck's own run, and each of its settlings ends at rest.
#![tactic(auto)]

mod laws;

pub use laws::{
    chosen_runs_are_legal, chosen_runs_read_own_run, chosen_runs_settle,
    overlapping_runs_read_own_run,
};

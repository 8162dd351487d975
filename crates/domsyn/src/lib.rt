//! The commands of the program over a shelf of files and two sinks.
#![tactic(auto)]

mod dispatch;
mod ending;
mod failure;
mod fault_failure;
mod fetch;
mod laws;
mod program;
mod refusal;
mod status;

pub use command_words::{asked_is_in_range, asked_is_one};
pub use laws::{
    flat_reads_back, outcome_is_one, outcome_is_there, own_deck_gets_yes, own_deck_has_outputs,
    own_deck_is_same, report_tells_deck, versions_read_alike,
};
pub use program::top;

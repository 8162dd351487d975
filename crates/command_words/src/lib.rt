//! What the words of the command line ask for: a command, its files and its options.
#![tactic(auto)]

mod command;
mod items;
mod laws;
mod probes;
mod synth_options;
mod trace_options;
mod values;
mod words;

pub use command::{Command, Method};
pub use laws::{asked_is_in_range, asked_is_one, asked_suits_method};
pub use words::command_of;

//! The expanded list of a file of BLIF by numbers, with a number in place of each signal.
#![tactic(auto)]

mod expansion;
mod parts;
mod roots;
mod scopes;

pub use expansion::number;

//! Logical lines of BLIF, cut out of a text word by word.
#![tactic(auto)]

mod cut;
mod lines;

pub use lines::{Lines, Notes};

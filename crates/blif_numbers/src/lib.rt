//! The reader of BLIF: out of a text a file by numbers, or the first line with a fault.
#![tactic(auto)]

mod builder;
mod cards;
mod fault;
mod forms;
mod line;
mod line_fault;
mod open_model;
mod reader;

pub use fault::BlifFault;
pub use reader::read_numbers;

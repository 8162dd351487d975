//! What the models of a file of BLIF by numbers call: the model of each instance, and the calls of all models with an order, where
//! nothing is wrong with the models.
#![tactic(auto)]

mod accepted_calls;
mod formals;
mod port_marks;
mod unit_numbers;

pub use accepted_calls::calls;
pub use unit_numbers::units;

//! What the models of a file of BLIF call: the models that their instances name, in an order in which each stands behind those
//! that it calls, or what is wrong with the models; and the numbers of their names.
#![tactic(auto)]

mod calls;
mod fault;
mod first_fault;
mod formals;
mod lined;
mod models;
mod name_hashes;
mod names;
mod number_set;
mod plan;
mod ports;
mod recursion;
mod scan;

pub use fault::{FlatFault, FlatKind, Limit};
pub use models::{ModelCalls, file_calls, plan_all};
pub use number_set::NumberSet;
pub use plan::{CardAt, Plan};

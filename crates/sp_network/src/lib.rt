//! Trees of switches in series and in parallel: as types, when they conduct, their duals, and the
//! formula that they are (Rabaey, Digital Integrated Circuits: pull-down networks).
#![tactic(auto)]

mod laws;
mod plan;
mod sp;

pub use laws::{dual_conducts_opposite, tree_is_formula};
pub use plan::GatePlan;
pub use sp::Sp;

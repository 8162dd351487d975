//! Subcircuits that call one another, by numbers, and the circuit that the last of them stands for.
#![tactic(auto)]

mod circuit;
mod definition;
mod expand;
mod net;
mod numbering;
mod part;
mod slots;
mod units;

pub use definition::Definition;
pub use part::{Call, LocalDevice, Part};
pub use units::Units;

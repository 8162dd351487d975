//! Domino decks with compound cells: the circuit that synthesis gives of a network (Rabaey, Digital Integrated
//! Circuits: compound domino).
#![tactic(auto)]

mod cells;
mod clocked;
mod groups;
mod sinks;
mod synthesis;
mod wholes;

pub use synthesis::synth_compound;

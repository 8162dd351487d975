//! Stages in a circuit of switches (Bryant, switch-level model: channel-connected groups): what
//! the top and the inner nets of a stage do next, with single devices to the supplies at its
//! inner nets too.
#![tactic(auto)]

mod laws;

pub use laws::{precharged_nets_hold, top_has_target};

//! Plain and slow functions of networks and hierarchies, written from the rules alone, and generated ones.
#![tactic(auto)]

mod drawn;
mod network;
mod run;

pub use drawn::{Sizes, drawn_network};
pub use network::{PlainLatch, PlainNetwork, PlainTable};
pub use run::{PlainCycle, cycle, drawn_stream, start_state};

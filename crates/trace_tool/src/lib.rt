//! The simulation of a deck over a stimulus: its trace, and its verdict beside a file of BLIF.
#![tactic(auto)]

mod asked;
mod circuit_verdict;
mod comparison;
mod cosimulation;
mod cycles;
mod fault;
mod halt;
mod laws;
mod lines;
mod moves;
mod names;
mod options;
mod ordered;
mod port_names;
mod ports;
mod run;
mod setup;
mod simulation;
mod trace;
mod verdict;

pub use circuit_verdict::verdict_of_circuit;
pub use cosimulation::{cosim, network_of_text};
pub use fault::TraceFault;
pub use laws::{
    answer_is_one, edges_are_told, trace_is_one, trace_is_there, verdict_is_one, verdict_is_there,
};
pub use options::{Order, ProbeWord, TraceOptions};
pub use port_runs::Clocking;
pub use simulation::{sim, sim_skew};
pub use trace::Trace;
pub use verdict::Verdict;

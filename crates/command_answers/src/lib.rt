//! What each command says of the bytes of its files: a text with how the command ends, or the fault for which there is none.
#![tactic(auto)]

mod answer;
mod audit_command;
mod bench_command;
mod cosim_command;
mod fault;
mod flat_command;
mod report_command;
mod run_command;
mod sim_command;
mod synth_command;

pub use answer::{Answer, Ending};
pub use audit_command::audit;
pub use bench_command::bench;
pub use cosim_command::cosim;
pub use fault::Fault;
pub use flat_command::flat;
pub use report_command::report;
pub use run_command::run;
pub use sim_command::sim;
pub use synth_command::synth;

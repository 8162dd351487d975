//! Stimuli, and the lines that are printed of cycles.
#![tactic(auto)]

mod fault;
mod laws;
mod letters;
mod reader;
mod row;
mod stimulus;
mod write;

pub use fault::{StimFault, StimKind};
pub use laws::text_has_one_answer;
pub use reader::read_stim;
pub use row::CycleRow;
pub use stimulus::Stimulus;
pub use write::write_cycle;

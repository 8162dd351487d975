//! The reader of BLIF text.
#![tactic(auto)]

mod laws;
mod reader;

pub use blif_ast::BlifKind;
pub use blif_numbers::BlifFault;
pub use laws::{accepted_file_is_good, printed_reads_back, text_has_one_answer};
pub use reader::read;

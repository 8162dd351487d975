//! The answer to a file of BLIF, the Berkeley Logic Interchange Format: each file has something to
//! be refused for, or a network.
#![tactic(auto)]

mod laws;

pub use laws::file_has_answer;

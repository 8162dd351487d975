//! Networks that are generated from a number, as texts of BLIF, and stimuli for them.
#![tactic(auto)]

mod drawn_network;
mod draws;
mod generation;
mod laws;
mod names;
mod stimulus;
mod table;

pub use generation::generate;
pub use laws::{
    generated_file_is_good, generated_is_network, generated_text_is_accepted, stimulus_is_read,
};
pub use stimulus::bench_stimulus;

//! Files of BLIF by numbers, copied into files with names of their own and out of them.
#![tactic(auto)]

mod copy;
mod keyed_hash;
mod letters;
mod model_parts;
mod numbering;
mod part_words;

pub use copy::to_file;
pub use letters::bytes_of;
pub use numbering::number_file;

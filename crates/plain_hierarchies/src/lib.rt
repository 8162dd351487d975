//! Plain and slow functions of hierarchies, written from the rules alone: what a file is refused for, its
//! counts and its network; and generated files.
#![tactic(auto)]

mod chain;
mod change;
mod counts;
mod expand;
mod file;
mod flatten;
mod refuse;
mod sample;

pub use counts::{Counted, count_of};
pub use expand::{Expansion, PlacedPart, Signal, expanded};
pub use file::{
    CardBody, NamedControl, NamedInstance, NamedLatch, NamedTable, PlainCard, PlainFile,
    PlainModel, written,
};
pub use flatten::{main_pins, network_of, one_model};
pub use refuse::{PlainRefusal, refusal};
pub use sample::drawn_file;

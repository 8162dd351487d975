//! The reduction of links to one: whether links are a series-parallel network between two nets, its
//! width and height, and the order in which a tree spells its links.
#![tactic(auto)]

mod part;
mod reduce;
mod reduction;
mod spelling;
mod stacks;

pub use part::Ends;
pub use reduce::{Shape, Spelled, shape_of, spelled_of};
pub use stacks::Stacks;

//! Networks as And, Or and Not over leaves: the nodes of each table's expression, in order, without
//! constants, and which of them are needed with which sign.
#![tactic(auto)]

mod expression;
mod gates;
mod laws;
mod operator;
mod row;
mod tables;

pub use gates::{Gates, Node, Ref};
pub use laws::{
    gates_are_in_order, gates_keep_values, needed_pairs_are_one, node_names_are_apart,
    pass_is_needed,
};
pub use tables::decompose;

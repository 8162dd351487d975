//! Directed graphs: an order of the nodes, each behind those that it leads to.
#![tactic(auto)]

mod components;
mod laws;
mod order;
mod sums;
mod traversal;

pub use components::{circle_marks, component_numbers};
pub use laws::ordered_has_no_circle;
pub use order::{Node, Order, put_in_order};
pub use sums::walk_sums;

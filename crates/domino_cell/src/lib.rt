//! Domino cells: the devices of a tree, stages (channel-connected groups of devices: a net and
//! its branches to the supplies), and cells of domino logic in a circuit (Rabaey, Digital
//! Integrated Circuits: dynamic logic).
#![tactic(auto)]

mod dynamic_stage;
mod inverter;
mod laws;
mod names;
mod numbers;
mod precharge;
mod push;
mod style;
mod tree;
mod worked;

pub use dynamic_stage::push_stage;
pub use inverter::push_inverter;
pub use laws::{cell_pulls_down, tree_joins_foot};
pub use names::{CellNames, CellNetsAt};
pub use numbers::{number_of, set_number};
pub use push::{push_domino, push_numbered_domino, push_static};
pub use style::Style;

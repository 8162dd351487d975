//! Compound cells: two dynamic stages under one static gate (Rabaey, Digital Integrated Circuits: compound
//! domino).
#![tactic(auto)]

mod laws;
mod push;
mod right_names;

pub use laws::simple_cells_are_styled;
pub use push::{push_compound, series_of_two};

//! The costs of plans in each style of cells.
#![tactic(auto)]

mod laws;

pub use laws::{styles_choose_alike, styles_cost};

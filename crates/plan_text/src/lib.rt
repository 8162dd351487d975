//! The text of the deck of a plan: cards of devices whose nets are given by names, without a circuit;
//! and the calls of cells of groups of such devices.
#![tactic(auto)]

mod buffered;
mod card_text;
mod cells;
mod device_text;
mod group_text;
mod groups;
mod head;
mod held;
mod marks;
mod name_list;
mod net;
mod plan;
mod planned;
mod short;
mod trees;

pub use plan::text_of_plan;
pub use planned::{CutForest, PlannedDeck};

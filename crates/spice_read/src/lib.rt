//! The reader of decks.
#![tactic(auto)]

mod cards;
mod crowds;
mod faults;
mod laws;
mod lines;
mod named_nets;
mod reader;
mod recent_nets;
mod subckt;
mod subckts;
mod words;

pub use deck::DeckKind;
pub use faults::DeckFault;
pub use laws::{text_has_one_answer, written_is_read};
pub use reader::read;

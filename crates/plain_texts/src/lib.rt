//! Plain and slow readers and printers of the texts, written from the formats alone, and what a program
//! needs that compares others with them.
#![tactic(auto)]

mod blif_print;
mod blif_read;
mod cut;
mod deck_read;
mod deck_subckts;
mod deck_write;
mod draws;
mod list;
mod ports;
mod stim_read;
mod tally;

pub use blif_print::print_blif;
pub use blif_read::{BlifReading, Logical, is_card, is_model, is_names, read_blif, width_of};
pub use cut::has_word;
pub use deck_read::{DeckReading, PlainDeck, PlainDevice, read_deck};
pub use deck_write::write_deck;
pub use draws::Draws;
pub use list::listed;
pub use ports::{CLOCKS, LATCHES, PlainRoles, RAILS, find_roles};
pub use stim_read::{StimReading, read_stim};
pub use tally::Tally;

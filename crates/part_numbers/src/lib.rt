//! A file of BLIF by numbers: how much it expands to, and its expanded list of tables and latches with a number in place of each
//! signal.
#![tactic(auto)]

mod card_file;
mod numbered;
mod part_cards;
mod sizes;
mod walk;
mod word_card;

pub use card_file::CardFile;
pub use numbered::{NumberedFile, NumberedPart, PartCard};
pub use part_cards::{
    card_of, edge_of, fault_at_control, fault_at_input, fault_at_main_control,
    fault_at_main_output, fault_at_output,
};
pub use sizes::Sizes;
pub use walk::{Expansion, Frame, Scope, ScopedPart, expand};
pub use word_card::WordCard;

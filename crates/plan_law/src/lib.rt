//! The decks that networks have: each network has gates, a forest, levels of its cells, and the deck
//! and the text that synthesis gives of it, whatever its size; and what that deck has of the least.
#![tactic(auto)]

mod laws;

pub use laws::{
    chosen_decks_are_least, decks_are_one, decks_are_there, files_have_texts, parts_are_there,
};

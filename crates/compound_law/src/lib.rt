//! The law of the decks of networks with compound cells: a deck of any signs and any plan of a network
//! is right in every order of events.
#![tactic(auto)]

mod laws;

pub use laws::{
    chosen_deck_is_one, chosen_decks_are_least, decks_are_pushed, decks_are_right,
    planned_decks_are_loose, planned_runs_as_network,
};

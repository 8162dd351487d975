//! The law of the decks of networks: a deck of any signs and any plan of a network is right in every
//! order of events.
#![tactic(auto)]

mod laws;

pub use laws::{
    decks_are_honest, decks_are_right, loose_decks_are_spelled, names_are_apart,
    planned_runs_as_network, shape_decks_are_loose, worked_deck_is_planned,
};

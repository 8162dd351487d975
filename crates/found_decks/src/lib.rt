//! The decks that audits find: where all rules hold, the places of the devices, part by part, are the
//! order of a yes.
#![tactic(auto)]

mod laws;

pub use laws::found_decks_get_yes;

//! What the decks of a network are: their devices by the names of their nets; named, domino, planned and chosen decks; and the laws
//! between these.
#![tactic(auto)]

mod laws;
mod options;
mod version;

pub use domino_cell::Style;
pub use laws::decks_are_domino;
pub use options::SynthOptions;
pub use version::DeckVersion;

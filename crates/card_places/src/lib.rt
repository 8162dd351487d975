//! The cards of a file of BLIF by numbers: of each model the places of its tables, latches and instances among the parts of the
//! file, and its cards in order of lines.
#![tactic(auto)]

mod model_plans;
mod number_lists;
mod places;

pub use model_plans::plans;
pub use number_lists::NumberLists;
pub use places::{CardPlaces, card_places};

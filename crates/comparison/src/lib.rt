//! What tests and programs that compare the product with plain functions have in common: the networks and gates of texts, plans
//! that `assign_clocks` takes, a worked deck, why nothing is compared, and how programs end.
#![tactic(auto)]

mod earlier;
mod ending;
mod file_network;
mod trouble;
mod worked;

pub use earlier::read_earlier;
pub use ending::{ended, printed};
pub use file_network::{gates_of, network_of};
pub use trouble::Trouble;
pub use worked::AND_DECK;

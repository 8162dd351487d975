//! Signs of sinks: the least that changes of single sinks reach (Puri, Bjorksten, Rosser 1996).
#![tactic(auto)]

mod laws;
mod looked;
mod needed;
mod pairs;
mod search;
mod trials;
mod wiring;

pub use laws::chosen_signs_are_settled;
pub use needed::{NO_USES, Needed, take_uses};
pub use pairs::{Arms, asked_for};
pub use search::assign;
pub use wiring::{Wiring, wiring_of};

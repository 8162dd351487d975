//! Legal runs of domino decks in random orders of events, with later clocks that rise at any moment and may fall
//! before the last has risen, and what each state is held against: the laws of every order, and the run of the
//! network.
#![tactic(auto)]

mod breach;
mod clocks;
mod course;
mod honest;
mod joins;
mod nets;
mod parts;
mod rests;
mod run;
mod state;
mod walk;

pub use breach::Breach;
pub use clocks::Clocking;
pub use nets::Style;
pub use rests::Rests;
pub use run::{NetworkRun, Shown, Terms, drawn_run, run_by};

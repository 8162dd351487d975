//! Plain and slow functions of circuits, written from the rules alone: targets out of all paths, and runs
//! move by move with their text; small circuits that are generated; and decks whose subcircuits call one another.
#![tactic(auto)]

mod calls;
mod moves;
mod paths;
mod play;
mod sample;
mod starts;
mod trace;

pub use calls::{
    CallCard, NamedDevice, Subckt, by_stack, by_substitution, numbered, read_subckts, same_devices,
    write_calls,
};
pub use moves::{Move, all_moves};
pub use paths::{target, value_of};
pub use play::{PlainOrder, Run, Taken, Unsettled, played};
pub use sample::{Sample, Transistor, deck_text, drawn_values, sampled};
pub use starts::Start;
pub use trace::{append_pins, report};

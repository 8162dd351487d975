//! Plain and slow functions of decks whose subcircuits call one another, written from the format alone: such a
//! text of a deck by its groups, what it says, and two ways to find the devices that it stands for.
mod expansion;
mod names;
mod subckts;
mod substitution;
mod write;

pub use expansion::by_stack;
pub use names::{NamedDevice, numbered, same_devices};
pub use subckts::{CallCard, Subckt, read_subckts};
pub use substitution::by_substitution;
pub use write::write_calls;

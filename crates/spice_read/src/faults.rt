//! Why a text is refused.
ghost use Rattle.std.specs.Prelude.{◌≡◌};
ghost use Rattle.spice_read.specs.declared.faults.DeckFault.TheVariants.{Memory};

use deck::DeckKind;
use dom_base::OutOfMemory;
use thiserror::Error;

/// Why a text isn't read: the first line with a fault, from 1, with the kind of the smallest number
/// there, or want of memory.
#[derive(Debug, Drop, Error)]
pub enum DeckFault {
    #[error("a fault in the deck")]
    At { line: u64, kind: DeckKind },
    #[error("out of memory")]
    Memory,
}

impl From<OutOfMemory> for DeckFault {
    ghost from_gives = { λ _ e. e ≡ Memory };

    fn from(_: OutOfMemory) -> Self {
        DeckFault::Memory
    }
}

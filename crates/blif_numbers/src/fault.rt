//! Why a text is refused.
ghost use Rattle.std.specs.Prelude.{◌≡◌};
ghost use Rattle.blif_numbers.specs.declared.fault.BlifFault.TheVariants.{Memory};

use blif_ast::BlifKind;
use dom_base::OutOfMemory;
use thiserror::Error;

/// Why a text isn't read: the first line with a fault, from 1, with the kind of the smallest number
/// there, or out of memory. Where the text has no line with words, the line is the one after its
/// last line, and the kind is `NoModel`.
#[derive(Debug, Drop, Error)]
pub enum BlifFault {
    #[error("a fault in the text")]
    At { line: u64, kind: BlifKind },
    #[error("out of memory")]
    Memory,
}

impl From<OutOfMemory> for BlifFault {
    ghost from_gives = { λ _ e. e ≡ Memory };

    fn from(_: OutOfMemory) -> Self {
        BlifFault::Memory
    }
}

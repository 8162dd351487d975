//! Why a run halts.
ghost use Rattle.std.specs.Prelude.{◌≡◌};
ghost use Rattle.trace_tool.specs.declared.halt.Halt.TheVariants.{Memory};

use dom_base::OutOfMemory;
use std::alloc::AllocError;

/// Why a run halts before its end: a settling that ended without rest, after so many events, or out
/// of memory.
#[derive(Clone, Copy, Debug, PartialEq, Eq)]
pub enum Halt {
    Unsettled(u64),
    Memory,
}

impl From<OutOfMemory> for Halt {
    ghost from_gives = { λ _ e. e ≡ Memory };

    fn from(_: OutOfMemory) -> Self {
        Halt::Memory
    }
}

impl From<AllocError> for Halt {
    ghost from_gives = { λ _ e. e ≡ Memory };

    fn from(_: AllocError) -> Self {
        Halt::Memory
    }
}

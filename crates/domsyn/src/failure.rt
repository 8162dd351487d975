//! Why a command gives no text.
ghost use Rattle.std.specs.Prelude.{◌≡◌};
ghost use Rattle.domsyn.specs.declared.failure.Failure.TheVariants.{Memory};

use crate::refusal::Refusal;
use dom_base::OutOfMemory;
use std::alloc::AllocFailed;

/// Why there is no text: a file is refused, a file can't be read, or memory did not suffice.
#[derive(Drop)]
pub enum Failure<'a> {
    Refused { file: &'a str, why: Refusal },
    Unread { file: &'a str },
    Memory,
}

impl<'a> From<OutOfMemory> for Failure<'a> {
    ghost from_gives = { λ _ e. e ≡ Memory };

    fn from(_: OutOfMemory) -> Self {
        Failure::Memory
    }
}

impl<'a, T: Drop> From<AllocFailed<T>> for Failure<'a> {
    ghost from_gives = { λ _ e. e ≡ Memory };

    fn from(_: AllocFailed<T>) -> Self {
        Failure::Memory
    }
}

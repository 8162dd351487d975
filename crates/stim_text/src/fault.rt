//! Why a stimulus isn't read.
ghost use Rattle.std.specs.Prelude.{◌≡◌};
ghost use Rattle.stim_text.specs.Stimuli.{stim_kind_word};
ghost use Rattle.stim_text.specs.declared.fault.StimFault.TheVariants.{Memory};

use std::alloc::{AllocError, AllocFailed};
use thiserror::Error;

/// The kind of a fault of a line of a stimulus.
#[derive(Clone, Copy, Debug, PartialEq, Eq)]
pub enum StimKind {
    /// A byte that is no letter: `0` and `1` are, and where there are no pins `-`.
    BadLetter,
    /// All bytes are letters, and there isn't one for each pin, or `-` alone where there are no pins.
    BadLength,
}

impl StimKind {
    /// The word for the kind, as it is printed.
    pub fn word(self) -> &'static str
        ensures { result.now ≡ stim_kind_word self }
    {
        match self {
            StimKind::BadLetter => "BadLetter",
            StimKind::BadLength => "BadLength",
        }
    }
}

/// Why a text isn't read as a stimulus: the first line with a fault, from 1, and its kind, or out of memory.
#[derive(Debug, Drop, Error)]
pub enum StimFault {
    #[error("a fault in the stimulus")]
    At { line: u64, kind: StimKind },
    #[error("out of memory")]
    Memory,
}

impl From<AllocError> for StimFault {
    ghost from_gives = { λ _ e. e ≡ Memory };

    fn from(_: AllocError) -> Self {
        StimFault::Memory
    }
}

impl<T: Drop> From<AllocFailed<T>> for StimFault {
    ghost from_gives = { λ _ e. e ≡ Memory };

    fn from(_: AllocFailed<T>) -> Self {
        StimFault::Memory
    }
}

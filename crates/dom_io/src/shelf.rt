//! Shelves: files by their names.
ghost use Rattle.std.specs.Prelude.{◌≡◌, ◌≤◌, ◌+◌, ◌↔◌, ◌⊎◌, ℕ, List, [], ◌∷◌, Option, None, Some, IfOk, IsErrOf, length};
ghost use Rattle.dom_io.specs.Asked.{Asking, HasAsked};
ghost use Rattle.dom_io.specs.Faults.{Rose};
ghost use Rattle.dom_io.specs.Held.{IsHeld, file_limit};
ghost use Rattle.dom_io.specs.declared.shelf.FetchFault.TheVariants.{Memory};

use dom_base::OutOfMemory;
use std::alloc::{AllocError, Global};

/// Why a fetch gave no bytes: the shelf failed, or ran out of memory.
#[derive(Clone, Copy, Debug, PartialEq, Eq)]
pub enum FetchFault {
    Failed,
    Memory,
}

impl From<AllocError> for FetchFault {
    ghost from_gives = { λ _ e. e ≡ Memory };

    fn from(_: AllocError) -> Self {
        FetchFault::Memory
    }
}

impl From<OutOfMemory> for FetchFault {
    ghost from_gives = { λ _ e. e ≡ Memory };

    fn from(_: OutOfMemory) -> Self {
        FetchFault::Memory
    }
}

/// What gives files by their names.
pub trait Shelf {
    /// The files as pairs of name and bytes, where they are known. The first pair of a name counts.
    ghost files: { Self → Option (List (List ℕ × List ℕ)) };

    /// The names that were asked for so far, in order, each with how many bytes were given, where they are known. A shelf tells
    /// them always or never.
    ghost asked: { Self → Option (List Asking) };

    /// How often the shelf has failed. The count stops at the last `u64`.
    ghost faults: { Self → ℕ };

    /// The names that may be asked for.
    ghost may_ask: { Self → List ℕ → Type 0 };

    /// The bytes of the file of this name, or the first `FILE_LIMIT + 1` of them where there are more. The error is
    /// `Failed` where the shelf failed, which it counts, and `Memory` where it ran out of memory. Whatever the answer, the name
    /// was asked for; at `Memory` it may be that no record of it was made.
    fn fetch(&mut self, alloc: Global, name: &str) -> Result<Vec<u8>, FetchFault>
        requires { may_ask self.old name.now }
        ensures size { IfOk result (λ v. length v.items ≤ file_limit + 1) }
        ensures bytes { IfOk result (λ v. IsHeld (files self.old) name.now v.items) }
        ensures same_files { files self.new ≡ files self.old }
        ensures same_names { (n : List ℕ) → may_ask self.new n ↔ may_ask self.old n }
        ensures asked { IfOk result (λ v. HasAsked (asked self.old) (asked self.new) ((name.now, Some (length v.items)) ∷ [])) }
        ensures asked_failed { IsErrOf result FetchFault.Failed → HasAsked (asked self.old) (asked self.new) ((name.now, None) ∷ []) }
        ensures asked_memory { IsErrOf result FetchFault.Memory → HasAsked (asked self.old) (asked self.new) []
            ⊎ HasAsked (asked self.old) (asked self.new) ((name.now, None) ∷ []) }
        ensures later { faults self.old ≤ faults self.new }
        ensures failed { IsErrOf result FetchFault.Failed → Rose (faults self.old) (faults self.new) };
}

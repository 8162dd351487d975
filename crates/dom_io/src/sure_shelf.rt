//! A shelf in memory that never fails.
ghost use Rattle.std.specs.Prelude.{◌≡◌, ◌≤◌, ◌+◌, Some, None, IfOk, IsErrOf, IsSome, is_some, length};
ghost use Rattle.dom_io.specs.Held.{IsHeld, file_limit, held};

use crate::limit::fetch_limit;
use crate::memory_shelf::{find, first_bytes};
use crate::{FetchFault, Shelf};
use std::alloc::Global;
use std::marker::Model;

/// Files in memory, where only a name that is held may be asked for. So no fetch fails.
///
/// `files` has names with their bytes, and the first pair of a name counts.
#[derive(Drop)]
pub struct SureShelf {
    pub files: Vec<(String, Vec<u8>)>,
}

impl Model for SureShelf {
    ghost use Rattle.std.specs.Prelude.{ℕ, List, map};
    ghost use Rattle.std.specs.String.{string_bytes};

    ghost Value = { List (List ℕ × List ℕ) };

    ghost view = { λ s. map (λ p. (string_bytes p.0, p.1.items)) s.files.items };
}

impl SureShelf {
    /// Whether a file of this name is held, so that it may be asked for.
    pub fn holds(&self, name: &str) -> bool
        ensures { result ≡ is_some (held self.now name.now) }
    {
        find(&self.files, name).is_some()
    }
}

impl Shelf for SureShelf {
    ghost files = { λ s. Some s };

    ghost asked = { λ _. None };

    ghost faults = { λ _. 0 };

    ghost may_ask = { λ s name. IsSome (held s name) };

    /// Gives the bytes, or runs out of memory. It never fails.
    fn fetch(&mut self, alloc: Global, name: &str) -> Result<Vec<u8>, FetchFault>
        requires holds { IsSome (held self.old name.now) }
        ensures size { IfOk result (λ v. length v.items ≤ file_limit + 1) }
        ensures bytes { IfOk result (λ v. IsHeld (Some self.old) name.now v.items) }
        ensures never { IsErrOf result FetchFault.Failed → ⊥ }
        ensures same { self.new ≡ self.old }
    {
        let bytes = find(&self.files, name).unwrap();
        Ok(first_bytes(alloc, bytes, fetch_limit())?)
    }
}

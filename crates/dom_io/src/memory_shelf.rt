//! A shelf in memory.
ghost use Rattle.std.specs.Prelude.{◌≡◌, ◌≤◌, ◌+◌, ◌⊎◌, [], ◌∷◌, Some};
ghost use Rattle.std.specs.Prelude.{None, IfOk, OnOk, OnErr, IsErr, IsErrOf, Contains, MatchOption, is_some, length, map, take};
ghost use Rattle.std.specs.Option.{option_map};
ghost use Rattle.std.specs.String.{string_bytes};
ghost use Rattle.dom_io.specs.Asked.{HasAsked};
ghost use Rattle.dom_io.specs.Faults.{next_count};
ghost use Rattle.dom_io.specs.Held.{IsAbsent, IsHeld, file_limit, held};

use crate::limit::fetch_limit;
use crate::{FetchFault, Shelf};
use dom_base::OutOfMemory;
use std::alloc::{AllocError, Global};
use std::marker::Model;

/// Files in memory, and the numbers of the calls that are to fail. A fetch fails too for a name that isn't held.
///
/// `files` has names with their bytes, and the first pair of a name counts. `asked` has the names that were asked for
/// so far, in order, each with how many bytes were given, or is `None` where no record is wanted. `calls` is
/// how many calls of `fetch` there were, the first having the number 1, and `faults` how many of them
/// failed. Both counts stop at the last `u64`.
#[derive(Drop)]
pub struct MemoryShelf {
    pub files: Vec<(String, Vec<u8>)>,
    pub fails: Vec<u64>,
    pub asked: Option<Vec<(String, Option<u64>)>>,
    pub calls: u64,
    pub faults: u64,
}

impl Model for MemoryShelf {
    ghost use Rattle.std.specs.Option.{option_map};
    ghost use Rattle.std.specs.Prelude.{map};
    ghost use Rattle.std.specs.String.{string_bytes};
    ghost use Rattle.dom_io.specs.Memory.{ShelfData};

    ghost Value = { ShelfData };

    ghost view = { λ s. record {
      files = map (λ p. (string_bytes p.0, p.1.items)) s.files.items;
      fails = s.fails.items;
      asked = option_map (λ list. map (λ p. (string_bytes p.0, p.1)) list.items) s.asked;
      calls = s.calls;
      faults = s.faults;
    } };
}

impl Shelf for MemoryShelf {
    ghost files = { λ s. Some s.files };

    ghost asked = { λ s. s.asked };

    ghost faults = { λ s. s.faults };

    ghost may_ask = { λ _ _. Unit {0} };

    /// Fails exactly where the number of the call is in `fails` or no file has the name, but where there is no memory for the
    /// record of it.
    fn fetch(&mut self, alloc: Global, name: &str) -> Result<Vec<u8>, FetchFault>
        ensures size { IfOk result (λ v. length v.items ≤ file_limit + 1) }
        ensures bytes { IfOk result (λ v. IsHeld (Some self.old.files) name.now v.items) }
        ensures refused { Contains self.old.fails self.new.calls → IsErr result }
        ensures absent { IsAbsent self.old.files name.now → IsErr result }
        ensures failed_only { IsErrOf result FetchFault.Failed → Contains self.old.fails self.new.calls ⊎ IsAbsent self.old.files name.now }
        ensures same_files { self.new.files ≡ self.old.files }
        ensures same_fails { self.new.fails ≡ self.old.fails }
        ensures asked { IfOk result (λ v. HasAsked self.old.asked self.new.asked ((name.now, Some (length v.items)) ∷ [])) }
        ensures asked_failed { IsErrOf result FetchFault.Failed → HasAsked self.old.asked self.new.asked ((name.now, None) ∷ []) }
        ensures asked_memory { IsErrOf result FetchFault.Memory → HasAsked self.old.asked self.new.asked []
            ⊎ HasAsked self.old.asked self.new.asked ((name.now, None) ∷ []) }
        ensures calls { self.new.calls ≡ next_count self.old.calls }
        ensures later { self.old.faults ≤ self.new.faults }
        ensures failed { IsErrOf result FetchFault.Failed → self.new.faults ≡ next_count self.old.faults }
        ensures ok { OnOk result (self.new.faults ≡ self.old.faults) }
        ensures memory { IsErrOf result FetchFault.Memory → self.new.faults ≡ self.old.faults }
    {
        self.calls = self.calls.saturating_add(1);
        match self.answer(alloc, name) {
            Ok(bytes) => {
                record(alloc, &mut self.asked, name, Some(bytes.len() as u64))?;
                Ok(bytes)
            }
            Err(FetchFault::Failed) => {
                record(alloc, &mut self.asked, name, None)?;
                self.faults = self.faults.saturating_add(1);
                Err(FetchFault::Failed)
            }
            Err(FetchFault::Memory) => {
                record(alloc, &mut self.asked, name, None)?;
                Err(FetchFault::Memory)
            }
        }
    }
}

impl MemoryShelf {
    /// What the fetch of this call answers, before the record of it.
    fn answer(&self, alloc: Global, name: &str) -> Result<Vec<u8>, FetchFault>
        ensures size { IfOk result (λ v. length v.items ≤ file_limit + 1) }
        ensures bytes { IfOk result (λ v. IsHeld (Some self.now.files) name.now v.items) }
        ensures refused { Contains self.now.fails self.now.calls → IsErrOf result FetchFault.Failed }
        ensures absent { IsAbsent self.now.files name.now → IsErrOf result FetchFault.Failed }
        ensures failed_only { IsErrOf result FetchFault.Failed → Contains self.now.fails self.now.calls ⊎ IsAbsent self.now.files name.now }
    {
        if self.fails.contains(&self.calls) {
            return Err(FetchFault::Failed);
        }
        match find(&self.files, name) {
            Some(bytes) => Ok(first_bytes(alloc, bytes, fetch_limit())?),
            None => Err(FetchFault::Failed),
        }
    }
}

/// Adds at the end of a record that this name was asked for, and how many bytes were given. It stays where there is no
/// memory for that.
fn record(
    alloc: Global,
    asked: &mut Option<Vec<(String, Option<u64>)>>,
    name: &str,
    given: Option<u64>,
) -> Result<(), OutOfMemory>
    ensures made { OnOk result (HasAsked (option_map (λ list. map (λ p. (string_bytes p.0, p.1)) list.items) asked.old)
        (option_map (λ list. map (λ p. (string_bytes p.0, p.1)) list.items) asked.new) ((name.now, given) ∷ [])) }
    ensures stays { OnErr result (HasAsked (option_map (λ list. map (λ p. (string_bytes p.0, p.1)) list.items) asked.old)
        (option_map (λ list. map (λ p. (string_bytes p.0, p.1)) list.items) asked.new) []) }
{
    if let Some(askings) = asked {
        let owned = String::from_str(alloc, name)?;
        askings.push((owned, given))?;
    }
    Ok(())
}

/// The bytes of the first pair of this name.
pub fn find<'a>(files: &'a [(String, Vec<u8>)], name: &str) -> Option<&'a [u8]>
    ensures found { is_some result ≡ is_some (held (map (λ p. (string_bytes p.0, p.1.items)) files.now) name.now) }
    ensures bytes { let under = held (map (λ p. (string_bytes p.0, p.1.items)) files.now) name.now in
        MatchOption result (under ≡ None) (λ b. under ≡ Some b.now) }
{
    for (key, bytes) in files {
        if key.as_str() == name {
            return Some(bytes.as_slice());
        }
    }
    None
}

/// A copy of at most the first `most` bytes.
pub fn first_bytes(alloc: Global, bytes: &[u8], most: usize) -> Result<Vec<u8>, AllocError>
    ensures { IfOk result (λ v. v.items ≡ take most bytes.now) }
{
    if bytes.len() <= most {
        bytes.to_vec(alloc)
    } else {
        bytes[..most].to_vec(alloc)
    }
}

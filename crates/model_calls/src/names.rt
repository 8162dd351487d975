//! Names by numbers.
ghost use Rattle.std.specs.Prelude.{◌≡◌, IfOk, MatchOption, Contains, Some, slice_get, [], option_copied, IsTrue, ◌↔◌};
ghost use Rattle.model_calls.specs.NameNumbers.{IsNameAdded};

use dom_base::{Name, NameHash, OutOfMemory};
use indexmap::IndexSet;
use std::alloc::Global;
use std::marker::Model;

/// Names that differ, in the order in which they were added: a name's number is its index.
#[derive(Drop)]
pub struct Names<'a> {
    pub set: IndexSet<&'a Name, NameHash>,
}

impl<'a> Model for Names<'a> {
    ghost use Rattle.std.specs.Prelude.{List, ℕ, map};

    ghost Value = { List (List ℕ) };

    ghost view = { λ n. map (λ k. k.now) n.set.keys };
}

impl<'a> Names<'a> {
    /// No names, which are hashed so.
    pub fn new(alloc: Global, hash: NameHash) -> Names<'a>
        ensures { result ≡ [] }
    {
        Names {
            set: IndexSet::with_hasher(alloc, hash),
        }
    }

    /// No names, which are hashed so, with room for so many. It fails only for want of memory.
    pub fn with_room(alloc: Global, hash: NameHash, count: usize) -> Result<Names<'a>, OutOfMemory>
        ensures { IfOk result (λ names. names ≡ []) }
    {
        Ok(Names {
            set: IndexSet::with_capacity_and_hasher(alloc, count, hash)?,
        })
    }

    /// The number of a name, which is added where it is new, and whether it is. It fails only for
    /// want of memory.
    pub fn add(&mut self, name: &'a Name) -> Result<(usize, bool), OutOfMemory>
        ensures { IfOk result (λ added. IsNameAdded self.old name.now self.new added.0 added.1) }
    {
        Ok(self.set.insert_full(name)?)
    }

    /// The number of a name, if it is there.
    pub fn number(&self, name: &Name) -> Option<usize>
        ensures { MatchOption result (Contains self.now name.now → ⊥) (λ number. slice_get self.now number ≡ Some name.now) }
    {
        self.set.get_index_of(&name)
    }

    /// The name of a number, if there is one.
    pub fn name(&self, number: usize) -> Option<&'a Name>
        ensures { option_copied result ≡ slice_get self.now number }
    {
        self.set.get_index(number).copied()
    }

    /// Whether a name is there.
    pub fn has(&self, name: &Name) -> bool
        ensures { IsTrue result ↔ Contains self.now name.now }
    {
        self.number(name).is_some()
    }
}

//! Names beside the slots of a table.
ghost use Rattle.std.specs.Prelude.{◌≡◌, IfOk, OnErr, length};
ghost use Rattle.numbered_file.specs.Slots.{no_others, HasAsked};

use crate::slots::number_at;
use crate::word::Word;
use dom_base::{Crowd, NameHash, OutOfMemory};
use indexmap::IndexSet;
use std::alloc::Global;
use std::marker::Model;

/// Names and the number of each. `crowd` counts how many meet in the set.
#[derive(Drop)]
pub struct Others<'t> {
    names: IndexSet<Word<'t>, NameHash>,
    numbers: Vec<u32>,
    crowd: Crowd,
}

impl<'t> Model for Others<'t> {
    ghost use Rattle.std.specs.Prelude.{◌≡◌, length};
    ghost use Rattle.numbered_file.specs.Slots.{OtherNames};

    ghost Value = { OtherNames };

    ghost view = { λ o. record { names = o.names.keys; numbers = o.numbers.items } };

    ghost invariant = { λ o. length o.numbers.items ≡ length o.names.keys };
}

impl<'t> Others<'t> {
    /// No names yet, which are to be hashed so.
    pub fn new(alloc: Global, hash: NameHash) -> Others<'t>
        ensures { result ≡ no_others }
    {
        Others {
            names: IndexSet::with_hasher(alloc, hash),
            numbers: Vec::new(alloc),
            crowd: Crowd::new(alloc, hash),
        }
    }

    /// Whether so many names met that they are to be hashed with a key.
    pub fn are_crowded(&self) -> bool {
        self.crowd.is_crowded()
    }

    /// The number of a name that is there. Where it isn't, it is added with this number. The one error is out of memory, or
    /// names that are crowded; it adds nothing.
    pub fn number(&mut self, name: &'t [u8], next: u32) -> Result<Option<u32>, OutOfMemory>
        ensures number { IfOk result (λ known. HasAsked self.old name.now next known self.new) }
        ensures even { length self.old.numbers ≡ length self.old.names }
        ensures kept { OnErr result (self.new ≡ self.old) }
    {
        self.crowd.look_at(self.names.as_slice())?;
        self.numbers.reserve(1)?;
        let (index, is_new) = self.names.insert_full(Word(name))?;
        if is_new {
            self.numbers.push_reserved(next);
            return Ok(None);
        }
        let Some(number) = number_at(&self.numbers, index) else {
            return Err(OutOfMemory);
        };
        Ok(Some(number))
    }
}

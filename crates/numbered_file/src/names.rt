//! The names of a text by numbers.
ghost use Rattle.std.specs.Prelude.{◌≡◌, IfOk, length};
ghost use Rattle.numbered_file.specs.Numbered.{name_of};

use crate::word::Word;
use dom_base::{NameHash, OutOfMemory};
use indexmap::IndexSet;
use std::alloc::Global;
use std::marker::Model;

/// Names that differ, once no more come: a name's number is its index. Each is a part of the text.
#[derive(Drop)]
pub struct Names<'t> {
    pub(crate) names: Vec<Word<'t>>,
}

impl<'t> Model for Names<'t> {
    ghost use Rattle.std.specs.Prelude.{List, ℕ};

    ghost Value = { List (List ℕ) };

    ghost use Rattle.std.specs.List.{IsDistinct};
    ghost use Rattle.blif_ast.specs.Cards.{same};

    ghost view = { λ n. n.names.items };

    ghost invariant = { λ n. IsDistinct same n.names.items };
}

impl<'t> Names<'t> {
    /// The names of a set. The one error is out of memory.
    pub fn of(alloc: Global, set: IndexSet<Word<'t>, NameHash>) -> Result<Names<'t>, OutOfMemory>
        ensures { IfOk result (λ names. names ≡ set.entry.keys) }
    {
        let names = set.into_iter().collect(alloc)?;
        Ok(Names { names })
    }

    /// The name of a number; no bytes where there is none.
    pub fn name(&self, number: u32) -> &'t [u8]
        ensures { result.now ≡ name_of self.now number }
    {
        match self.names.get(number as usize) {
            Some(name) => name.0,
            None => &[],
        }
    }

    /// How many names there are.
    pub fn len(&self) -> usize
        ensures { result ≡ length self.now }
    {
        self.names.len()
    }
}

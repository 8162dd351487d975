//! Lists of numbers, by number, one behind the other.
ghost use Rattle.std.specs.Prelude.{◌≡◌, ◌<◌, ◌≤◌, IfOk, length};
ghost use Rattle.std.specs.List.{slice_range};
ghost use Rattle.switch_model.specs.ComponentLists.{list_at};

use crate::lists::{Lists, shorter};
use dom_base::OutOfMemory;
use std::alloc::Global;
use std::marker::Model;

/// Lists of numbers, each with a number of its own, from 0, one behind the other.
#[derive(Drop)]
pub struct Groups {
    // Where each list begins, and where the last one ends.
    starts: Vec<u32>,
    numbers: Vec<u32>,
}

impl Model for Groups {
    ghost use Rattle.std.specs.Prelude.{List, length, ℕ};
    ghost use Rattle.switch_model.specs.Pieces.{RisesUpTo, pieces};

    ghost Value = { List (List ℕ) };

    ghost view = { λ g. pieces g.starts.items g.numbers.items };

    ghost invariant = { λ g. RisesUpTo g.starts.items (length g.numbers.items) };
}

impl Groups {
    /// These lists. The one error is out of memory.
    pub fn new(alloc: Global, lists: &Lists) -> Result<Groups, OutOfMemory>
        ensures { IfOk result (λ groups. groups ≡ lists.now) }
    {
        let mut starts = Vec::with_capacity(alloc, lists.len().saturating_add(1))?;
        let mut numbers = Vec::with_capacity(alloc, lists.total())?;
        let mut list = Vec::new(alloc);
        starts.push(0)?;
        for number in 0..lists.len() {
            lists.put(number, &mut list)?;
            numbers.extend_from_slice(list.as_slice())?;
            let end = shorter(numbers.len())?;
            starts.push(end)?;
        }
        Ok(Groups { starts, numbers })
    }

    /// How many lists there are.
    pub fn len(&self) -> usize
        ensures { result ≡ length self.now }
    {
        self.starts.len() - 1
    }

    /// The list with a number.
    pub fn at(&self, group: u32) -> &[u32]
        requires { group < length self.now }
        ensures { result.now ≡ list_at self.now group }
    {
        let group = group as usize;
        piece(
            self.numbers.as_slice(),
            self.starts[group] as usize,
            self.starts[group + 1] as usize,
        )
    }
}

/// The numbers from a place to another.
fn piece(numbers: &[u32], start: usize, end: usize) -> &[u32]
    requires start { start ≤ end }
    requires end { end ≤ length numbers.now }
    ensures { result.now ≡ slice_range numbers.now start end }
{
    &numbers[start..end]
}

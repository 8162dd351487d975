//! Lists of numbers that stand one behind the other.
ghost use Rattle.std.specs.Prelude.{◌≡◌, ◌<◌, [], OnOk, IsSome, Some, length, slice_get, slice_index_or, take};
ghost use Rattle.card_places.specs.NumberLists.{closed, last_end, lists_from, no_number_lists, with_number, with_numbers};

use dom_base::OutOfMemory;
use numbered_file::{as_u32, between};
use std::alloc::Global;
use std::marker::Model;

/// Lists of numbers one behind the other in one vector, and the list that comes.
#[derive(Drop)]
pub struct NumberLists {
    items: Vec<u32>,
    ends: Vec<u32>,
}

impl Model for NumberLists {
    ghost use Rattle.card_places.specs.NumberLists.{EndsRise, NumberListsData, lists_by};
    ghost use Rattle.std.specs.Prelude.{length};

    ghost Value = { NumberListsData };

    ghost view = { λ l. lists_by l.items.items l.ends.items };

    ghost invariant = { λ l. EndsRise 0 l.ends.items (length l.items.items) };
}

impl NumberLists {
    /// No lists.
    pub fn new(alloc: Global) -> NumberLists
        ensures { result ≡ no_number_lists }
    {
        NumberLists {
            items: Vec::new(alloc),
            ends: Vec::new(alloc),
        }
    }

    /// Appends a number to the list that comes. The one error is out of memory.
    pub fn push(&mut self, number: u32) -> Result<(), OutOfMemory>
        ensures { OnOk result (self.new ≡ with_number self.old number) }
    {
        self.items.push(number)?;
        Ok(())
    }

    /// Appends numbers to the list that comes. The one error is out of memory.
    pub fn extend(&mut self, numbers: &[u32]) -> Result<(), OutOfMemory>
        ensures { OnOk result (self.new ≡ with_numbers self.old numbers.now) }
    {
        self.items.extend_from_slice(numbers)?;
        Ok(())
    }

    /// Closes the list that comes. The one error is out of memory: there is no room for more numbers.
    pub fn close(&mut self) -> Result<(), OutOfMemory>
        ensures { OnOk result (self.new ≡ closed self.old) }
    {
        let end = as_u32(self.items.len())?;
        self.ends.push(end)?;
        Ok(())
    }

    /// A list by its index; no numbers where there is none.
    pub fn list(&self, index: u32) -> &[u32]
        ensures { result.now ≡ slice_index_or self.now.lists index [] }
    {
        self.at(index as usize)
    }

    /// The same by an index of any size.
    pub fn at(&self, index: usize) -> &[u32]
        ensures { result.now ≡ slice_index_or self.now.lists index [] }
    {
        list_at(self.items.as_slice(), self.ends.as_slice(), index)
    }

    /// A number of a list, by the index of the list and its own there.
    pub fn number(&self, list: u32, index: u32) -> u32
        requires { IsSome (slice_get (slice_index_or self.now.lists list []) index) }
        ensures { slice_get (slice_index_or self.now.lists list []) index ≡ Some result }
    {
        number_at(self.list(list), index as usize)
    }
}

fn number_at(numbers: &[u32], index: usize) -> u32
    requires { IsSome (slice_get numbers.now index) }
    ensures { slice_get numbers.now index ≡ Some result }
{
    numbers[index]
}

/// The list of an index among those that end at these places.
fn list_at<'a>(items: &'a [u32], ends: &[u32], index: usize) -> &'a [u32]
    ensures { result.now ≡ slice_index_or (lists_from items.now 0 ends.now) index [] }
{
    match ends.get(index) {
        Some(end) => between(items, start_at(ends, index), *end),
        None => &[],
    }
}

/// Where the list of an index begins: where the one before it ends.
fn start_at(ends: &[u32], index: usize) -> u32
    requires { index < length ends.now }
    ensures { result ≡ last_end 0 (take index ends.now) }
{
    if index == 0 {
        return 0;
    }
    ends[index - 1]
}

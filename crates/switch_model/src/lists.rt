//! Lists of numbers that grow, by number.
ghost use Rattle.std.specs.Prelude.{◌≡◌, ◌≢◌, ◌<◌, ◌+◌, ◌++◌, [], ℕ, Contains, IfOk, OnOk, ◌≤◌, length, replicate, reverse, slice_index_or, true, false};
ghost use Rattle.switch_model.specs.Chains.{AreBackward, chain};
ghost use Rattle.switch_model.specs.ComponentLists.{list_at, with_number};

use dom_base::OutOfMemory;
use std::alloc::Global;
use std::marker::Model;

/// Lists of numbers, each with a number of its own, from 0. The entries of all lists stand in one
/// vector, in the order in which they came, and each knows the one before it in its list.
#[derive(Drop)]
pub struct Lists {
    // For each list the number of entries up to its last one.
    ends: Vec<u32>,
    entries: Vec<Entry>,
}

/// A number of a list, and the number of entries up to the one before it in that list.
#[derive(Clone, Copy, Debug, PartialEq, Eq)]
pub struct Entry {
    pub number: u32,
    pub before: u32,
}

impl Model for Lists {
    ghost use Rattle.std.specs.Prelude.{List, ℕ};
    ghost use Rattle.switch_model.specs.Chains.{AreChained, chains};

    ghost Value = { List (List ℕ) };

    ghost view = { λ l. chains l.entries.items l.ends.items };

    ghost invariant = { λ l. AreChained l.entries.items l.ends.items };
}

impl Lists {
    /// So many empty lists. The one error is out of memory.
    pub fn new(alloc: Global, count: usize) -> Result<Lists, OutOfMemory>
        ensures { IfOk result (λ l. l ≡ replicate count []) }
    {
        let ends = no_entries(alloc, count)?;
        let entries = Vec::new(alloc);
        Ok(Lists { ends, entries })
    }

    /// How many lists there are.
    pub fn len(&self) -> usize
        ensures { result ≡ length self.now }
    {
        self.ends.len()
    }

    /// How many numbers there are in all lists.
    pub fn total(&self) -> usize {
        self.entries.len()
    }

    /// Adds a number at the end of a list. The one error is out of memory, also where the lists have
    /// no number in 32 bits for one entry more.
    pub fn add(&mut self, list: u32, number: u32) -> Result<(), OutOfMemory>
        requires { list < length self.old }
        ensures { OnOk result (self.new ≡ with_number self.old list number) }
    {
        let end = shorter(self.entries.len() + 1)?;
        let before = self.ends[list as usize];
        self.entries.push(Entry { number, before })?;
        self.ends[list as usize] = end;
        Ok(())
    }

    /// Whether a number is the last of a list.
    pub fn is_last(&self, list: u32, number: u32) -> bool
        requires { list < length self.now }
        ensures yes { result ≡ true → Contains (list_at self.now list) number }
        ensures no { result ≡ false → (k : ℕ) → k + 1 ≡ length (list_at self.now list)
            → slice_index_or (list_at self.now list) k 0 ≢ number }
    {
        let end = self.ends[list as usize] as usize;
        if end == 0 {
            return false;
        }
        let entry = self.entries[end - 1];
        entry.number == number
    }

    /// Makes `numbers` those of a list. The one error is out of memory.
    pub fn put(&self, list: usize, numbers: &mut Vec<u32>) -> Result<(), OutOfMemory>
        requires { list < length self.now }
        ensures { OnOk result (numbers.new.items ≡ list_at self.now list) }
    {
        numbers.clear();
        put_back(self.entries.as_slice(), self.ends[list], numbers)?;
        numbers.reverse();
        Ok(())
    }
}

/// Adds the numbers of a list at the end of others, from its last one to its first, where so many
/// entries are up to its last one. The one error is out of memory.
fn put_back(entries: &[Entry], end: u32, numbers: &mut Vec<u32>) -> Result<(), OutOfMemory>
    requires backward { AreBackward entries.now }
    requires within { end ≤ length entries.now }
    ensures { OnOk result (numbers.new.items ≡ numbers.old.items ++ reverse (chain entries.now end end)) }
{
    let mut left = end as usize;
    'back: while left > 0 {
        let entry = entries[left - 1];
        numbers.push(entry.number)?;
        left = entry.before as usize;
    }
    Ok(())
}

/// For each list no entry yet. The one error is out of memory.
fn no_entries(alloc: Global, count: usize) -> Result<Vec<u32>, OutOfMemory>
    ensures { IfOk result (λ ends. ends.items ≡ replicate count 0) }
{
    let mut ends = Vec::new(alloc);
    ends.resize(count, 0)?;
    Ok(ends)
}

/// A number in 32 bits. The one error is out of memory, where it needs more.
pub fn shorter(number: usize) -> Result<u32, OutOfMemory>
    ensures { IfOk result (λ short. short ≡ number) }
{
    match u32::try_from(number) {
        Ok(short) => Ok(short),
        Err(_) => Err(OutOfMemory),
    }
}

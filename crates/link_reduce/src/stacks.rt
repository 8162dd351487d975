//! Lists of numbers, by number, that grow and shrink at their ends.
ghost use Rattle.std.specs.Prelude.{◌≡◌, ◌<◌, ◌∷◌, ◌++◌, [], IfNone, IfOk, IfSome, OnOk, length, replicate, slice_set};
ghost use Rattle.link_reduce.specs.Parts.{listed, with_number};

use dom_base::OutOfMemory;
use std::alloc::Global;
use std::marker::Model;

/// Numbers, of which the last is taken first.
#[derive(Drop)]
pub struct Stack(Vec<u32>);

impl Model for Stack {
    ghost use Rattle.std.specs.Prelude.{List, ℕ};

    ghost Value = { List ℕ };

    ghost view = { λ s. s.0.items };
}

impl Stack {
    /// No number. Takes no memory.
    pub fn new(alloc: Global) -> Stack
        ensures { result ≡ [] }
    {
        Stack(Vec::new(alloc))
    }

    /// Adds a number at the end. The one error is out of memory.
    pub fn add(&mut self, number: u32) -> Result<(), OutOfMemory>
        ensures { OnOk result (self.new ≡ self.old ++ number ∷ []) }
    {
        self.0.push(number)?;
        Ok(())
    }

    /// The numbers, from the first.
    pub fn as_slice(&self) -> &[u32]
        ensures { result.now ≡ self.now }
    {
        self.0.as_slice()
    }

    /// Takes the last number.
    pub fn take(&mut self) -> Option<u32>
        ensures some { IfSome result (λ number. self.old ≡ self.new ++ number ∷ []) }
        ensures none { IfNone result ((self.old ≡ []) × (self.new ≡ [])) }
    {
        self.0.pop()
    }
}

/// Lists of numbers, each with a number of its own, from 0.
#[derive(Drop)]
pub struct Stacks(Vec<Stack>);

impl Model for Stacks {
    ghost use Rattle.std.specs.Prelude.{List, ℕ};

    ghost Value = { List (List ℕ) };

    ghost view = { λ s. s.0.items };
}

impl Stacks {
    /// So many empty lists. The one error is out of memory.
    pub fn new(alloc: Global, count: u32) -> Result<Stacks, OutOfMemory>
        ensures { IfOk result (λ s. s ≡ replicate count []) }
    {
        let mut lists = Vec::with_capacity(alloc, count as usize)?;
        for _ in 0..count {
            lists.push(Stack::new(alloc))?;
        }
        Ok(Stacks(lists))
    }

    /// Adds a number at the end of a list. The one error is out of memory.
    pub fn add(&mut self, list: u32, number: u32) -> Result<(), OutOfMemory>
        requires { list < length self.old }
        ensures { OnOk result (self.new ≡ with_number self.old list number) }
    {
        self.0[list as usize].add(number)
    }

    /// The numbers of a list.
    pub fn at(&self, list: u32) -> &[u32]
        requires { list < length self.now }
        ensures { result.now ≡ listed self.now list }
    {
        self.0[list as usize].as_slice()
    }

    /// Takes the last number of a list.
    pub fn take(&mut self, list: u32) -> Option<u32>
        requires { list < length self.old }
        ensures lists { self.new ≡ slice_set self.old list (listed self.new list) }
        ensures some { IfSome result (λ number. listed self.old list ≡ listed self.new list ++ number ∷ []) }
        ensures none { IfNone result ((listed self.old list ≡ []) × (listed self.new list ≡ [])) }
    {
        self.0[list as usize].take()
    }
}

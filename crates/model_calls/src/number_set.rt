//! Sets of numbers.
ghost use Rattle.std.specs.Prelude.{◌≡◌, ◌<◌, All, IfOk, Some, [], length, slice_get, slice_set, true};
ghost use Rattle.model_calls.specs.NumberSets.{IsSetOf};

use dom_base::OutOfMemory;
use std::alloc::Global;
use std::marker::Model;

/// A set of numbers below a bound, as a mark for each of them.
#[derive(Drop)]
pub struct NumberSet {
    marks: Vec<bool>,
}

impl Model for NumberSet {
    ghost use Rattle.std.specs.Prelude.{Bool, List};

    ghost Value = { List Bool };

    ghost view = { λ s. s.marks.items };
}

impl NumberSet {
    /// An empty set of numbers below this one. The one error is want of memory.
    pub fn new(alloc: Global, bound: u32) -> Result<NumberSet, OutOfMemory>
        ensures { IfOk result (IsSetOf bound []) }
    {
        let mut marks = Vec::with_capacity(alloc, bound as usize)?;
        for _ in 0..bound {
            marks.push(false)?;
        }
        Ok(NumberSet { marks })
    }

    /// The set of these numbers, which are below a bound. The one error is want of memory.
    pub fn of(alloc: Global, bound: u32, numbers: &[u32]) -> Result<NumberSet, OutOfMemory>
        requires within { All (λ number. number < bound) numbers.now }
        ensures { IfOk result (IsSetOf bound numbers.now) }
    {
        let mut set = NumberSet::new(alloc, bound)?;
        for number in numbers {
            set.insert(*number);
        }
        Ok(set)
    }

    /// Whether a number is in the set.
    pub fn contains(&self, number: u32) -> bool
        requires within { number < length self.now }
        ensures { slice_get self.now number ≡ Some result }
    {
        self.marks[number as usize]
    }

    /// Puts a number into the set.
    pub fn insert(&mut self, number: u32)
        requires within { number < length self.old }
        ensures { self.new ≡ slice_set self.old number true }
    {
        self.marks[number as usize] = true;
    }
}

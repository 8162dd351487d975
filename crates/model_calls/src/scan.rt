//! A search for the first name of a list that is wrong.
ghost use Rattle.std.specs.Prelude.{◌≡◌, IfOk, OnOk, None, [], option_copied};
ghost use Rattle.model_calls.specs.Scans.{IsLooked, IsFirstWrongName, least_with, wrong_name};

use crate::first_fault::FirstFault;
use crate::names::Names;
use dom_base::{Name, NameHash, OutOfMemory};
use std::alloc::Global;
use std::marker::Model;

/// The names of a list, each once, in order of first appearance, and the least number of one that
/// stands there twice or is wrong otherwise.
#[derive(Drop)]
pub struct Scan<'a> {
    pub names: Names<'a>,
    pub least: Option<usize>,
}

impl<'a> Model for Scan<'a> {
    ghost use Rattle.model_calls.specs.Scans.{ScanData};

    ghost Value = { ScanData };

    ghost view = { λ s. record { names = s.names; least = s.least } };
}

impl<'a> Scan<'a> {
    /// No name was looked at, and there is room for so many that differ, which are hashed so. It fails only for want of memory.
    pub fn with_room(alloc: Global, hash: NameHash, count: usize) -> Result<Scan<'a>, OutOfMemory>
        ensures names { IfOk result (λ scan. scan.names ≡ []) }
        ensures least { IfOk result (λ scan. scan.least ≡ None) }
    {
        Ok(Scan {
            names: Names::with_room(alloc, hash, count)?,
            least: None,
        })
    }

    /// Looks at the next name of the list, and is told whether it is good as such. It fails only for
    /// want of memory.
    pub fn look(&mut self, name: &'a Name, good: bool) -> Result<(), OutOfMemory>
        ensures { OnOk result (IsLooked self.old name.now good self.new) }
    {
        let (number, new) = self.names.add(name)?;
        if !(new && good) {
            self.least = Some(least_with(self.least, number));
        }
        Ok(())
    }

    /// The first name that is wrong, if there is one, with the line of its card. It fails only for
    /// want of memory.
    pub fn report(&self, line: u64) -> Result<Option<FirstFault>, OutOfMemory>
        ensures { IfOk result (IsFirstWrongName self.now line) }
    {
        match self.wrong() {
            None => Ok(None),
            Some(name) => Ok(Some(FirstFault::new(line, name)?)),
        }
    }

    /// The first name that is wrong, if there is one.
    fn wrong(&self) -> Option<&'a Name>
        ensures { option_copied result ≡ wrong_name self.now }
    {
        self.names.name(self.least?)
    }
}

/// The least of a number and of those before, if there are any.
fn least_with(least: Option<usize>, number: usize) -> usize
    ensures { result ≡ least_with least number }
{
    match least {
        None => number,
        Some(least) => least.min(number),
    }
}

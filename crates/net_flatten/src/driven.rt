//! What drives each signal, and what is read that nothing drives.
ghost use Rattle.std.specs.Prelude.{◌<◌, All, IfOk, length};
ghost use Rattle.net_flatten.specs.DriverSearches.{AreDrivers, IsFirstOutside, IsOutsideSet};
ghost use Rattle.net_flatten.specs.FoundFirst.{IsFoundFirst};
ghost use Rattle.part_numbers.specs.NumberedFaults.{IsPartWithin};

use dom_base::OutOfMemory;
use model_calls::NumberSet;
use part_numbers::NumberedPart;
use std::alloc::Global;

/// The signals that are driven, each once, or the index of the first part that drives one with an
/// earlier driver.
#[derive(Drop)]
pub enum Drivers {
    Once(NumberSet),
    Twice(usize),
}

/// Finds what is driven, by main inputs first and then by the parts. The one error is want of memory.
pub fn find_drivers(
    alloc: Global,
    signals: u32,
    inputs: &[u32],
    parts: &[NumberedPart],
) -> Result<Drivers, OutOfMemory>
    requires inputs { All (λ number. number < signals) inputs.now }
    requires parts { All (IsPartWithin signals) parts.now }
    ensures { IfOk result (AreDrivers signals inputs.now parts.now) }
{
    let mut driven = NumberSet::of(alloc, signals, inputs)?;
    for index in 0..parts.len() {
        let part = &parts[index];
        if driven.contains(part.drives) {
            return Ok(Drivers::Twice(index));
        }
        driven.insert(part.drives);
    }
    Ok(Drivers::Once(driven))
}

/// Where a part reads a signal: the index of the part, and the index among what it reads.
#[derive(Clone, Copy)]
pub struct ReadAt {
    pub part: usize,
    pub read: usize,
}

/// The index of the first of some numbers that isn't in a set.
pub fn find_outside(set: &NumberSet, numbers: &[u32]) -> Option<usize>
    requires within { All (λ number. number < length set.now) numbers.now }
    ensures { IsFoundFirst (IsOutsideSet set.now) numbers.now result }
{
    for index in 0..numbers.len() {
        if !set.contains(numbers[index]) {
            return Some(index);
        }
    }
    None
}

/// The first of all that parts read that isn't in a set.
pub fn find_read_outside(set: &NumberSet, parts: &[NumberedPart]) -> Option<ReadAt>
    requires within { All (IsPartWithin (length set.now)) parts.now }
    ensures { IsFirstOutside set.now parts.now result }
{
    for index in 0..parts.len() {
        let part = &parts[index];
        if let Some(read) = find_outside(set, part.reads.as_slice()) {
            return Some(ReadAt { part: index, read });
        }
    }
    None
}

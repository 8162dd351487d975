//! The numbers of a list, each once, and their places.
ghost use Rattle.std.specs.Prelude.{◌≡◌, ◌≢◌, ◌<◌, ◌++◌, ◌∷◌, [], Contains, IfOk, IfSome, IsFalse, IsNone, IsTrue, OnOk, Some, length, slice_get, slice_set};
ghost use Rattle.numbered_file.specs.Numbered.{named};
ghost use Rattle.local_names.specs.Places.{AreNotedOf, IsIndexed, IsNoted};

use dom_base::OutOfMemory;
use std::alloc::Global;

/// Appends the numbers of a list from the last one on, each unless it is there. `place` has for each number that is there its
/// place in the list, and may have anything for others. The one error is out of memory.
pub fn note_all(place: &mut [u32], kept: &mut Vec<u32>, numbers: &[u32]) -> Result<(), OutOfMemory>
    requires { IsIndexed kept.old.items place.old }
    ensures length { length place.new ≡ length place.old }
    ensures indexed { OnOk result (IsIndexed kept.new.items place.new) }
    ensures noted { OnOk result (AreNotedOf (length place.old) (λ names. named names numbers.now) kept.old.items kept.new.items) }
{
    let mut rest = numbers;
    'numbers: while let [before @ .., number] = rest {
        note(place, kept, *number)?;
        rest = before;
    }
    Ok(())
}

/// Appends a number, unless it is there.
pub fn note(place: &mut [u32], kept: &mut Vec<u32>, number: u32) -> Result<(), OutOfMemory>
    requires { IsIndexed kept.old.items place.old }
    ensures length { length place.new ≡ length place.old }
    ensures noted { OnOk result (IsNoted kept.old.items kept.new.items place.new number) }
{
    match item_at(place, number) {
        Some(index) if is_at(kept, index, number) => Ok(()),
        Some(_) => {
            append(place, kept, number)?;
            Ok(())
        }
        None => Err(OutOfMemory),
    }
}

/// What stands at an index of a list, if there is one.
pub fn item_at(items: &[u32], index: u32) -> Option<u32>
    ensures { result ≡ slice_get items.now index }
{
    items.get(index as usize).copied()
}

/// Appends a number that isn't there.
fn append(place: &mut [u32], kept: &mut Vec<u32>, number: u32) -> Result<(), OutOfMemory>
    requires { number < length place.old }
    ensures kept { OnOk result (kept.new.items ≡ kept.old.items ++ number ∷ []) }
    ensures place { OnOk result (place.new ≡ slice_set place.old number (length kept.old.items)) }
    ensures length { length place.new ≡ length place.old }
{
    let index = match u32::try_from(kept.len()) {
        Ok(index) => index,
        Err(_) => return Err(OutOfMemory),
    };
    kept.push(number)?;
    place[number as usize] = index;
    Ok(())
}

/// Whether a number stands at this index.
pub fn is_at(numbers: &[u32], index: u32, number: u32) -> bool
    ensures yes { IsTrue result → slice_get numbers.now index ≡ Some number }
    ensures no { IsFalse result → slice_get numbers.now index ≢ Some number }
{
    match numbers.get(index as usize) {
        Some(other) => *other == number,
        None => false,
    }
}

/// The first index at which a number stands, if it stands in the list.
pub fn first_index(numbers: &[u32], number: u32) -> Option<usize>
    ensures found { IfSome result (λ index. slice_get numbers.now index ≡ Some number) }
    ensures none { IsNone result → Contains numbers.now number → ⊥ }
{
    for index in 0..numbers.len() {
        if number_at(numbers, index) == number {
            return Some(index);
        }
    }
    None
}

/// The number at an index.
fn number_at(numbers: &[u32], index: usize) -> u32
    requires { index < length numbers.now }
    ensures { slice_get numbers.now index ≡ Some result }
{
    numbers[index]
}

/// Writes for each of these numbers its place in the list.
pub fn index(place: &mut [u32], numbers: &[u32])
    ensures { length place.new ≡ length place.old }
{
    let mut next: u32 = 0;
    for number in numbers {
        if let Some(slot) = place.get_mut(*number as usize) {
            *slot = next;
        }
        next = next.saturating_add(1);
    }
}

/// As many zeros.
pub fn zeros(alloc: Global, count: usize) -> Result<Vec<u32>, OutOfMemory>
    ensures { IfOk result (λ v. length v.items ≡ count) }
{
    Ok(vec![in alloc; 0_u32; count]?)
}

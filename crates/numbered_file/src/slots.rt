//! Slots, in which names are found by their letters.
ghost use Rattle.std.specs.Prelude.{◌≡◌, ◌≢◌, ◌∷◌, [], IsFalse, IsTrue, Some, length, slice_get};
ghost use Rattle.numbered_file.specs.Slots.{first_slot, letters_mark, second_slot, slots_of, IsLookup};

use crate::word::Word;
use dom_base::is_same;

/// What its two slots say of a name: that it is the one of this number, that no slot has it, since this one is free, or
/// nothing, since other names have both.
#[derive(Clone, Copy, Debug)]
pub enum Lookup {
    Known(u32),
    Free(usize),
    Taken,
}

/// Looks for a name in its two slots. Each slot has the number of a name and one more, or 0 where it is free.
pub fn look_up(names: &[Word<'_>], slots: &[u32], name: &[u8]) -> Lookup
    ensures { IsLookup names.now slots.now name.now (slots_of (length slots.now) name.now) result }
{
    let mark = letters_mark(name);
    match look_in(names, slots, first_slot(slots.len(), mark), name) {
        Lookup::Taken => look_in(names, slots, second_slot(slots.len(), mark), name),
        lookup => lookup,
    }
}

/// Looks for a name in one slot.
fn look_in(names: &[Word<'_>], slots: &[u32], slot: usize, name: &[u8]) -> Lookup
    ensures { IsLookup names.now slots.now name.now (slot ∷ []) result }
{
    match number_at(slots, slot) {
        None => Lookup::Taken,
        Some(0) => Lookup::Free(slot),
        Some(next) => {
            if has_number(names, next - 1, name) {
                Lookup::Known(next - 1)
            } else {
                Lookup::Taken
            }
        }
    }
}

/// What stands at an index of a list, if there is one.
pub fn number_at(numbers: &[u32], index: usize) -> Option<u32>
    ensures { result ≡ slice_get numbers.now index }
{
    numbers.get(index).copied()
}

/// Whether this is the name of a number.
fn has_number(names: &[Word<'_>], number: u32, name: &[u8]) -> bool
    ensures yes { IsTrue result → slice_get names.now number ≡ Some name.now }
    ensures no { IsFalse result → slice_get names.now number ≢ Some name.now }
{
    match names.get(number as usize) {
        Some(known) => is_same(known.0, name),
        None => false,
    }
}

/// A number out of all letters, as digits of base 75, modulo 2^64: names that differ in the last letter alone have first slots
/// near each other.
fn letters_mark(name: &[u8]) -> usize
    ensures { result ≡ letters_mark name.now }
{
    let mut mark: usize = 0;
    for letter in name {
        mark = mark.wrapping_mul(75).wrapping_add(*letter as usize);
    }
    mark
}

/// Of so many slots the first of a mark.
fn first_slot(count: usize, mark: usize) -> usize
    ensures { result ≡ first_slot count mark }
{
    mark & count.saturating_sub(1)
}

/// Of so many slots the second of a mark, which lies anywhere.
fn second_slot(count: usize, mark: usize) -> usize
    ensures { result ≡ second_slot count mark }
{
    (mark.wrapping_mul(0x9e37_79b9_7f4a_7c15) >> 32) & count.saturating_sub(1)
}

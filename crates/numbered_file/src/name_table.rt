//! The names of a text by numbers, as long as more may come.
ghost use Rattle.std.specs.Prelude.{◌≡◌, ◌⊎◌, ◌<◌, ◌+◌, ◌∷◌, ◌++◌, [], IfOk, None, OnErr, OnOk, Some, length, slice_get, slice_set};
ghost use Rattle.std.specs.List.{IsDistinct};
ghost use Rattle.blif_ast.specs.Cards.{same};
ghost use Rattle.numbered_file.specs.NameNumbers.{AddsAtMost, Grows};
ghost use Rattle.numbered_file.specs.Slots.{AreFound, AreNumbered, HasAsked, IsTable, OthersGrow};

use crate::names::Names;
use crate::others::Others;
use crate::slots::{Lookup, look_up};
use crate::word::Word;
use dom_base::{NameHash, OutOfMemory};
use std::alloc::Global;
use std::marker::Model;

/// At first there is a slot for so many bytes of the text.
const BYTES: usize = 16;

/// The fewest slots.
const FEW: usize = 1024;

/// Names that differ, in the order in which they were first seen: a name's number is its index. Each is a part of the text.
/// A name is found by its letters: in one of two `slots`, or where other names had both when it came, among the `others`. At
/// most half of the slots are taken. `bytes` is the length of the text.
#[derive(Drop)]
pub struct NameTable<'t> {
    names: Vec<Word<'t>>,
    slots: Vec<u32>,
    others: Others<'t>,
    bytes: usize,
}

impl<'t> Model for NameTable<'t> {
    ghost use Rattle.std.specs.Prelude.{List, ℕ};
    ghost use Rattle.numbered_file.specs.Slots.{IsTable};

    ghost Value = { List (List ℕ) };

    ghost view = { λ t. t.names.items };

    ghost invariant = { λ t. IsTable t.names.items t.slots.items t.others };
}

impl<'t> NameTable<'t> {
    /// No names yet, of a text of so many bytes, which are to be hashed so.
    pub fn new(alloc: Global, hash: NameHash, bytes: usize) -> NameTable<'t>
        ensures { result ≡ [] }
    {
        NameTable {
            names: Vec::new(alloc),
            slots: Vec::new(alloc),
            others: Others::new(alloc, hash),
            bytes,
        }
    }

    /// Whether so many names met that they are to be hashed with a key.
    pub fn are_crowded(&self) -> bool {
        self.others.are_crowded()
    }

    /// The number of a name, which is added where it is new. The one error is out of memory, or names that are crowded.
    pub fn number(&mut self, name: &'t [u8]) -> Result<u32, OutOfMemory>
        ensures grown { Grows self.old self.new }
        ensures one { AddsAtMost name.now self.old self.new }
        ensures number { IfOk result (λ number. slice_get self.new number ≡ Some name.now) }
        ensures distinct { IsDistinct same self.new }
    {
        if self.slots.len() / 2 <= self.names.len() {
            self.make_room()?;
        }
        number_in(&mut self.names, &mut self.slots, &mut self.others, name)
    }

    /// Makes more than twice as many slots as there are names, and gives each name a slot anew, or puts it among the others. The one error is out of memory, or names
    /// that are crowded.
    fn make_room(&mut self) -> Result<(), OutOfMemory>
        ensures { self.new ≡ self.old }
    {
        let count = slots_for(self.names.len(), self.bytes);
        let mut slots = vec![in *self.names.allocator(); 0_u32; count]?;
        for number in 0..self.names.len() {
            find_anew(&self.names, &mut slots, &mut self.others, number)?;
        }
        self.slots = slots;
        Ok(())
    }

    /// The names alone, once no more come.
    pub fn into_names(self) -> Names<'t>
        ensures { result ≡ self.entry }
    {
        let NameTable { names, .. } = self;
        Names { names }
    }
}

/// The number of a name in a table, to which it is added where it is new. The one error is out of memory, or names that are
/// crowded.
fn number_in<'t>(
    names: &mut Vec<Word<'t>>,
    slots: &mut Vec<u32>,
    others: &mut Others<'t>,
    name: &'t [u8],
) -> Result<u32, OutOfMemory>
    requires { IsTable names.old.items slots.old.items others.old }
    ensures table { IsTable names.new.items slots.new.items others.new }
    ensures one { AddsAtMost name.now names.old.items names.new.items }
    ensures number { IfOk result (λ number. slice_get names.new.items number ≡ Some name.now) }
{
    match look_up(names, slots, name) {
        Lookup::Known(number) => Ok(number),
        Lookup::Free(slot) => add(names, slots, name, slot),
        Lookup::Taken => number_beside(names, others, name),
    }
}

/// Adds a name and writes its number to a slot, which is free. The one error is out of memory; it adds nothing.
fn add<'t>(
    names: &mut Vec<Word<'t>>,
    slots: &mut Vec<u32>,
    name: &'t [u8],
    slot: usize,
) -> Result<u32, OutOfMemory>
    requires { slot < length slots.old.items }
    ensures number { IfOk result (λ number. number ≡ length names.old.items) }
    ensures names { OnOk result (names.new.items ≡ names.old.items ++ name.now ∷ []) }
    ensures slots { OnOk result (slots.new.items ≡ slice_set slots.old.items slot (length names.old.items + 1)) }
    ensures kept_names { OnErr result (names.new.items ≡ names.old.items) }
    ensures kept_slots { OnErr result (slots.new.items ≡ slots.old.items) }
{
    let number = as_u32(names.len())?;
    let next = as_u32(names.len() + 1)?;
    names.push(Word(name))?;
    fill(slots, slot, next);
    Ok(number)
}

/// Writes a number to a slot.
fn fill(slots: &mut [u32], slot: usize, number: u32)
    requires { slot < length slots.old }
    ensures { slots.new ≡ slice_set slots.old slot number }
{
    slots[slot] = number;
}

/// The number of a name that has no slot. Where it is none of the others it is added, also to them. The one error is out of
/// memory, or names that are crowded; it adds nothing.
fn number_beside<'t>(
    names: &mut Vec<Word<'t>>,
    others: &mut Others<'t>,
    name: &'t [u8],
) -> Result<u32, OutOfMemory>
    ensures number { IfOk result (λ number.
        ((names.new.items ≡ names.old.items) × HasAsked others.old name.now (length names.old.items) (Some number) others.new)
        ⊎ ((number ≡ length names.old.items) × (names.new.items ≡ names.old.items ++ name.now ∷ [])
        × HasAsked others.old name.now (length names.old.items) None others.new)) }
    ensures even { OnOk result (length others.old.numbers ≡ length others.old.names) }
    ensures kept_names { OnErr result (names.new.items ≡ names.old.items) }
    ensures kept_others { OnErr result (others.new ≡ others.old) }
{
    let next = as_u32(names.len())?;
    names.reserve(1)?;
    match others.number(name, next)? {
        Some(number) => Ok(number),
        None => {
            names.push_reserved(Word(name));
            Ok(next)
        }
    }
}

/// How many slots are made for so many names, in a text of so many bytes: a power of two.
fn slots_for(names: usize, bytes: usize) -> usize {
    names
        .saturating_add(1)
        .saturating_mul(2)
        .max(bytes / BYTES)
        .max(FEW)
        .checked_next_power_of_two()
        .unwrap_or(FEW)
}

/// Gives the name of a number a free slot, or puts it among the others. The one error is out of memory, or names that are
/// crowded.
fn find_anew<'t>(
    names: &[Word<'t>],
    slots: &mut [u32],
    others: &mut Others<'t>,
    number: usize,
) -> Result<(), OutOfMemory>
    requires number { number < length names.now }
    requires distinct { IsDistinct same names.now }
    requires numbered { AreNumbered names.now others.old }
    requires found { AreFound names.now slots.old others.old number }
    ensures numbered { AreNumbered names.now others.new }
    ensures grown { OthersGrow others.old others.new }
    ensures found { OnOk result (AreFound names.now slots.new others.new (number + 1)) }
{
    let word = &names[number];
    let name = word.0;
    match look_up(names, slots, name) {
        Lookup::Known(_) => {}
        Lookup::Free(slot) => fill(slots, slot, as_u32(number + 1)?),
        Lookup::Taken => {
            others.number(name, as_u32(number)?)?;
        }
    }
    Ok(())
}

/// A number in 32 bits. The one error is out of memory: there is no room for more.
pub fn as_u32(number: usize) -> Result<u32, OutOfMemory>
    ensures { IfOk result (λ n. n ≡ number) }
{
    match u32::try_from(number) {
        Ok(number) => Ok(number),
        Err(_) => Err(OutOfMemory),
    }
}

//! The places of the words of all parts among the names of their models.
ghost use Rattle.std.specs.Prelude.{◌≡◌, ◌<◌, ◌+◌, [], Contains, IfOk, IfNone, IfSome, IsFalse, IsTrue, OnOk, Some, length, slice_get, slice_index_or};
ghost use Rattle.numbered_file.specs.Places.{first_part, words_at};
ghost use Rattle.local_names.specs.LostFormals.{HasLostFormal, IsFormalLost, IsPartLost};
ghost use Rattle.local_names.specs.Placed.{AreWordsPlaced, HasBindings, IsPartPlaced, IsPlaced};
ghost use Rattle.local_names.specs.Units.{AreUnits};

use crate::distinct::{first_index, is_at, item_at};
use crate::model_numbers::{behind_first, part_at, parts_end};
use card_places::NumberLists;
use dom_base::OutOfMemory;
use numbered_file::{NumberedFile, PartAt, PartKind, as_u32};

/// What the words of a file are looked up in: the numbers of the names of all models, for each instance the number of its
/// model, and for each word a place at which a formal is looked for first, where there are instances.
#[derive(Clone, Copy)]
pub struct Lookup<'a> {
    pub models: &'a NumberLists,
    pub units: &'a [u32],
    pub hints: &'a [u32],
}

/// Appends the places of the words of a model's parts, where `place` has at each of the model's names its place among them.
/// It answers whether all formals have places.
pub fn put_parts(
    words: &mut Vec<u32>,
    file: &NumberedFile<'_>,
    lookup: Lookup<'_>,
    model: usize,
    place: &[u32],
) -> Result<bool, OutOfMemory>
    requires within { model < length file.now.models }
    requires units { AreUnits file.now lookup.units.now }
    requires before { AreWordsPlaced file.now lookup.models.now.lists (first_part file.now model) words.old.items }
    ensures placed { IfOk result (λ good. IsTrue good
        → AreWordsPlaced file.now lookup.entry.models.now.lists (first_part file.now (model + 1)) words.new.items) }
    ensures lost { IfOk result (λ good. IsFalse good → HasLostFormal file.now lookup.entry.models.now.lists) }
{
    file.is_in_order();
    let names = lookup.models.at(model);
    let first = file.first_part(model);
    let end = parts_end(file, model);
    for part in first..end {
        if !put_part(words, file, lookup, names, part, place)? {
            return Ok(false);
        }
    }
    Ok(true)
}

/// The same for one part of a model with these names.
fn put_part(
    words: &mut Vec<u32>,
    file: &NumberedFile<'_>,
    lookup: Lookup<'_>,
    names: &[u32],
    part: usize,
    place: &[u32],
) -> Result<bool, OutOfMemory>
    ensures placed { IfOk result (λ good. IsTrue good → (at : PartAt) × (slice_get file.now.parts part ≡ Some at)
        × IsPartPlaced at.kind names.now
        (slice_index_or lookup.entry.models.now.lists (slice_index_or lookup.entry.units.now part 0) [])
        (words_at file.now part) words.old.items words.new.items) }
    ensures lost { IfOk result (λ good. IsFalse good → (at : PartAt) × (slice_get file.now.parts part ≡ Some at)
        × IsPartLost at.kind (slice_index_or lookup.entry.models.now.lists (slice_index_or lookup.entry.units.now part 0) [])
        (words_at file.now part)) }
{
    let Some(at) = part_at(file, part) else {
        return Err(OutOfMemory);
    };
    match at.kind {
        PartKind::Instance => put_instance_at(words, file, lookup, names, part, place),
        _ => {
            put_words(words, names, place, file.words_of(part))?;
            Ok(true)
        }
    }
}

/// The same for a part that is an instance.
fn put_instance_at(
    all: &mut Vec<u32>,
    file: &NumberedFile<'_>,
    lookup: Lookup<'_>,
    names: &[u32],
    part: usize,
    place: &[u32],
) -> Result<bool, OutOfMemory>
    ensures placed { IfOk result (λ good. IsTrue good → IsPartPlaced PartKind.Instance names.now
        (slice_index_or lookup.entry.models.now.lists (slice_index_or lookup.entry.units.now part 0) [])
        (words_at file.now part) all.old.items all.new.items) }
    ensures lost { IfOk result (λ good. IsFalse good → IsPartLost PartKind.Instance
        (slice_index_or lookup.entry.models.now.lists (slice_index_or lookup.entry.units.now part 0) [])
        (words_at file.now part)) }
{
    let words = file.words_of(part);
    if words.len() == 1 {
        all.push(0)?;
        return Ok(true);
    }
    let unit = lookup.units.get(part).copied().unwrap_or(0);
    let unit_names = lookup.models.list(unit);
    let hints = file.of_part(lookup.hints, part);
    put_instance(all, words, hints, names, unit_names, place)
}

/// Appends the places of some numbers, which `place` has.
pub fn put_words(
    all: &mut Vec<u32>,
    names: &[u32],
    place: &[u32],
    numbers: &[u32],
) -> Result<(), OutOfMemory>
    ensures { OnOk result (IsPlaced names.now numbers.now all.old.items all.new.items) }
{
    for number in numbers {
        let index = own_index(names, place, *number)?;
        all.push(index)?;
    }
    Ok(())
}

/// The index of a number among some names, which `place` has.
fn own_index(names: &[u32], place: &[u32], number: u32) -> Result<u32, OutOfMemory>
    ensures { IfOk result (λ index. slice_get names.now index ≡ Some number) }
{
    match item_at(place, number) {
        Some(index) if is_at(names, index, number) => Ok(index),
        _ => Err(OutOfMemory),
    }
}

/// The index of a number among some names, if it is one of them: this one, if it stands there, and else the first at which it
/// stands.
fn index_from(names: &[u32], hint: u32, number: u32) -> Result<Option<u32>, OutOfMemory>
    ensures found { IfOk result (λ found. IfSome found (λ index. slice_get names.now index ≡ Some number)) }
    ensures none { IfOk result (λ found. IfNone found (Contains names.now number → ⊥)) }
{
    if is_at(names, hint, number) {
        return Ok(Some(hint));
    }
    match first_index(names, number) {
        Some(index) => Ok(Some(as_u32(index)?)),
        None => Ok(None),
    }
}

/// The same for the words of an instance.
fn put_instance(
    all: &mut Vec<u32>,
    words: &[u32],
    hints: &[u32],
    names: &[u32],
    unit_names: &[u32],
    place: &[u32],
) -> Result<bool, OutOfMemory>
    ensures placed { IfOk result (λ good. IsTrue good
        → IsPartPlaced PartKind.Instance names.now unit_names.now words.now all.old.items all.new.items) }
    ensures lost { IfOk result (λ good. IsFalse good → IsPartLost PartKind.Instance unit_names.now words.now) }
{
    if words.is_empty() {
        return Ok(true);
    }
    all.push(0)?;
    put_bindings(all, behind_first(words), hints, names, unit_names, place)
}

/// The same for the formals and actuals of an instance. The hints are those of all words of the instance.
fn put_bindings(
    all: &mut Vec<u32>,
    words: &[u32],
    hints: &[u32],
    names: &[u32],
    unit_names: &[u32],
    place: &[u32],
) -> Result<bool, OutOfMemory>
    ensures placed { IfOk result (λ good. IsTrue good
        → HasBindings unit_names.now names.now words.now all.old.items all.new.items) }
    ensures lost { IfOk result (λ good. IsFalse good → IsFormalLost unit_names.now words.now) }
{
    let mut rest = words;
    let mut at: usize = 1;
    'bindings: while let [formal, actual, more @ ..] = rest {
        let hint = hints.get(at).copied().unwrap_or(0);
        let Some(unit_index) = index_from(unit_names, hint, *formal)? else {
            return Ok(false);
        };
        let index = own_index(names, place, *actual)?;
        all.push(unit_index)?;
        all.push(index)?;
        at = at.saturating_add(2);
        rest = more;
    }
    if !rest.is_empty() {
        all.push(0)?;
    }
    Ok(true)
}

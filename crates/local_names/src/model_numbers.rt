//! The names on the cards of a model by their numbers, each once.
ghost use Rattle.std.specs.Prelude.{◌≡◌, ◌<◌, ◌+◌, ℕ, List, IsTrue, OnOk, drop, length, slice_get, true};
ghost use Rattle.std.specs.List.{flat_map};
ghost use Rattle.numbered_file.specs.Numbered.{between, named, part_by, parts_of};
ghost use Rattle.numbered_file.specs.Places.{first_part, words_at};
ghost use Rattle.local_names.specs.PartNames.{IsLatchForm, actuals_by, names_by};
ghost use Rattle.local_names.specs.Places.{AreNoted, AreNotedOf, IsIndexed};

use crate::distinct::{note, note_all};
use dom_base::OutOfMemory;
use numbered_file::{NumberedFile, PartAt, PartKind};

/// A kind of card.
#[derive(Clone, Copy, Debug)]
pub enum CardKind {
    Table,
    Latch,
    Instance,
}

/// Appends to `kept` the numbers of the names on the cards of one kind from a place up to another, each unless it is there, from
/// the last one on. `place` has for each number that is there its place in the list. The one error is out of memory; a card that
/// is not in its form, which no reader makes, is answered by it too.
pub fn note_kind(
    place: &mut [u32],
    kept: &mut Vec<u32>,
    file: &NumberedFile<'_>,
    first: usize,
    end: usize,
    kind: CardKind,
) -> Result<(), OutOfMemory>
    requires places { length place.old ≡ length file.now.names }
    requires indexed { IsIndexed kept.old.items place.old }
    ensures length { length place.new ≡ length place.old }
    ensures indexed { OnOk result (IsIndexed kept.new.items place.new) }
    ensures noted { OnOk result (AreNoted file.now.names (flat_map (names_by kind) (between first end (parts_of file.now)))
        kept.old.items kept.new.items) }
{
    file.is_in_order();
    for index in (first..end).rev() {
        match part_at(file, index) {
            Some(part) => note_part(place, kept, file, index, part.kind, kind)?,
            None => return Err(OutOfMemory),
        }
    }
    Ok(())
}

/// The part at a place, if there is one.
pub fn part_at(file: &NumberedFile<'_>, place: usize) -> Option<PartAt>
    ensures { result ≡ slice_get file.now.parts place }
{
    file.parts().get(place).copied()
}

/// Where the parts of a model end: where those of the next model begin.
pub fn parts_end(file: &NumberedFile<'_>, model: usize) -> usize
    requires { model < length file.now.models }
    ensures { result ≡ first_part file.now (model + 1) }
{
    if model < file.models().len() {
        file.first_part(model + 1)
    } else {
        unreachable!()
    }
}

/// The same for the card of a part, where it is of this kind.
fn note_part(
    place: &mut [u32],
    kept: &mut Vec<u32>,
    file: &NumberedFile<'_>,
    index: usize,
    part: PartKind,
    kind: CardKind,
) -> Result<(), OutOfMemory>
    requires { IsIndexed kept.old.items place.old }
    ensures length { length place.new ≡ length place.old }
    ensures indexed { OnOk result (IsIndexed kept.new.items place.new) }
    ensures noted { OnOk result ((text : List ℕ) (line : ℕ) (rows : List ℕ) → AreNotedOf (length place.old)
        (λ names. names_by kind (part_by text part line (named names (words_at file.now index)) rows)) kept.old.items kept.new.items) }
{
    match (kind, part) {
        (CardKind::Table, PartKind::Table { .. }) => {
            let words = file.words_of(index);
            note_words(place, kept, words, !words.is_empty())
        }
        (CardKind::Latch, PartKind::Latch { edge, .. }) => {
            note_latch(place, kept, file.words_of(index), edge.is_some())
        }
        (CardKind::Instance, PartKind::Instance) => {
            note_actuals(place, kept, file.words_of(index))
        }
        _ => Ok(()),
    }
}

/// The same for the words of a card, which is in its form.
fn note_words(
    place: &mut [u32],
    kept: &mut Vec<u32>,
    words: &[u32],
    good: bool,
) -> Result<(), OutOfMemory>
    requires { IsIndexed kept.old.items place.old }
    ensures length { length place.new ≡ length place.old }
    ensures good { OnOk result (good ≡ true) }
    ensures indexed { OnOk result (IsIndexed kept.new.items place.new) }
    ensures noted { OnOk result (AreNotedOf (length place.old) (λ names. named names words.now) kept.old.items kept.new.items) }
{
    if !good {
        return Err(OutOfMemory);
    }
    note_all(place, kept, words)
}

/// The same for the words of a latch, which is in its form.
fn note_latch(
    place: &mut [u32],
    kept: &mut Vec<u32>,
    words: &[u32],
    has_edge: bool,
) -> Result<(), OutOfMemory>
    requires { IsIndexed kept.old.items place.old }
    ensures length { length place.new ≡ length place.old }
    ensures form { OnOk result (IsLatchForm (length words.now) has_edge) }
    ensures indexed { OnOk result (IsIndexed kept.new.items place.new) }
    ensures noted { OnOk result (AreNotedOf (length place.old) (λ names. named names words.now) kept.old.items kept.new.items) }
{
    note_words(place, kept, words, is_latch(words, has_edge))
}

/// Whether these are the words of a latch: two, and a third only where it has an edge.
fn is_latch(words: &[u32], has_edge: bool) -> bool
    ensures { IsTrue result → IsLatchForm (length words.now) has_edge }
{
    words.len() == 2 || (words.len() == 3 && has_edge)
}

/// The same for the actuals of an instance.
fn note_actuals(place: &mut [u32], kept: &mut Vec<u32>, words: &[u32]) -> Result<(), OutOfMemory>
    requires { IsIndexed kept.old.items place.old }
    ensures length { length place.new ≡ length place.old }
    ensures indexed { OnOk result (IsIndexed kept.new.items place.new) }
    ensures noted { OnOk result (AreNotedOf (length place.old) (λ names. actuals_by (named names (drop 1 words.now))) kept.old.items kept.new.items) }
{
    let bindings = behind_first(words);
    for index in (0..bindings.len() / 2).rev() {
        note(place, kept, bindings[2 * index + 1])?;
    }
    Ok(())
}

/// All numbers but the first.
pub fn behind_first(numbers: &[u32]) -> &[u32]
    ensures { result.now ≡ drop 1 numbers.now }
{
    match numbers {
        [_, more @ ..] => more,
        [] => numbers,
    }
}

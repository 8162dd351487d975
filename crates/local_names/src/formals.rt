//! Where the formals of all instances stand among the names of the instances' models, as far as they do.
ghost use Rattle.std.specs.Prelude.{◌≡◌, length};

use crate::distinct::{index, item_at, zeros};
use card_places::NumberLists;
use dom_base::OutOfMemory;
use numbered_file::{NumberedFile, PartAt, PartKind};
use std::alloc::Global;

/// For each word of a file a place: that of a formal among the names of its instance's model, where it is one of them. It is where a
/// formal is looked for first, so no contract says that it is right.
pub fn formal_hints(
    alloc: Global,
    file: &NumberedFile<'_>,
    units: &[u32],
    models: &NumberLists,
    place: &mut [u32],
) -> Result<Vec<u32>, OutOfMemory>
    ensures { length place.new ≡ length place.old }
{
    if !has_formals(file.parts()) {
        return Ok(Vec::new(alloc));
    }
    let count = file.models().len();
    let chains = Chains::of_file(alloc, file.parts(), units, count)?;
    let mut hints = zeros(alloc, file.words().len())?;
    for unit in 0..count {
        let first = chains.first(unit);
        if first != NO_PART {
            index(place, models.at(unit));
            chains.note_formals(file, first, place, &mut hints);
        }
    }
    Ok(hints)
}

/// Whether an instance binds formals.
fn has_formals(parts: &[PartAt]) -> bool {
    let mut start = 0;
    for part in parts {
        if binds(*part, start) {
            return true;
        }
        start = part.words_end;
    }
    false
}

/// Whether a part whose words begin at this place is an instance that binds formals.
fn binds(part: PartAt, start: u32) -> bool {
    match part.kind {
        PartKind::Instance => part.words_end.saturating_sub(start) > 1,
        _ => false,
    }
}

/// The end of a chain.
const NO_PART: u32 = u32::MAX;

/// The instances of each model that bind formals, as chains: for each model its last instance, and for each instance the one before it.
#[derive(Drop)]
struct Chains {
    heads: Vec<u32>,
    next: Vec<u32>,
}

impl Chains {
    fn of_file(
        alloc: Global,
        parts: &[PartAt],
        units: &[u32],
        models: usize,
    ) -> Result<Chains, OutOfMemory> {
        let mut chains = Chains {
            heads: vec![in alloc; NO_PART; models]?,
            next: Vec::with_capacity(alloc, parts.len())?,
        };
        let mut start = 0;
        for place in 0..parts.len() {
            let part = parts[place];
            let before = if binds(part, start) {
                chains.put(place, units)
            } else {
                NO_PART
            };
            chains.next.push(before)?;
            start = part.words_end;
        }
        Ok(chains)
    }

    /// Puts an instance in front of its model's chain. It gives the one that stood there.
    fn put(&mut self, place: usize, units: &[u32]) -> u32 {
        let unit = units.get(place).copied().unwrap_or(NO_PART);
        let Some(head) = self.heads.get_mut(unit as usize) else {
            return NO_PART;
        };
        let before = *head;
        *head = u32::try_from(place).unwrap_or(NO_PART);
        before
    }

    fn first(&self, unit: usize) -> u32 {
        self.heads.get(unit).copied().unwrap_or(NO_PART)
    }

    /// Notes the places of the formals of all instances of a chain.
    fn note_formals(
        &self,
        file: &NumberedFile<'_>,
        first: u32,
        place: &[u32],
        hints: &mut Vec<u32>,
    ) {
        let mut part = first;
        for _ in 0..self.next.len() {
            let Some(next) = self.next.get(part as usize).copied() else {
                return;
            };
            note_words(
                file.words_of(part as usize),
                place,
                file.first_word(part as usize),
                hints,
            );
            part = next;
        }
    }
}

/// Notes the places of some words, which stand from this index on.
fn note_words(words: &[u32], place: &[u32], first: usize, hints: &mut Vec<u32>) {
    let mut at = first;
    for word in words {
        if let Some(slot) = hints.get_mut(at) {
            *slot = item_at(place, *word).unwrap_or(0);
        }
        at = at.saturating_add(1);
    }
}

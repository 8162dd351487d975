//! The tables and latches of a file, with a number in place of each signal.
ghost use Rattle.std.specs.Prelude.{◌≡◌, ◌-◌, ◌<◌, Bool, IfOk, IsSome, Some, ℕ, length, map, option_and_then, slice_get};
ghost use Rattle.std.specs.List.{AllByRecursion};
ghost use Rattle.blif_ast.specs.Good.{IsGoodFile};
ghost use Rattle.numbered_file.specs.Numbered.{file_of};
ghost use Rattle.numbered_file.specs.declared.parts.PartKind.TheVariants as at;
ghost use Rattle.card_places.specs.CardPlaces.{AreCardPlaces};
ghost use Rattle.local_names.specs.LocalNames.{AreLocalNames};
ghost use Rattle.numbered_signals.specs.PartRoots.{part_of_roots, card_place};
ghost use Rattle.numbered_signals.specs.ScopeRoots.{HasRoot, local_root, signals_with};
ghost use Rattle.part_numbers.specs.PartNumbers.{IsNumberedPart, part_by_numbers};

use crate::roots::ScopeRoots;
use blif_ast::Edge2;
use card_places::CardPlaces;
use dom_base::OutOfMemory;
use local_names::LocalNames;
use network::Reads;
use numbered_file::{NumberedFile, PartAt, PartKind};
use part_numbers::{NumberedPart, PartCard, ScopedPart};
use std::alloc::Global;

fn number_table(
    alloc: Global,
    roots: &ScopeRoots,
    part: ScopedPart,
    words: &[u32],
) -> Result<NumberedPart, OutOfMemory>
    requires there { AllByRecursion (HasRoot roots.now part.scope) words.now }
    ensures { (on : Bool) → IfOk result (λ numbered. numbered
        ≡ part_of_roots part (at.Table on) (map (local_root roots.now part.scope) words.now)) }
{
    let inputs = words.len().saturating_sub(1);
    Ok(NumberedPart {
        model: part.model,
        card: part.card,
        reads: roots.reads_of(alloc, part.scope, &words[..inputs])?,
        drives: roots.root_at(part.scope, words, inputs),
        control: None,
    })
}

/// The number of the signal that controls a latch, if there is one.
fn number_control(
    roots: &ScopeRoots,
    scope: usize,
    edge: Option<Edge2>,
    words: &[u32],
) -> Option<u32>
    requires there { AllByRecursion (HasRoot roots.now scope) words.now }
    ensures { result ≡ option_and_then (λ e. slice_get (map (local_root roots.now scope) words.now) 2) edge }
{
    match edge {
        Some(_) => roots.some_root(scope, words, 2),
        None => None,
    }
}

fn number_latch(
    alloc: Global,
    roots: &ScopeRoots,
    part: ScopedPart,
    edge: Option<Edge2>,
    words: &[u32],
) -> Result<NumberedPart, OutOfMemory>
    requires there { AllByRecursion (HasRoot roots.now part.scope) words.now }
    ensures { (init : ℕ) → IfOk result (λ numbered. numbered
        ≡ part_of_roots part (at.Latch edge init) (map (local_root roots.now part.scope) words.now)) }
{
    let mut reads = Reads::new(alloc);
    reads.push(roots.root_at(part.scope, words, 0))?;
    Ok(NumberedPart {
        model: part.model,
        card: part.card,
        reads,
        drives: roots.root_at(part.scope, words, 1),
        control: number_control(roots, part.scope, edge, words),
    })
}

/// A part by the places of its words among the names of its model.
fn number_words(
    alloc: Global,
    roots: &ScopeRoots,
    part: ScopedPart,
    kind: PartKind,
    words: &[u32],
) -> Result<NumberedPart, OutOfMemory>
    requires there { AllByRecursion (HasRoot roots.now part.scope) words.now }
    ensures { IfOk result (λ numbered. numbered ≡ part_of_roots part kind (map (local_root roots.now part.scope) words.now)) }
{
    match kind {
        PartKind::Table { .. } => number_table(alloc, roots, part, words),
        PartKind::Latch { edge, .. } => number_latch(alloc, roots, part, edge, words),
        PartKind::Instance => Ok(NumberedPart {
            model: part.model,
            card: part.card,
            reads: Reads::new(alloc),
            drives: 0,
            control: None,
        }),
    }
}

/// The place of a card of a model among the parts of the file.
fn card_place(places: &CardPlaces, model: u32, card: PartCard) -> u32
    requires there { IsSome (card_place places.now model card) }
    ensures { card_place places.now model card ≡ Some result }
{
    match card {
        PartCard::Table(index) => places.table(model, index),
        PartCard::Latch(index) => places.latch(model, index),
    }
}

fn part_at(file: &NumberedFile<'_>, place: u32) -> PartAt
    requires within { place < length file.now.parts }
    ensures { slice_get file.now.parts place ≡ Some result }
{
    file.parts()[place as usize]
}

fn number_part(
    alloc: Global,
    file: &NumberedFile<'_>,
    places: &CardPlaces,
    names: &LocalNames,
    roots: &ScopeRoots,
    part: ScopedPart,
) -> Result<NumberedPart, OutOfMemory>
    requires good { IsGoodFile (file_of file.now) }
    requires places { AreCardPlaces file.now places.now }
    requires names { AreLocalNames file.now names.now }
    requires numbered { IsNumberedPart (file_of file.now) (signals_with file.now roots.now) part }
    ensures { IfOk result (λ numbered. numbered ≡ part_by_numbers (file_of file.now) (signals_with file.now roots.now) part) }
{
    let place = card_place(places, part.model, part.card);
    let at = part_at(file, place);
    let words = file.of_part(names.words(), place as usize);
    number_words(alloc, roots, part, at.kind, words)
}

/// These tables and latches by numbers. It fails only for want of memory.
pub fn number_parts(
    alloc: Global,
    file: &NumberedFile<'_>,
    places: &CardPlaces,
    names: &LocalNames,
    roots: &ScopeRoots,
    parts: &[ScopedPart],
) -> Result<Vec<NumberedPart>, OutOfMemory>
    requires good { IsGoodFile (file_of file.now) }
    requires places { AreCardPlaces file.now places.now }
    requires names { AreLocalNames file.now names.now }
    requires numbered { AllByRecursion (IsNumberedPart (file_of file.now) (signals_with file.now roots.now)) parts.now }
    ensures { IfOk result (λ all. all.items ≡ map (part_by_numbers (file_of file.now) (signals_with file.now roots.now)) parts.now) }
{
    let mut all = Vec::with_capacity(alloc, parts.len())?;
    for part in parts {
        all.push(number_part(alloc, file, places, names, roots, *part)?)?;
    }
    Ok(all)
}

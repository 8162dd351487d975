//! The cards of the parts of a file, as refusals report them.
ghost use Rattle.std.specs.Prelude.{◌≡◌, ◌≢◌, ◌<◌, IsSome, IsSomeAnd, Some, [], length, option_and_then, option_map, slice_get};
ghost use Rattle.part_numbers.specs.CheckOutcomes.{IsAtControlOf, IsAtInput, IsAtMainOutput, IsAtOutput, IsFaultOf, IsLineAt};
ghost use Rattle.model_calls.specs.Expanded.{card_line};
ghost use Rattle.part_numbers.specs.WordCards.{card_by_words};
ghost use Rattle.part_numbers.specs.NumberedFiles.{HasNumbers, card_at, model_at};
ghost use Rattle.model_calls.specs.Occurrences.{main_model};
ghost use Rattle.part_numbers.specs.PartCards.{card_control, card_inputs, card_output, edge_of};

use crate::card_file::CardFile;
use crate::numbered::{NumberedFile, NumberedPart, PartCard};
use crate::word_card::WordCard;
use blif_ast::Edge2;
use dom_base::Name;
use model_calls::{FlatFault, FlatKind};
use std::alloc::Global;

/// The card of a part.
pub fn card_of<'a>(file: &CardFile<'a>, part: &NumberedPart) -> WordCard<'a>
    requires there { IsSome (card_at (model_at file.now part.now.model) part.now.card) }
    ensures { card_at (model_at file.now part.now.model) part.now.card ≡ Some (card_by_words result) }
{
    file.card(part.model, part.card)
}

/// The line of the card of a part.
fn line_of(file: &CardFile<'_>, part: &NumberedPart) -> u64
    requires there { IsSome (card_at (model_at file.now part.now.model) part.now.card) }
    ensures { option_map card_line (card_at (model_at file.now part.now.model) part.now.card) ≡ Some result }
{
    card_of(file, part).line()
}

/// The name that a part drives, as it stands on its card.
fn output_of<'a>(file: &CardFile<'a>, part: &NumberedPart) -> &'a [u8]
    requires there { IsSome (card_at (model_at file.now part.now.model) part.now.card) }
    ensures { option_map card_output (card_at (model_at file.now part.now.model) part.now.card) ≡ Some result.now }
{
    card_of(file, part).output()
}

/// The name at an index of those that a part reads, as it stands on its card.
fn input_of<'a>(file: &CardFile<'a>, part: &NumberedPart, index: usize) -> &'a [u8]
    requires there { IsSomeAnd (card_at (model_at file.now part.now.model) part.now.card) (λ c. index < length (card_inputs c)) }
    ensures { option_map (λ c. slice_get (card_inputs c) index) (card_at (model_at file.now part.now.model) part.now.card)
        ≡ Some (Some result.now) }
{
    card_of(file, part).input(index)
}

/// The edge at which a part is clocked, if it is a latch that has a type.
pub fn edge_of(file: &CardFile<'_>, part: &NumberedPart) -> Option<Edge2>
    requires there { IsSome (card_at (model_at file.now part.now.model) part.now.card) }
    ensures { result ≡ edge_of file.now part.now }
{
    match part.card {
        PartCard::Table(_) => None,
        PartCard::Latch(_) => card_of(file, part).edge(),
    }
}

/// The name of the signal that controls a part, as it stands on its card.
fn control_of<'a>(file: &CardFile<'a>, part: &NumberedPart) -> &'a [u8]
    requires there { IsSome (option_and_then card_control (card_at (model_at file.now part.now.model) part.now.card)) }
    ensures { option_and_then card_control (card_at (model_at file.now part.now.model) part.now.card) ≡ Some result.now }
{
    card_of(file, part).control()
}

/// A refusal of a kind at a line with a name, or that memory doesn't suffice for the name.
pub fn fault_at(alloc: Global, kind: FlatKind, line: u64, name: &[u8]) -> FlatFault
    ensures { IsFaultOf kind (λ l n. (l ≡ line) × (n ≡ name.now)) result }
{
    match Name::from_bytes(alloc, name) {
        Ok(name) => FlatFault::At { line, kind, name },
        Err(_) => FlatFault::Memory,
    }
}

/// A refusal of a kind where the part at an index drives its signal.
pub fn fault_at_output(
    alloc: Global,
    kind: FlatKind,
    file: &CardFile<'_>,
    numbered: &NumberedFile<'_>,
    index: usize,
) -> FlatFault
    requires numbers { HasNumbers file.now numbered.now }
    requires there { index < length numbered.now.parts }
    ensures { IsFaultOf kind (IsAtOutput file.now index) result }
{
    let part = &numbered.parts()[index];
    fault_at(alloc, kind, line_of(file, part), output_of(file, part))
}

/// A refusal of a kind where the part at an index reads the signal at an index of those that it reads.
pub fn fault_at_input(
    alloc: Global,
    kind: FlatKind,
    file: &CardFile<'_>,
    numbered: &NumberedFile<'_>,
    index: usize,
    read: usize,
) -> FlatFault
    requires numbers { HasNumbers file.now numbered.now }
    requires there { IsSomeAnd (slice_get numbered.now.parts index) (λ p. read < length p.reads) }
    ensures { IsFaultOf kind (IsAtInput file.now index read) result }
{
    let part = &numbered.parts()[index];
    fault_at(alloc, kind, line_of(file, part), input_of(file, part, read))
}

/// A refusal of a kind at the main model's output of this index.
pub fn fault_at_main_output(
    alloc: Global,
    kind: FlatKind,
    file: &CardFile<'_>,
    index: usize,
) -> FlatFault
    requires there { index < length (main_model file.now).outputs }
    ensures { IsFaultOf kind (IsAtMainOutput file.now index) result }
{
    fault_at(alloc, kind, file.main_line(), file.main_output(index))
}

/// A refusal of a kind at the line of the part at an index, for the signal that controls a latch, by
/// its name on the card of the latch.
pub fn fault_at_control(
    alloc: Global,
    kind: FlatKind,
    file: &CardFile<'_>,
    numbered: &NumberedFile<'_>,
    index: usize,
    latch: usize,
) -> FlatFault
    requires numbers { HasNumbers file.now numbered.now }
    requires there { index < length numbered.now.parts }
    requires control { IsSomeAnd (slice_get numbered.now.parts latch) (λ p. IsSome p.control) }
    ensures { IsFaultOf kind (IsAtControlOf file.now latch (IsLineAt file.now index)) result }
{
    let part = &numbered.parts()[index];
    let latch = &numbered.parts()[latch];
    fault_at(alloc, kind, line_of(file, part), control_of(file, latch))
}

/// A refusal of a kind at the line of the main model, for the signal that controls a latch, by its name on
/// the card of the latch.
pub fn fault_at_main_control(
    alloc: Global,
    kind: FlatKind,
    file: &CardFile<'_>,
    numbered: &NumberedFile<'_>,
    latch: usize,
) -> FlatFault
    requires some { file.now.models ≢ [] }
    requires numbers { HasNumbers file.now numbered.now }
    requires control { IsSomeAnd (slice_get numbered.now.parts latch) (λ p. IsSome p.control) }
    ensures { IsFaultOf kind (IsAtControlOf file.now latch (λ line. line ≡ (main_model file.now).line)) result }
{
    let latch = &numbered.parts()[latch];
    fault_at(alloc, kind, file.main_line(), control_of(file, latch))
}

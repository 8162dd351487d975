//! The fault of a line, by the open model and the open table.
ghost use Rattle.std.specs.Prelude.{◌≡◌, map};
ghost use Rattle.std.specs.Option.{option_map};
ghost use Rattle.blif_numbers.specs.Steps.{card_fault, row_fault, differs};
ghost use Rattle.blif_numbers.specs.BuilderData.{value_letter, width_and_letter};

use crate::forms::{is_form, is_level_form, is_row_form};
use crate::line::last_letter;
use crate::open_model::OpenTable;
use blif_ast::{BlifKind, Card};

const MOST_INPUTS: usize = 4096;

/// The fault of a line that begins with `.`, by its card, if that is known.
pub fn card_fault(open_model: bool, card: Option<Card>, words: &[&[u8]]) -> Option<BlifKind>
    ensures { result ≡ card_fault open_model card (map (λ w. w.now) words.now) }
{
    let Some(card) = card else {
        return Some(BlifKind::UnknownCard);
    };
    if !is_form(card, words) {
        return Some(BlifKind::BadCard);
    }
    match card {
        Card::Model => None,
        Card::Names if MOST_INPUTS < words.len().saturating_sub(2) => Some(BlifKind::TooWide),
        _ if !open_model => Some(BlifKind::NoModel),
        Card::Latch if is_level_form(words) => Some(BlifKind::LatchKind),
        _ => None,
    }
}

/// The fault of a row, by the open table.
pub fn row_fault(table: Option<OpenTable>, words: &[&[u8]]) -> Option<BlifKind>
    ensures { result ≡ row_fault (option_map width_and_letter table) (map (λ w. w.now) words.now) }
{
    match table {
        None => Some(BlifKind::RowOutsideTable),
        Some(table) => {
            if !is_row_form(table.width, words) {
                Some(BlifKind::BadRow)
            } else if differs(first_letter(table.value), last_letter(words)) {
                Some(BlifKind::MixedCover)
            } else {
                None
            }
        }
    }
}

/// The letter that the rows of a table end in, if it has rows.
fn first_letter(value: Option<bool>) -> Option<u8>
    ensures { result ≡ value_letter value }
{
    match value {
        Some(on) => Some(if on { b'1' } else { b'0' }),
        None => None,
    }
}

/// Whether the last letter of a row isn't that of the first row.
fn differs(first: Option<u8>, letter: u8) -> bool
    ensures { result ≡ differs first letter }
{
    match first {
        Some(first) => letter != first,
        None => false,
    }
}

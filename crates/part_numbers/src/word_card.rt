//! Cards of a file by numbers.
ghost use Rattle.std.specs.Prelude.{◌≡◌, ◌<◌, IsSome, Some, [], length, slice_get, slice_index_or};
ghost use Rattle.blif_ast.specs.Cards.{last_word};
ghost use Rattle.numbered_file.specs.Numbered.{named};
ghost use Rattle.model_calls.specs.Expanded.{card_line};
ghost use Rattle.part_numbers.specs.WordCards.{card_by_words};
ghost use Rattle.part_numbers.specs.PartCards.{card_control, card_edge, card_init, card_inputs, card_on, card_output, card_rows};

use blif_ast::Edge2;
use network::RowsInText;
use numbered_file::{Names, PartKind};

/// A card by its words, which are numbers of names, and by the places of the text at which its rows begin. `line` is
/// its line, from 1.
#[derive(Clone, Copy)]
pub struct WordCard<'a> {
    pub text: &'a [u8],
    pub names: &'a Names<'a>,
    pub words: &'a [u32],
    pub rows: &'a [u32],
    pub kind: PartKind,
    pub line: u32,
}

/// The name of the word at this index, or no bytes.
pub fn name_at<'a>(names: &'a Names<'a>, words: &[u32], index: usize) -> &'a [u8]
    ensures { result.now ≡ slice_index_or (named names.now words.now) index [] }
{
    match words.get(index) {
        Some(number) => names.name(*number),
        None => &[],
    }
}

impl<'a> WordCard<'a> {
    /// The name of the word at this index, or no bytes.
    fn name(&self, index: usize) -> &'a [u8]
        ensures { result.now ≡ slice_index_or (named self.now.names.now self.now.words.now) index [] }
    {
        name_at(self.names, self.words, index)
    }

    /// The name of the last word, or no bytes.
    fn last_name(&self) -> &'a [u8]
        ensures { result.now ≡ last_word (named self.now.names.now self.now.words.now) }
    {
        self.name(self.words.len().saturating_sub(1))
    }

    /// The line of the card.
    pub fn line(&self) -> u64
        ensures { result ≡ card_line (card_by_words self.now) }
    {
        u64::from(self.line)
    }

    /// The name that the card drives.
    pub fn output(&self) -> &'a [u8]
        ensures { result.now ≡ card_output (card_by_words self.now) }
    {
        match self.kind {
            PartKind::Table { .. } => self.last_name(),
            PartKind::Latch { .. } => self.name(1),
            PartKind::Instance => &[],
        }
    }

    /// The name at an index of those that the card reads.
    pub fn input(&self, index: usize) -> &'a [u8]
        requires there { index < length (card_inputs (card_by_words self.now)) }
        ensures { slice_get (card_inputs (card_by_words self.now)) index ≡ Some result.now }
    {
        self.name(index)
    }

    /// The edge at which a latch is clocked, if it has a type.
    pub fn edge(&self) -> Option<Edge2>
        ensures { result ≡ card_edge (card_by_words self.now) }
    {
        match self.kind {
            PartKind::Table { .. } => None,
            PartKind::Latch { edge, .. } => edge,
            PartKind::Instance => None,
        }
    }

    /// The name of the signal that controls a latch.
    pub fn control(&self) -> &'a [u8]
        requires there { IsSome (card_control (card_by_words self.now)) }
        ensures { card_control (card_by_words self.now) ≡ Some result.now }
    {
        self.name(2)
    }

    /// Whether the rows of a table end in 1.
    pub fn on(&self) -> bool
        ensures { result ≡ card_on (card_by_words self.now) }
    {
        match self.kind {
            PartKind::Table { on } => on,
            PartKind::Latch { .. } => false,
            PartKind::Instance => false,
        }
    }

    /// The start value of a latch.
    pub fn init(&self) -> u8
        ensures { result ≡ card_init (card_by_words self.now) }
    {
        match self.kind {
            PartKind::Table { .. } => 0,
            PartKind::Latch { init, .. } => init,
            PartKind::Instance => 0,
        }
    }

    /// The rows of a table.
    pub fn rows(&self) -> RowsInText<'a>
        ensures { result ≡ card_rows (card_by_words self.now) }
    {
        match self.kind {
            PartKind::Table { .. } => {
                RowsInText::new(self.text, self.words.len().saturating_sub(1), self.rows)
            }
            PartKind::Latch { .. } => RowsInText::new(self.text, 0, &[]),
            PartKind::Instance => RowsInText::new(self.text, 0, &[]),
        }
    }
}

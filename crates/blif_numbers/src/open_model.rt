//! The open model and its open table.
ghost use Rattle.std.specs.Prelude.{◌≡◌, Some, None, length};
ghost use Rattle.blif_numbers.specs.BuilderData.{is_on, opened_table, value_after};
ghost use Rattle.numbered_file.specs.declared.parts.PartKind.TheVariants as at;

use blif_ast::Card;
use numbered_file::PartKind;

/// The open table: how many inputs it has, whether its rows end in 1, if it has rows, and the line of its card.
#[derive(Clone, Copy, Debug)]
pub struct OpenTable {
    pub width: usize,
    pub value: Option<bool>,
    pub line: u32,
}

/// The open model: the number of its name, the line of its card, and its open table.
#[derive(Clone, Copy, Debug)]
pub struct OpenModel {
    pub name: u32,
    pub line: u32,
    pub table: Option<OpenTable>,
}

impl OpenModel {
    /// The same with this open table.
    pub fn with_table(self, table: Option<OpenTable>) -> OpenModel
        ensures { result ≡ record { name = self.name; line = self.line; table = table } }
    {
        OpenModel {
            name: self.name,
            line: self.line,
            table,
        }
    }
}

impl OpenTable {
    /// The same after a row with this last letter.
    pub fn after_row(self, letter: u8) -> OpenTable
        ensures { result ≡ record { width = self.width; value = value_after self.value letter; line = self.line } }
    {
        let value = match self.value {
            Some(on) => on,
            None => letter == b'1',
        };
        OpenTable {
            width: self.width,
            value: Some(value),
            line: self.line,
        }
    }

    /// The part that it becomes.
    pub fn kind(self) -> PartKind
        ensures { result ≡ at.Table (is_on self.value) }
    {
        let on = match self.value {
            Some(on) => on,
            None => true,
        };
        PartKind::Table { on }
    }
}

/// The table that a card opens.
pub fn opened_table(card: Card, line: u32, words: &[&[u8]]) -> Option<OpenTable>
    ensures { result ≡ opened_table card line (length words.now) }
{
    match card {
        Card::Names => Some(OpenTable {
            width: words.len().saturating_sub(2),
            value: None,
            line,
        }),
        _ => None,
    }
}

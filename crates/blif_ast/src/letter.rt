//! Rows of a table.
ghost use Rattle.std.specs.Prelude.{◌≡◌, []};
ghost use Rattle.blif_ast.specs.Models.{row_letter};

use smallvec::SmallVec;
use std::alloc::{AllocError, Global};
use std::default::MadeWith;
use std::marker::Model;

/// What a row asks of an input: 0, 1 or nothing.
#[derive(Clone, Copy, Debug, Default, PartialEq, Eq)]
pub enum Letter {
    Zero,
    One,
    #[default]
    Any,
}

impl Letter {
    /// The letter of a byte `0`, `1` or `-`.
    pub fn from_byte(byte: u8) -> Letter
        ensures { result ≡ row_letter byte }
    {
        match byte {
            b'0' => Letter::Zero,
            b'1' => Letter::One,
            _ => Letter::Any,
        }
    }
}

/// The letters of a row. The row itself has room for 16; more stand in an allocation.
pub type Letters = SmallVec<Letter, 16>;

/// The rows of a table. The table itself has room for 2; more stand in an allocation.
pub type Rows = SmallVec<Row, 2>;

/// A row of a table: one letter per input of the table, in order.
#[derive(Debug, Drop)]
pub struct Row {
    pub letters: Letters,
}

impl Model for Row {
    ghost use Rattle.std.specs.Prelude.{List};
    ghost use Rattle.blif_ast.specs.declared.letter.Letter.{Letter};

    ghost Value = { List Letter };

    ghost view = { λ r. r.letters.items };
}

impl Clone for Row {
    ghost is_clone = { λ row copy. copy ≡ row };

    fn clone(&self) -> Result<Row, AllocError> {
        Ok(Row {
            letters: SmallVec::from_slice(*self.letters.allocator(), self.letters.as_slice())?,
        })
    }
}

impl MadeWith<Global> for Row {
    ghost is_made_with = { λ row. row ≡ [] };

    fn made_with(alloc: Global) -> Row {
        Row {
            letters: Letters::new(alloc),
        }
    }
}

//! The syntax of BLIF, the Berkeley Logic Interchange Format, and its printed text.
#![tactic(auto)]

ghost use Rattle.std.specs.Prelude.{◌≡◌, IfOk};
ghost use Rattle.blif_ast.specs.Good.{IsGoodFile};
ghost use Rattle.blif_ast.specs.Printed.{printed};

mod card;
mod cards;
mod file;
mod instance;
mod kind;
mod latch;
mod letter;
mod line;
mod models;
mod table;

pub use card::Card;
pub use cards::{put_ports, put_rows};
use dom_base::OutOfMemory;
pub use file::{BlifFile, BlifModel};
pub use instance::{Binding, Instance};
pub use kind::BlifKind;
pub use latch::{Control, Edge2, Latch};
pub use letter::{Letter, Letters, Row, Rows};
pub use line::end_line;
use models::put_models;
pub use models::{put_head, put_latches};
use std::alloc::Global;
pub use table::{InputNames, Table};

/// The text of a file, in bytes. Each line ends with LF and its words are separated by one blank;
/// where the last word of a line ends with `\`, one blank follows it. The lines of a model are
/// `.model NAME`, `.inputs` and `.outputs` with all such ports, if there are any, its tables, its
/// latches, its instances and `.end`.
///
/// A table is `.names` with its inputs and its output, and a line for each row: its letters, if
/// there are any, and `1` or `0`. A latch is `.latch INPUT OUTPUT`, then its type `re` or `fe` and
/// its control, or `NIL` for none, where it has them, then its start value. An instance is
/// `.subckt UNIT` with a word `FORMAL=ACTUAL` for each binding. It fails only for want of memory.
///
/// The file is good: it has a model; no name is empty or has a blank, a control byte or a `#`; no
/// formal has a `=`, and no control is called `NIL`; start values are at most 3; a table has at most
/// 4,096 inputs, one letter per input in each row, and a true `on` where it has no rows; and no two
/// tables, latches or instances of a model have the same line.
pub fn print(alloc: Global, file: &BlifFile) -> Result<Vec<u8>, OutOfMemory>
    requires { IsGoodFile file.now }
    ensures { IfOk result (λ text. text.items ≡ printed file.now) }
{
    let mut text = Vec::new(alloc);
    put_models(&mut text, &file.models)?;
    Ok(text)
}

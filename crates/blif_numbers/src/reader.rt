//! The reader.
ghost use Rattle.std.specs.Prelude.{ℕ, ◌≡◌, IfOk, IsErrOf, None, OnOk};
ghost use Rattle.dom_base.specs.Lines.{first_word};
ghost use Rattle.blif_ast.specs.Reading.{IsBlifFaultAt, IsFileOf};
ghost use Rattle.blif_numbers.specs.Build.{built_after, context_in};
ghost use Rattle.blif_numbers.specs.Steps.{context_fault};
ghost use Rattle.blif_numbers.specs.BuilderData.{built_in, IsBuilder};
ghost use Rattle.numbered_file.specs.Numbered.{file_of};
ghost use Rattle.numbered_file.specs.OpenLists.{open_lists, IsClosed};
ghost use Rattle.blif_lines.specs.TextPlaces.{StandsAt};

use crate::builder::Builder;
use crate::fault::BlifFault;
use crate::line::Line;
use blif_lines::{Lines, Notes};
use dom_base::{NameHash, OutOfMemory};
use numbered_file::NumberedFile;
use std::alloc::Global;

/// The file of a BLIF text by numbers, as the public format has it (Berkeley Logic Interchange Format), or the first line
/// with a fault and the fault of the smallest number there.
pub fn read_numbers<'t>(alloc: Global, text: &'t [u8]) -> Result<NumberedFile<'t>, BlifFault>
    ensures file { IfOk result (λ file. IsFileOf text.now (file_of file)) }
    ensures closed { IfOk result (λ file. IsClosed (open_lists file)) }
    ensures fault { (line : ℕ) (kind : _) → IsErrOf result (BlifFault.At line kind) → IsBlifFaultAt text.now line kind }
{
    let mut are_crowded = false;
    let read = read_by(alloc, text, NameHash::known(), &mut are_crowded);
    if !are_crowded {
        return read;
    }
    read_by(alloc, text, NameHash::of_text(text), &mut are_crowded)
}

/// The same, where names are hashed so. An error may also say that memory did not suffice where names are crowded: then
/// `are_crowded` says so.
fn read_by<'t>(
    alloc: Global,
    text: &'t [u8],
    hash: NameHash,
    are_crowded: &mut bool,
) -> Result<NumberedFile<'t>, BlifFault>
    ensures file { IfOk result (λ file. IsFileOf text.now (file_of file)) }
    ensures closed { IfOk result (λ file. IsClosed (open_lists file)) }
    ensures fault { (line : ℕ) (kind : _) → IsErrOf result (BlifFault.At line kind) → IsBlifFaultAt text.now line kind }
{
    let mut lines = Lines {
        text,
        rest: text,
        number: 1,
    };
    let mut words = Vec::new(alloc);
    let mut notes = Notes {
        has_control: false,
        place: 0,
    };
    let mut builder = Builder::new(alloc, text, hash);
    'lines: while let Some(number) = lines.next(&mut words, &mut notes)? {
        let line = Line::new(number, &words, notes.has_control);
        if let Some(kind) = builder.fault(&line) {
            return Err(BlifFault::At { line: number, kind });
        }
        push(&mut builder, &line, notes.place, are_crowded)?;
    }
    builder.finish(lines.number)
}

/// Takes the next line, which has no fault and whose first word stands at this place of the text, and says whether names
/// are crowded.
fn push<'t>(
    builder: &mut Builder<'t>,
    line: &Line<'_, 't>,
    place: usize,
    are_crowded: &mut bool,
) -> Result<(), OutOfMemory>
    requires builder { IsBuilder builder.old }
    requires clean { None ≡ context_fault (context_in (built_in builder.old)) line.now }
    requires stands { StandsAt builder.old.file.text place (first_word line.now.words) }
    ensures built { OnOk result (built_in builder.new ≡ built_after (built_in builder.old) line.now) }
    ensures builder { OnOk result (IsBuilder builder.new) }
    ensures text { OnOk result (builder.new.file.text ≡ builder.old.file.text) }
{
    let pushed = builder.push(line, place);
    *are_crowded = builder.are_crowded();
    pushed
}

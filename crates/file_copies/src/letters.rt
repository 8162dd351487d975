//! The letters of all rows of a file.
ghost use Rattle.std.specs.Prelude.{◌≡◌, ◌++◌, IfOk, OnOk, map};
ghost use Rattle.blif_ast.specs.Printed.{letter_byte};
ghost use Rattle.file_copies.specs.FileLetters.{
  file_letters,
  models_letters,
  rows_letters,
  tables_letters,
};

use blif_ast::{BlifFile, BlifModel, Letter, Row, Table};
use dom_base::OutOfMemory;
use std::alloc::Global;

/// The letters of all rows of a file, as bytes, one behind the other: the text of the file by numbers that `number_file`
/// makes. The one error is out of memory.
pub fn bytes_of(alloc: Global, file: &BlifFile) -> Result<Vec<u8>, OutOfMemory>
    ensures { IfOk result (λ bytes. bytes.items ≡ file_letters file.now) }
{
    let mut bytes = Vec::new(alloc);
    append_models(&mut bytes, &file.models)?;
    Ok(bytes)
}

fn append_models(bytes: &mut Vec<u8>, models: &[BlifModel]) -> Result<(), OutOfMemory>
    ensures { OnOk result (bytes.new.items ≡ bytes.old.items ++ models_letters models.now) }
{
    for model in models {
        append_tables(bytes, &model.tables)?;
    }
    Ok(())
}

fn append_tables(bytes: &mut Vec<u8>, tables: &[Table]) -> Result<(), OutOfMemory>
    ensures { OnOk result (bytes.new.items ≡ bytes.old.items ++ tables_letters tables.now) }
{
    for table in tables {
        append_rows(bytes, &table.rows)?;
    }
    Ok(())
}

fn append_rows(bytes: &mut Vec<u8>, rows: &[Row]) -> Result<(), OutOfMemory>
    ensures { OnOk result (bytes.new.items ≡ bytes.old.items ++ rows_letters rows.now) }
{
    for row in rows {
        append_letters(bytes, &row.letters)?;
    }
    Ok(())
}

fn append_letters(bytes: &mut Vec<u8>, letters: &[Letter]) -> Result<(), OutOfMemory>
    ensures { OnOk result (bytes.new.items ≡ bytes.old.items ++ map letter_byte letters.now) }
{
    for letter in letters {
        bytes.push(byte_of(*letter))?;
    }
    Ok(())
}

fn byte_of(letter: Letter) -> u8
    ensures { result ≡ letter_byte letter }
{
    match letter {
        Letter::Zero => b'0',
        Letter::One => b'1',
        Letter::Any => b'-',
    }
}

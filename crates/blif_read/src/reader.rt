//! The reader.
ghost use Rattle.std.specs.Prelude.{ℕ, IfOk, IsErrOf};
ghost use Rattle.blif_ast.specs.Reading.{IsBlifFaultAt, IsFileOf};

use crate::BlifFault;
use blif_ast::BlifFile;
use blif_numbers::read_numbers;
use file_copies::to_file;
use std::alloc::Global;

/// The file of a BLIF text, as the public format has it (Berkeley Logic Interchange Format), or the
/// first line with a fault and the fault of the smallest number there.
pub fn read(alloc: Global, text: &[u8]) -> Result<BlifFile, BlifFault>
    ensures file { IfOk result (λ file. IsFileOf text.now file) }
    ensures fault { (line : ℕ) (kind : _) → IsErrOf result (BlifFault.At line kind) → IsBlifFaultAt text.now line kind }
{
    let numbers = read_numbers(alloc, text)?;
    let file = to_file(alloc, &numbers)?;
    Ok(file)
}

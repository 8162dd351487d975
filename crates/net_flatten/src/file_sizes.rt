//! How large the network of a file is.
ghost use Rattle.std.specs.Prelude.{◌≡◌, IfOk, length};
ghost use Rattle.blif_ast.specs.Good.{IsGoodFile};
ghost use Rattle.numbered_file.specs.Numbered.{file_of};
ghost use Rattle.numbered_file.specs.Places.{first_part};
ghost use Rattle.model_calls.specs.ModelCalls.{NothingRefuses};
ghost use Rattle.part_numbers.specs.NetworkSizes.{AreSizes};

use crate::called::called_file;
use blif_ast::BlifFile;
use dom_base::OutOfMemory;
use file_copies::{bytes_of, number_file};
use local_names::count;
use numbered_file::NumberedFile;
use part_numbers::Sizes;
use std::alloc::Global;

/// How large the network of a file is, which is refused for nothing in its models. It works model by
/// model and expands nothing. It fails only for want of memory.
pub fn sizes(alloc: Global, file: &BlifFile) -> Result<Sizes, OutOfMemory>
    requires good { IsGoodFile file.now }
    requires accepted { NothingRefuses file.now 5 }
    ensures { IfOk result (AreSizes file.now) }
{
    let bytes = bytes_of(alloc, file)?;
    let numbered = number_file(alloc, file, &bytes)?;
    sizes_by_numbers(alloc, &numbered)
}

/// The same of a file by numbers.
fn sizes_by_numbers(alloc: Global, file: &NumberedFile<'_>) -> Result<Sizes, OutOfMemory>
    requires good { IsGoodFile (file_of file.now) }
    requires closed { first_part file.now (length file.now.models) ≡ length file.now.parts }
    requires accepted { NothingRefuses (file_of file.now) 5 }
    ensures { IfOk result (AreSizes (file_of file.now)) }
{
    match called_file(alloc, file)? {
        Some(called) => count(alloc, file, &called.calls, &called.names),
        None => unreachable!(),
    }
}

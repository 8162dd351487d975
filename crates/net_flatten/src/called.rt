//! What a file with nothing wrong in its models is expanded by.
ghost use Rattle.std.specs.Prelude.{◌≡◌, IfNone, IfOk, IfSome, length};
ghost use Rattle.blif_ast.specs.Good.{IsGoodFile};
ghost use Rattle.numbered_file.specs.Numbered.{file_of};
ghost use Rattle.numbered_file.specs.Places.{first_part};
ghost use Rattle.model_calls.specs.ModelCalls.{NothingRefuses};
ghost use Rattle.net_flatten.specs.CalledFiles.{IsCalledFile};

use card_places::{CardPlaces, card_places};
use dom_base::OutOfMemory;
use local_names::{LocalNames, local_names};
use model_calls::ModelCalls;
use numbered_calls::{calls, units};
use numbered_file::NumberedFile;
use std::alloc::Global;

/// The places of the cards of a file, the names of its models, and what its models call.
#[derive(Drop)]
pub struct CalledFile {
    pub places: CardPlaces,
    pub names: LocalNames,
    pub calls: ModelCalls,
}

/// What a good file is expanded by; nothing where something is wrong with its models. The one error is want of memory.
pub fn called_file(
    alloc: Global,
    file: &NumberedFile<'_>,
) -> Result<Option<CalledFile>, OutOfMemory>
    requires good { IsGoodFile (file_of file.now) }
    requires closed { first_part file.now (length file.now.models) ≡ length file.now.parts }
    ensures called { IfOk result (λ found. IfSome found (IsCalledFile file.now)) }
    ensures refused { IfOk result (λ found. IfNone found (NothingRefuses (file_of file.now) 5 → ⊥)) }
{
    let places = card_places(alloc, file)?;
    let Some(units) = units(alloc, file)? else {
        return Ok(None);
    };
    let Some(names) = local_names(alloc, file, &units)? else {
        return Ok(None);
    };
    match calls(alloc, file, &places, &units, &names)? {
        Some(calls) => Ok(Some(CalledFile {
            places,
            names,
            calls,
        })),
        None => Ok(None),
    }
}

//! The names of each model of a file, and a place for each input, output and word of its models.
ghost use Rattle.std.specs.Prelude.{◌≡◌, ◌<◌, IfNone, IfOk, IfSome, OnOk, Some, length, map, slice_get};
ghost use Rattle.std.specs.List.{AllByRecursion};
ghost use Rattle.blif_ast.specs.BlifModelData.{BlifModelData};
ghost use Rattle.numbered_file.specs.Numbered.{AreBelow, file_of, models_in, named};
ghost use Rattle.local_names.specs.LocalNames.{AreLocalNames};
ghost use Rattle.local_names.specs.AllPlaced.{AreAllPlaced};
ghost use Rattle.local_names.specs.LostFormals.{HasLostFormal};
ghost use Rattle.local_names.specs.Units.{AreUnits};
ghost use Rattle.model_calls.specs.ModelCalls.{NothingRefuses};
ghost use Rattle.part_numbers.specs.SignalNumbers.{model_names};

use crate::distinct::{index, note_all, zeros};
use crate::formals::formal_hints;
use crate::model_numbers::{CardKind, note_kind, parts_end};
use crate::table::LocalNames;
use crate::word_places::{Lookup, put_parts, put_words};
use card_places::NumberLists;
use dom_base::OutOfMemory;
use numbered_file::NumberedFile;
use std::alloc::Global;

/// The names of each model of a file, where `units` has for each instance the number of its model; none where a formal is no
/// name of its model, for which the file is refused. It takes a time that is linear in the file. The one error is out of
/// memory; a card that is not in its form or that stands behind the last model, which no reader makes, is answered by it too.
pub fn local_names(
    alloc: Global,
    file: &NumberedFile<'_>,
    units: &[u32],
) -> Result<Option<LocalNames>, OutOfMemory>
    requires { AreUnits file.now units.now }
    ensures names { IfOk result (λ found. IfSome found (AreLocalNames file.now)) }
    ensures refused { IfOk result (λ found. IfNone found (NothingRefuses (file_of file.now) 5 → ⊥)) }
{
    let mut place = zeros(alloc, file.names().len())?;
    let mut words = Vec::with_capacity(alloc, file.words().len())?;
    let models = names_of_models(alloc, file, &mut words, &mut place)?;
    let hints = formal_hints(alloc, file, units, &models, &mut place)?;
    let lookup = Lookup {
        models: &models,
        units,
        hints: &hints,
    };
    file.is_in_order();
    match place_all(alloc, file, lookup, words, &mut place)? {
        Some(placed) => Ok(Some(LocalNames {
            models,
            inputs: placed.inputs,
            outputs: placed.outputs,
            words: placed.words,
        })),
        None => Ok(None),
    }
}

/// The places of the inputs, outputs and words of all models.
#[derive(Drop)]
pub struct Placed {
    pub inputs: Vec<u32>,
    pub outputs: Vec<u32>,
    pub words: Vec<u32>,
}

/// The names of each model, by their numbers. Those of one model are gathered in `kept`, which may have anything.
fn names_of_models(
    alloc: Global,
    file: &NumberedFile<'_>,
    kept: &mut Vec<u32>,
    place: &mut [u32],
) -> Result<NumberLists, OutOfMemory>
    requires { length place.old ≡ length file.now.names }
    ensures names { IfOk result (λ models. map (named file.now.names) models.lists ≡ map model_names (models_in file.now)) }
    ensures below { IfOk result (λ models. AllByRecursion (AreBelow (length file.now.names)) models.lists) }
    ensures length { length place.new ≡ length place.old }
{
    let mut models = NumberLists::new(alloc);
    for model in 0..file.models().len() {
        names_of_model(file, model, kept, place)?;
        models.extend(kept)?;
        models.close()?;
    }
    Ok(models)
}

/// Makes `kept` the names of a model, by their numbers, each once as the last of those that are equal.
fn names_of_model(
    file: &NumberedFile<'_>,
    model: usize,
    kept: &mut Vec<u32>,
    place: &mut [u32],
) -> Result<(), OutOfMemory>
    requires within { model < length file.now.models }
    requires places { length place.old ≡ length file.now.names }
    ensures names { OnOk result ((m : BlifModelData) → slice_get (models_in file.now) model ≡ Some m
        → named file.now.names kept.new.items ≡ model_names m) }
    ensures below { OnOk result (AreBelow (length file.now.names) kept.new.items) }
    ensures length { length place.new ≡ length place.old }
{
    file.is_in_order();
    kept.clear();
    let first = file.first_part(model);
    let end = parts_end(file, model);
    note_kind(place, kept, file, first, end, CardKind::Instance)?;
    note_kind(place, kept, file, first, end, CardKind::Latch)?;
    note_kind(place, kept, file, first, end, CardKind::Table)?;
    note_all(place, kept, file.outputs_of(model))?;
    note_all(place, kept, file.inputs_of(model))?;
    kept.reverse();
    Ok(())
}

/// The places of all inputs, outputs and words among these names of all models; none where a formal is no name of its model. Those
/// of the words take the room of `words`, which may have anything.
fn place_all(
    alloc: Global,
    file: &NumberedFile<'_>,
    lookup: Lookup<'_>,
    words: Vec<u32>,
    place: &mut [u32],
) -> Result<Option<Placed>, OutOfMemory>
    requires units { AreUnits file.now lookup.units.now }
    ensures placed { IfOk result (λ found. IfSome found (AreAllPlaced file.now lookup.entry.models.now.lists)) }
    ensures lost { IfOk result (λ found. IfNone found (HasLostFormal file.now lookup.entry.models.now.lists)) }
{
    let mut placed = Placed {
        inputs: Vec::with_capacity(alloc, file.inputs().len())?,
        outputs: Vec::with_capacity(alloc, file.outputs().len())?,
        words,
    };
    placed.words.clear();
    file.is_in_order();
    let count = file.models().len();
    for model in 0..count {
        let names = lookup.models.at(model);
        index(place, names);
        put_words(&mut placed.inputs, names, place, file.inputs_of(model))?;
        put_words(&mut placed.outputs, names, place, file.outputs_of(model))?;
        if !put_parts(&mut placed.words, file, lookup, model, place)? {
            return Ok(None);
        }
    }
    if file.first_part(count) != file.parts().len() {
        return Err(OutOfMemory);
    }
    Ok(Some(placed))
}

//! The models that instances name.
ghost use Rattle.std.specs.Prelude.{◌≡◌, ◌<◌, ◌+◌, ◌^◌, ℕ, IfNone, IfOk, IfSome, IsFalse, IsTrue, None, Some, length, slice_get, slice_set};
ghost use Rattle.std.specs.List.{AllByRecursion};
ghost use Rattle.numbered_file.specs.declared.parts.PartAt.{PartAt};
ghost use Rattle.numbered_file.specs.declared.parts.PartKind.TheVariants.{Instance};
ghost use Rattle.numbered_file.specs.Numbered.{models_in};
ghost use Rattle.local_names.specs.LocalNames.{IsInstance, IsUnitOf};
ghost use Rattle.local_names.specs.Units.{AreUnits};
ghost use Rattle.model_calls.specs.FirstFaults.{NoneHolds};
ghost use Rattle.model_calls.specs.ModelFaults.{IsDuplicateModel};
ghost use Rattle.numbered_calls.specs.Owners.{AreOwners, HaveNameTwice, NamesNoModel};
ghost use Rattle.numbered_calls.specs.Refused.{IsRefusedForModels};

use dom_base::OutOfMemory;
use numbered_file::{ModelAt, NumberedFile, PartAt, PartKind};
use std::alloc::Global;

/// More than the models of a file that are numbered.
const MOST: usize = 4_294_967_295;

/// A number for each part of a file: of an instance that of its model. `None` where two models have one name, or an instance
/// names no model. It takes a time that is linear in the models and parts, and fails only for want of memory.
pub fn units(alloc: Global, file: &NumberedFile<'_>) -> Result<Option<Vec<u32>>, OutOfMemory>
    ensures units { IfOk result (λ found. IfSome found (λ units. AreUnits file.now units.items)) }
    ensures refused { IfOk result (λ found. IfNone found (IsRefusedForModels file.now)) }
{
    file.is_in_order();
    let Some(owners) = name_models(alloc, file.names().len(), file.models())? else {
        return Ok(None);
    };
    find_units(alloc, file, &owners)
}

/// The models by the numbers of so many names, unless two have one name.
fn name_models(
    alloc: Global,
    count: usize,
    models: &[ModelAt],
) -> Result<Option<Vec<u32>>, OutOfMemory>
    requires names { AllByRecursion (λ model. model.name < count) models.now }
    ensures owners { IfOk result (λ found. IfSome found (λ owners. AreOwners models.now owners.items)) }
    ensures twice { IfOk result (λ found. IfNone found (HaveNameTwice models.now)) }
{
    if MOST <= models.len() {
        return Err(OutOfMemory);
    }
    let mut owners = vec![in alloc; 0u32; count]?;
    for index in 0..models.len() {
        let name = model_at(models, index).name;
        if !own(&mut owners, name, index) {
            return Ok(None);
        }
    }
    Ok(Some(owners))
}

fn model_at(models: &[ModelAt], index: usize) -> ModelAt
    requires { index < length models.now }
    ensures { slice_get models.now index ≡ Some result }
{
    models[index]
}

/// Gives a name to the model of this number, unless another has it.
fn own(owners: &mut Vec<u32>, name: u32, model: usize) -> bool
    requires within { name < length owners.old.items }
    requires few { model + 1 < 2 ^ 32 }
    ensures free { IsTrue result → slice_get owners.old.items name ≡ Some 0 }
    ensures owned { IsTrue result → owners.new.items ≡ slice_set owners.old.items name (model + 1) }
    ensures other { IsFalse result → (m : ℕ) × (slice_get owners.old.items name ≡ Some (m + 1)) }
{
    let place = name as usize;
    if owners[place] != 0 {
        return false;
    }
    owners[place] = model as u32 + 1;
    true
}

/// The numbers of the models of all instances, unless one names no model.
fn find_units(
    alloc: Global,
    file: &NumberedFile<'_>,
    owners: &[u32],
) -> Result<Option<Vec<u32>>, OutOfMemory>
    requires owners { AreOwners file.now.models owners.now }
    requires apart { NoneHolds IsDuplicateModel (models_in file.now) }
    ensures units { IfOk result (λ found. IfSome found (λ units. AreUnits file.now units.items)) }
    ensures unknown { IfOk result (λ found. IfNone found ((k : ℕ) × NamesNoModel file.now k)) }
{
    let parts = file.parts();
    let mut units = Vec::with_capacity(alloc, parts.len())?;
    for index in 0..parts.len() {
        let Some(unit) = unit_of(file, owners, index) else {
            return Ok(None);
        };
        units.push(unit)?;
    }
    Ok(Some(units))
}

/// The number of the model of a part that is an instance, and 0 of another; `None` where an instance names no model.
fn unit_of(file: &NumberedFile<'_>, owners: &[u32], index: usize) -> Option<u32>
    requires owners { AreOwners file.now.models owners.now }
    requires within { index < length file.now.parts }
    ensures unit { IfSome result (λ unit. IsInstance file.now index → IsUnitOf file.now index unit) }
    ensures unknown { IfNone result (NamesNoModel file.now index) }
{
    if !is_instance(file.parts(), index) {
        return Some(0);
    }
    let Some(name) = first(file.words_of(index)) else {
        return None;
    };
    model_called(owners, name)
}

/// Whether the part at a place is an instance.
pub fn is_instance(parts: &[PartAt], index: usize) -> bool
    requires within { index < length parts.now }
    ensures instance { IsTrue result → (part : PartAt) × (slice_get parts.now index ≡ Some part) × (part.kind ≡ Instance) }
    ensures other { IsFalse result → (part : PartAt) → slice_get parts.now index ≡ Some part → part.kind ≡ Instance → ⊥ }
{
    match parts[index].kind {
        PartKind::Instance => true,
        _ => false,
    }
}

fn first(words: &[u32]) -> Option<u32>
    ensures word { IfSome result (λ word. slice_get words.now 0 ≡ Some word) }
    ensures none { IfNone result (slice_get words.now 0 ≡ None) }
{
    words.first().copied()
}

/// The number of the model that has a name.
fn model_called(owners: &[u32], name: u32) -> Option<u32>
    ensures model { IfSome result (λ model. slice_get owners.now name ≡ Some (model + 1)) }
    ensures none { IfNone result ((owner : ℕ) → slice_get owners.now name ≡ Some owner → owner ≡ 0) }
{
    let owner = owners.get(name as usize).copied()?;
    owner.checked_sub(1)
}

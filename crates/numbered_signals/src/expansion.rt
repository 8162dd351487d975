//! A file by numbers: its expanded list with a number in place of each signal.
ghost use Rattle.std.specs.Prelude.{◌≡◌, ◌<◌, ◌≤◌, ◌+◌, ℕ, IfOk, List, length, map};
ghost use Rattle.std.specs.List.{AllByRecursion};
ghost use Rattle.blif_ast.specs.Good.{IsGoodFile};
ghost use Rattle.numbered_file.specs.Numbered.{file_of, models_in, named};
ghost use Rattle.card_places.specs.CardPlaces.{AreCardPlaces};
ghost use Rattle.local_names.specs.LocalNames.{AreLocalNames};
ghost use Rattle.model_calls.specs.Counts.{signal_count};
ghost use Rattle.model_calls.specs.ModelCalls.{AreModelCalls, HavePlans};
ghost use Rattle.model_calls.specs.Occurrences.{main_model};
ghost use Rattle.model_calls.specs.Plans.{HasMainPlan, IsPlanned};
ghost use Rattle.model_calls.specs.Refusal.{At};
ghost use Rattle.model_calls.specs.Refusals.{HasRefusal};
ghost use Rattle.model_calls.specs.declared.fault.FlatKind.TheVariants.{Recursion};
ghost use Rattle.network.specs.Limits.{most_signals};
ghost use Rattle.numbered_signals.specs.ScopeRoots.{names_of_model, signals_with};
ghost use Rattle.part_numbers.specs.NumberedFiles.{HasNumbers};
ghost use Rattle.part_numbers.specs.SignalNumbers.{HasSignalNumber, signal_number};

use crate::parts::number_parts;
use crate::roots::ScopeRoots;
use crate::scopes::number_scopes;
use card_places::CardPlaces;
use dom_base::OutOfMemory;
use local_names::LocalNames;
use model_calls::{ModelCalls, Plan};
use numbered_file::{Names, NumberedFile};
use part_numbers::expand;
use std::alloc::Global;

/// The names of these numbers.
fn names_at<'t>(
    alloc: Global,
    names: &Names<'t>,
    numbers: &[u32],
) -> Result<Vec<&'t [u8]>, OutOfMemory>
    ensures { IfOk result (λ all. map (λ k. k.now) all.items ≡ named names.now numbers.now) }
{
    let mut all = Vec::with_capacity(alloc, numbers.len())?;
    for number in numbers {
        all.push(names.name(*number))?;
    }
    Ok(all)
}

/// The names of the main model.
fn main_names<'t>(
    alloc: Global,
    file: &NumberedFile<'t>,
    names: &LocalNames,
) -> Result<Vec<&'t [u8]>, OutOfMemory>
    requires names { AreLocalNames file.now names.now }
    requires some { 0 < length (models_in file.now) }
    ensures { IfOk result (λ all. map (λ k. k.now) all.items ≡ names_of_model file.now 0) }
{
    names_at(alloc, file.names(), names.names(0))
}

/// The numbers of the signals at the main model's inputs.
fn number_inputs(
    alloc: Global,
    file: &NumberedFile<'_>,
    names: &LocalNames,
    roots: &ScopeRoots,
) -> Result<Vec<u32>, OutOfMemory>
    requires names { AreLocalNames file.now names.now }
    requires some { 0 < length (models_in file.now) }
    requires there { AllByRecursion (HasSignalNumber (signals_with file.now roots.now) 0 0) (main_model (file_of file.now)).inputs }
    ensures { IfOk result (λ all. all.items
        ≡ map (signal_number (signals_with file.now roots.now) 0 0) (main_model (file_of file.now)).inputs) }
{
    roots.roots_of(alloc, 0, file.of_inputs(names.inputs(), 0))
}

/// The numbers of the signals at the main model's outputs.
fn number_outputs(
    alloc: Global,
    file: &NumberedFile<'_>,
    names: &LocalNames,
    roots: &ScopeRoots,
) -> Result<Vec<u32>, OutOfMemory>
    requires names { AreLocalNames file.now names.now }
    requires some { 0 < length (models_in file.now) }
    requires there { AllByRecursion (HasSignalNumber (signals_with file.now roots.now) 0 0) (main_model (file_of file.now)).outputs }
    ensures { IfOk result (λ all. all.items
        ≡ map (signal_number (signals_with file.now roots.now) 0 0) (main_model (file_of file.now)).outputs) }
{
    roots.roots_of(alloc, 0, file.of_outputs(names.outputs(), 0))
}

/// A good file of these plans by numbers, where `depth` is at least the rank of model 0 and no path passes more models.
fn number_file<'t>(
    alloc: Global,
    file: &NumberedFile<'t>,
    places: &CardPlaces,
    names: &LocalNames,
    plans: &[Plan],
    depth: usize,
) -> Result<part_numbers::NumberedFile<'t>, OutOfMemory>
    requires good { IsGoodFile (file_of file.now) }
    requires places { AreCardPlaces file.now places.now }
    requires names { AreLocalNames file.now names.now }
    requires planned { IsPlanned (file_of file.now) plans.now }
    requires ready { HasMainPlan plans.now depth }
    requires deep { length (models_in file.now) ≤ depth + 1 }
    requires no_recursion { (line : ℕ) (name : List ℕ) → HasRefusal (file_of file.now) (At Recursion line name) → ⊥ }
    requires few { signal_count (file_of file.now) ≤ most_signals }
    ensures { IfOk result (HasNumbers (file_of file.now)) }
{
    let expansion = expand(alloc, plans, depth)?;
    let roots = number_scopes(alloc, file, places, names, &expansion.scopes)?;
    Ok(part_numbers::NumberedFile {
        signals: roots.count(),
        names: main_names(alloc, file, names)?,
        parts: number_parts(alloc, file, places, names, &roots, &expansion.parts)?,
        inputs: number_inputs(alloc, file, names, &roots)?,
        outputs: number_outputs(alloc, file, names, &roots)?,
    })
}

/// A good file by numbers with a number in place of each signal, by the places of its cards, the names of its models, their calls and
/// their plans. It fails only for want of memory.
pub fn number<'t>(
    alloc: Global,
    file: &NumberedFile<'t>,
    places: &CardPlaces,
    names: &LocalNames,
    calls: &ModelCalls,
    plans: &[Plan],
) -> Result<part_numbers::NumberedFile<'t>, OutOfMemory>
    requires good { IsGoodFile (file_of file.now) }
    requires places { AreCardPlaces file.now places.now }
    requires names { AreLocalNames file.now names.now }
    requires calls { AreModelCalls (file_of file.now) calls.now }
    requires planned { HavePlans (models_in file.now) calls.now.nodes plans.now }
    requires few { signal_count (file_of file.now) ≤ most_signals }
    ensures { IfOk result (HasNumbers (file_of file.now)) }
{
    number_file(alloc, file, places, names, plans, calls.order.len())
}

//! How large the network of a file by numbers is, counted by model and not by path.
ghost use Rattle.std.specs.Prelude.{◌≡◌, ◌<◌, ◌+◌, ◌*◌, ◌-◌, ℕ, List, IfOk, Some, length, min, slice_get};
ghost use Rattle.blif_ast.specs.BlifModelData.{BlifModelData};
ghost use Rattle.blif_ast.specs.Good.{IsGoodFile};
ghost use Rattle.numbered_file.specs.Numbered.{Part, file_of, models_in, part_by, parts_of};
ghost use Rattle.numbered_file.specs.Places.{rows_at, words_at};
ghost use Rattle.graph_order.specs.WalkSums.{largest_u64};
ghost use Rattle.local_names.specs.LocalNames.{AreLocalNames};
ghost use Rattle.local_names.specs.PartWeights.{model_part_weight, part_weight};
ghost use Rattle.model_calls.specs.ModelCalls.{AreModelCalls};
ghost use Rattle.part_numbers.specs.NetworkSizes.{AreSizes, limit_count, model_weight, model_weights, path_weights};

use crate::model_numbers::{part_at, parts_end};
use crate::table::LocalNames;
use dom_base::OutOfMemory;
use graph_order::walk_sums;
use model_calls::{Limit, ModelCalls};
use numbered_file::{NumberedFile, PartKind};
use part_numbers::Sizes;
use std::alloc::Global;

/// How large the network of a file of these calls is, where `names` has the names of its models. It takes a time that is
/// linear in the file, and fails only for want of memory.
pub fn count(
    alloc: Global,
    file: &NumberedFile<'_>,
    calls: &ModelCalls,
    names: &LocalNames,
) -> Result<Sizes, OutOfMemory>
    requires good { IsGoodFile (file_of file.now) }
    requires named { AreLocalNames file.now names.now }
    requires planned { AreModelCalls (file_of file.now) calls.now }
    ensures { IfOk result (AreSizes (file_of file.now)) }
{
    Ok(Sizes {
        signals: count_for(alloc, file, calls, names, Limit::Signals)?,
        instances: count_for(alloc, file, calls, names, Limit::Instances)?,
        letters: count_for(alloc, file, calls, names, Limit::Letters)?,
        sinks: count_for(alloc, file, calls, names, Limit::Sinks)?,
    })
}

/// What a file counts for one limit; or 2^64 - 1 where that is larger.
pub fn count_for(
    alloc: Global,
    file: &NumberedFile<'_>,
    calls: &ModelCalls,
    names: &LocalNames,
    limit: Limit,
) -> Result<u64, OutOfMemory>
    requires good { IsGoodFile (file_of file.now) }
    requires named { AreLocalNames file.now names.now }
    requires planned { AreModelCalls (file_of file.now) calls.now }
    ensures { IfOk result (λ count. count ≡ min (limit_count limit (file_of file.now)) largest_u64) }
{
    let paths = count_over_paths(alloc, file, calls, names, limit)?;
    Ok(match limit {
        Limit::Sinks => paths.saturating_add(file.outputs_of(0).len() as u64),
        Limit::Signals | Limit::Instances | Limit::Letters => paths,
    })
}

/// What all paths count for a limit, without the main outputs; or 2^64 - 1 where that is larger.
fn count_over_paths(
    alloc: Global,
    file: &NumberedFile<'_>,
    calls: &ModelCalls,
    names: &LocalNames,
    limit: Limit,
) -> Result<u64, OutOfMemory>
    requires good { IsGoodFile (file_of file.now) }
    requires named { AreLocalNames file.now names.now }
    requires planned { AreModelCalls (file_of file.now) calls.now }
    ensures { IfOk result (λ count. count ≡ min (path_weights limit (file_of file.now)) largest_u64) }
{
    let weights = weigh_models(alloc, file, names, limit)?;
    let sums = walk_sums(alloc, &calls.nodes, &calls.order, &weights)?;
    Ok(sums[0])
}

/// What each model counts for a limit; or 2^64 - 1 where that is larger.
fn weigh_models(
    alloc: Global,
    file: &NumberedFile<'_>,
    names: &LocalNames,
    limit: Limit,
) -> Result<Vec<u64>, OutOfMemory>
    requires { AreLocalNames file.now names.now }
    ensures { IfOk result (λ weights. weights.items ≡ model_weights limit (models_in file.now)) }
{
    let mut weights = Vec::with_capacity(alloc, file.models().len())?;
    for model in 0..file.models().len() {
        weights.push(weigh(file, names, model, limit))?;
    }
    Ok(weights)
}

/// What a path to a model counts for a limit; or 2^64 - 1 where that is larger.
fn weigh(file: &NumberedFile<'_>, names: &LocalNames, model: usize, limit: Limit) -> u64
    requires named { AreLocalNames file.now names.now }
    requires within { model < length file.now.models }
    ensures { (m : BlifModelData) → slice_get (models_in file.now) model ≡ Some m
        → result ≡ min (model_weight limit m) largest_u64 }
{
    match limit {
        Limit::Signals => names.count(model) as u64,
        Limit::Instances => 1,
        Limit::Letters => weigh_parts(file, model, Limit::Letters),
        Limit::Sinks => weigh_parts(file, model, Limit::Sinks),
    }
}

/// What the parts of a model count for a limit; or 2^64 - 1 where that is larger.
fn weigh_parts(file: &NumberedFile<'_>, model: usize, limit: Limit) -> u64
    requires { model < length file.now.models }
    ensures { result ≡ min (model_part_weight limit file.now model) largest_u64 }
{
    file.is_in_order();
    let first = file.first_part(model);
    let end = parts_end(file, model);
    let mut total: u64 = 0;
    for place in first..end {
        total = total.saturating_add(weight_at(file, limit, place));
    }
    total
}

/// What the part at a place counts for a limit; or 2^64 - 1 where that is larger.
fn weight_at(file: &NumberedFile<'_>, limit: Limit, place: usize) -> u64
    requires { place < length file.now.parts }
    ensures { (part : Part) → slice_get (parts_of file.now) place ≡ Some part
        → result ≡ min (part_weight limit part) largest_u64 }
{
    match part_at(file, place) {
        Some(part) => weigh_part(file, limit, part.kind, place),
        None => unreachable!(),
    }
}

/// What the part of this kind at a place counts for a limit; or 2^64 - 1 where that is larger.
fn weigh_part(file: &NumberedFile<'_>, limit: Limit, kind: PartKind, place: usize) -> u64
    ensures { (text : List ℕ) (line : ℕ) (names : List (List ℕ)) → length names ≡ length (words_at file.now place)
        → result ≡ min (part_weight limit (part_by text kind line names (rows_at file.now place))) largest_u64 }
{
    match (limit, kind) {
        (Limit::Letters, PartKind::Table { .. }) => {
            letters_of(file.words_of(place).len(), file.rows_of(place))
        }
        (Limit::Sinks, PartKind::Latch { .. }) => 1,
        _ => 0,
    }
}

/// The letters of a table of so many words; or 2^64 - 1 where they are more.
fn letters_of(words: usize, rows: &[u32]) -> u64
    ensures { result ≡ min ((words - 1 + 1) * (length rows.now + 1)) largest_u64 }
{
    let width = words.saturating_sub(1) as u64 + 1;
    let height = rows.len() as u64 + 1;
    width.saturating_mul(height)
}

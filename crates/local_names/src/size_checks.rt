//! Whether the network of a file by numbers is within the limits.
ghost use Rattle.std.specs.Prelude.{◌≡◌, ◌≤◌, OnOk};
ghost use Rattle.blif_ast.specs.Good.{IsGoodFile};
ghost use Rattle.numbered_file.specs.Numbered.{file_of};
ghost use Rattle.local_names.specs.LocalNames.{AreLocalNames};
ghost use Rattle.model_calls.specs.Counts.{signal_count};
ghost use Rattle.model_calls.specs.ModelCalls.{AreModelCalls};
ghost use Rattle.model_calls.specs.declared.fault.FlatFault.TheVariants.{TooMany};
ghost use Rattle.network.specs.Limits.{most_signals};
ghost use Rattle.part_numbers.specs.NetworkSizes.{IsSizeCheck};

use crate::sizes::count_for;
use crate::table::LocalNames;
use model_calls::{FlatFault, Limit, ModelCalls};
use numbered_file::NumberedFile;
use std::alloc::Global;

const MOST_SIGNALS: u64 = 200_000;

const MOST_INSTANCES: u64 = 200_000;

const MOST_LETTERS: u64 = 400_000;

const MOST_SINKS: u64 = 8_192;

/// Refuses a file for the first of its counts that is above its limit: signals, instances, letters and sinks, in this order.
/// Where it ends well, none is. `names` has the names of the file's models. The other error is out of memory. That what comes
/// behind such a count isn't counted, and that the time is linear in the file, is no clause.
pub fn check_counts(
    alloc: Global,
    file: &NumberedFile<'_>,
    calls: &ModelCalls,
    names: &LocalNames,
) -> Result<(), FlatFault>
    requires good { IsGoodFile (file_of file.now) }
    requires named { AreLocalNames file.now names.now }
    requires planned { AreModelCalls (file_of file.now) calls.now }
    ensures check { IsSizeCheck (file_of file.now) result }
    ensures few { OnOk result (signal_count (file_of file.now) ≤ most_signals) }
{
    let signals = count_for(alloc, file, calls, names, Limit::Signals)?;
    if MOST_SIGNALS < signals {
        return Err(too_many(Limit::Signals, signals));
    }
    let instances = count_for(alloc, file, calls, names, Limit::Instances)?;
    if MOST_INSTANCES < instances {
        return Err(too_many(Limit::Instances, instances));
    }
    let letters = count_for(alloc, file, calls, names, Limit::Letters)?;
    if MOST_LETTERS < letters {
        return Err(too_many(Limit::Letters, letters));
    }
    let sinks = count_for(alloc, file, calls, names, Limit::Sinks)?;
    if MOST_SINKS < sinks {
        return Err(too_many(Limit::Sinks, sinks));
    }
    Ok(())
}

fn too_many(limit: Limit, count: u64) -> FlatFault
    ensures { result ≡ TooMany limit count }
{
    FlatFault::TooMany { limit, count }
}

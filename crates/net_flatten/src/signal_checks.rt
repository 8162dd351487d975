//! Whether anything of the signals of a file refuses it.
ghost use Rattle.std.specs.Prelude.{◌≢◌, ℕ, List, [], IfOk, IsErrOf};
ghost use Rattle.model_calls.specs.declared.fault.FlatKind.{FlatKind};
ghost use Rattle.model_calls.specs.declared.fault.Limit.{Limit};
ghost use Rattle.net_flatten.specs.Dependences.{AreTableLevels};
ghost use Rattle.part_numbers.specs.NumberedFiles.{HasNumbers};
ghost use Rattle.model_calls.specs.Refusal.{At, Refusal};
ghost use Rattle.model_calls.specs.Refusals.{HasRefusal, IsRefusal};
ghost use Rattle.net_flatten.specs.Unrefused.{HasNoRefusal};

use crate::clock_checks::{check_clocks, check_control};
use crate::cycle_check::check_cycles;
use crate::driver_checks::{check_drivers, check_readers};
use model_calls::FlatFault;
use part_numbers::{CardFile, NumberedFile};
use std::alloc::Global;

/// Looks for what refuses a file because of its signals, in order: drivers, readers, loops, clocks.
/// It gives the levels of all signals.
pub fn check_signals(
    alloc: Global,
    file: &CardFile<'_>,
    numbered: &NumberedFile<'_>,
) -> Result<Vec<usize>, FlatFault>
    requires some { file.now.models ≢ [] }
    requires numbers { HasNumbers file.now numbered.now }
    requires before { HasNoRefusal file.now 6 }
    ensures accepted { IfOk result (λ levels. (r : Refusal) → HasRefusal file.now r → ⊥) }
    ensures levels { IfOk result (λ levels. AreTableLevels numbered.now.signals numbered.now.parts levels.items) }
    ensures refused { (line : ℕ) (kind : FlatKind) (name : List ℕ) → IsErrOf result (FlatFault.At line kind name)
        → IsRefusal file.now (At kind line name) }
    ensures no_count { (limit : Limit) (count : ℕ) → IsErrOf result (FlatFault.TooMany limit count) → ⊥ }
{
    let driven = check_drivers(alloc, file, numbered)?;
    check_readers(alloc, file, numbered, &driven)?;
    let levels = check_cycles(alloc, file, numbered)?;
    check_clocks(alloc, file, numbered)?;
    check_control(alloc, file, numbered)?;
    Ok(levels)
}

//! Whether all latches are clocked alike, by a signal that nothing else uses.
ghost use Rattle.std.specs.Prelude.{◌≢◌, []};
ghost use Rattle.model_calls.specs.declared.fault.FlatKind.TheVariants.{ControlUsed, TwoControls};
ghost use Rattle.part_numbers.specs.CheckOutcomes.{IsCheckOf};
ghost use Rattle.part_numbers.specs.NumberedFiles.{HasNumbers};

use crate::clocking::{find_control, find_number, find_other_clock, has};
use model_calls::{FlatFault, FlatKind};
use part_numbers::{
    CardFile, NumberedFile, fault_at_control, fault_at_main_control, fault_at_output,
};
use std::alloc::Global;

/// Looks for the first latch with an edge or a signal that is another than an earlier latch's.
pub fn check_clocks(
    alloc: Global,
    file: &CardFile<'_>,
    numbered: &NumberedFile<'_>,
) -> Result<(), FlatFault>
    requires numbers { HasNumbers file.now numbered.now }
    ensures check { IsCheckOf file.now TwoControls result }
{
    match find_other_clock(file, numbered) {
        None => Ok(()),
        Some(index) => Err(fault_at_output(alloc, FlatKind::TwoControls, file, numbered, index)),
    }
}

/// Looks for the first reader or driver, main outputs being last, of the signal that controls the
/// latches. A main input is no such driver.
pub fn check_control(
    alloc: Global,
    file: &CardFile<'_>,
    numbered: &NumberedFile<'_>,
) -> Result<(), FlatFault>
    requires some { file.now.models ≢ [] }
    requires numbers { HasNumbers file.now numbered.now }
    ensures check { IsCheckOf file.now ControlUsed result }
{
    let parts = numbered.parts();
    let Some(control) = find_control(parts) else {
        return Ok(());
    };
    if let Some(index) = find_number(parts, control.number) {
        return Err(fault_at_control(
            alloc,
            FlatKind::ControlUsed,
            file,
            numbered,
            index,
            control.latch,
        ));
    }
    if has(numbered.outputs(), control.number) {
        return Err(fault_at_main_control(
            alloc,
            FlatKind::ControlUsed,
            file,
            numbered,
            control.latch,
        ));
    }
    Ok(())
}

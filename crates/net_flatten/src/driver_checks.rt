//! Whether each signal that is read has a driver, and none has two.
ghost use Rattle.std.specs.Prelude.{IfOk};
ghost use Rattle.model_calls.specs.declared.fault.FlatKind.TheVariants.{DrivenTwice, Undriven};
ghost use Rattle.part_numbers.specs.CheckOutcomes.{IsCheckOf};
ghost use Rattle.model_calls.specs.NumberSets.{IsSetOf};
ghost use Rattle.part_numbers.specs.NumberedFaults.{driven_by};
ghost use Rattle.part_numbers.specs.NumberedFiles.{HasNumbers};

use crate::driven::{Drivers, find_drivers, find_outside, find_read_outside};
use model_calls::{FlatFault, FlatKind, NumberSet};
use part_numbers::{CardFile, NumberedFile, fault_at_input, fault_at_main_output, fault_at_output};
use std::alloc::Global;

/// Looks for the first part that drives a signal with an earlier driver, main inputs being earliest.
/// It gives the set of all that is driven.
pub fn check_drivers(
    alloc: Global,
    file: &CardFile<'_>,
    numbered: &NumberedFile<'_>,
) -> Result<NumberSet, FlatFault>
    requires numbers { HasNumbers file.now numbered.now }
    ensures check { IsCheckOf file.now DrivenTwice result }
    ensures driven { IfOk result (IsSetOf numbered.now.signals (driven_by numbered.now.inputs numbered.now.parts)) }
{
    match find_drivers(alloc, numbered.signals, numbered.inputs(), numbered.parts())? {
        Drivers::Once(driven) => Ok(driven),
        Drivers::Twice(index) => Err(fault_at_output(
            alloc,
            FlatKind::DrivenTwice,
            file,
            numbered,
            index,
        )),
    }
}

/// Looks for the first reader of a signal that isn't driven, main outputs being last.
pub fn check_readers(
    alloc: Global,
    file: &CardFile<'_>,
    numbered: &NumberedFile<'_>,
    driven: &NumberSet,
) -> Result<(), FlatFault>
    requires numbers { HasNumbers file.now numbered.now }
    requires driven { IsSetOf numbered.now.signals (driven_by numbered.now.inputs numbered.now.parts) driven.now }
    ensures check { IsCheckOf file.now Undriven result }
{
    if let Some(at) = find_read_outside(driven, numbered.parts()) {
        return Err(fault_at_input(alloc, FlatKind::Undriven, file, numbered, at.part, at.read));
    }
    match find_outside(driven, numbered.outputs()) {
        None => Ok(()),
        Some(index) => Err(fault_at_main_output(alloc, FlatKind::Undriven, file, index)),
    }
}

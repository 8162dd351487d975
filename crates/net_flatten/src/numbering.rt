//! The numbers of the signals of a file in its network: inputs first, then what latches drive, then
//! what tables drive.
ghost use Rattle.std.specs.Prelude.{◌≡◌, ◌++◌, ◌<◌, ◌^◌, All, IfOk, List, OnOk, Some, length, map, slice_get};
ghost use Rattle.net_flatten.specs.declared.table_order.LevelledTable.{LevelledTable};
ghost use Rattle.net_flatten.specs.NetworkNumbers.{IsRenumbering, is_number, latches_among, pin_numbers};
ghost use Rattle.part_numbers.specs.NumberedFiles.{NumberedPartData};

use crate::table_order::LevelledTable;
use dom_base::OutOfMemory;
use part_numbers::{NumberedPart, PartCard};
use std::alloc::Global;

/// Whether the signal that controls latches, if there is one, has this number.
fn is_number(control: Option<u32>, number: u32) -> bool
    ensures { result ≡ is_number control number }
{
    match control {
        None => false,
        Some(known) => known == number,
    }
}

/// Appends the numbers of the main inputs without the signal that controls latches. It fails only for
/// want of memory.
pub fn add_pins(
    numbers: &mut Vec<u32>,
    inputs: &[u32],
    control: Option<u32>,
) -> Result<(), OutOfMemory>
    ensures { OnOk result (numbers.new.items ≡ numbers.old.items ++ pin_numbers control inputs.now) }
{
    for number in inputs {
        if !is_number(control, *number) {
            numbers.push(*number)?;
        }
    }
    Ok(())
}

/// Appends the numbers that latches drive. It fails only for want of memory.
pub fn add_states(numbers: &mut Vec<u32>, parts: &[NumberedPart]) -> Result<(), OutOfMemory>
    ensures { OnOk result (numbers.new.items
        ≡ numbers.old.items ++ map (λ (p : NumberedPartData). p.drives) (latches_among parts.now)) }
{
    for index in 0..parts.len() {
        let part = &parts[index];
        if let PartCard::Latch(_) = part.card {
            numbers.push(part.drives)?;
        }
    }
    Ok(())
}

/// Appends the numbers that some tables drive, in order. It fails only for want of memory.
pub fn add_outputs(
    numbers: &mut Vec<u32>,
    parts: &[NumberedPart],
    tables: &[LevelledTable],
) -> Result<(), OutOfMemory>
    requires there { All (λ t. t.part < length parts.now) tables.now }
    ensures { OnOk result ((ordered : List NumberedPartData)
        → map (λ (t : LevelledTable). slice_get parts.now t.part) tables.now ≡ map Some ordered
        → numbers.new.items ≡ numbers.old.items ++ map (λ (p : NumberedPartData). p.drives) ordered) }
{
    for index in 0..tables.len() {
        let table = tables[index];
        let part = &parts[table.part];
        numbers.push(part.drives)?;
    }
    Ok(())
}

/// The index of each number in a list, where it stands in the list. The one error is want of memory.
pub fn renumber(alloc: Global, signals: u32, numbers: &[u32]) -> Result<Vec<u32>, OutOfMemory>
    requires within { All (λ number. number < signals) numbers.now }
    requires few { length numbers.now < 2 ^ 32 }
    ensures { IfOk result (λ places. IsRenumbering signals numbers.now places.items) }
{
    let mut places = Vec::with_capacity(alloc, signals as usize)?;
    for _ in 0..signals {
        places.push(0)?;
    }
    for index in 0..numbers.len() {
        places[numbers[index] as usize] = index as u32;
    }
    Ok(places)
}

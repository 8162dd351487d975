//! The line of a cycle.
ghost use Rattle.std.specs.Prelude.{◌≡◌, ◌++◌, OnOk, OnErr};
ghost use Rattle.stim_text.specs.CycleLines.{cycle_line, pin_letters, out_letters, events_part};
ghost use Rattle.stim_text.specs.Fronts.{KeepsFront, cycle_front, cycle_rest};

use crate::CycleRow;
use dom_base::{OutOfMemory, Tri, append, append_number};

/// Appends the line `cycle C in PINS out OUTS`, and before its LF ` events E` where the row has
/// events. PINS and OUTS have a letter `0`, `1` or `X` for each value; of none they are `-`. It fails
/// only where it runs out of memory, and then the text is as it was.
pub fn write_cycle(text: &mut Vec<u8>, row: &CycleRow) -> Result<(), OutOfMemory>
    ensures line { OnOk result (text.new.items ≡ text.old.items ++ cycle_line row.now) }
    ensures unchanged { OnErr result (text.new.items ≡ text.old.items) }
{
    let before = text.len();
    match put_row(text, row) {
        Ok(()) => Ok(()),
        Err(fault) => {
            text.truncate(before);
            Err(fault)
        }
    }
}

fn put_row(text: &mut Vec<u8>, row: &CycleRow) -> Result<(), OutOfMemory>
    ensures line { OnOk result (text.new.items ≡ text.old.items ++ cycle_line row.now) }
    ensures front { KeepsFront text.old.items text.new.items }
{
    put_front(text, row)?;
    put_rest(text, row)
}

/// Appends `cycle C in PINS`.
fn put_front(text: &mut Vec<u8>, row: &CycleRow) -> Result<(), OutOfMemory>
    ensures line { OnOk result (text.new.items ≡ text.old.items ++ cycle_front row.now) }
    ensures front { KeepsFront text.old.items text.new.items }
{
    append(text, b"cycle ")?;
    append_number(text, row.cycle)?;
    append(text, b" in ")?;
    put_pins(text, &row.pins)
}

/// Appends ` out OUTS`, ` events E` where the row has events, and LF.
fn put_rest(text: &mut Vec<u8>, row: &CycleRow) -> Result<(), OutOfMemory>
    ensures line { OnOk result (text.new.items ≡ text.old.items ++ cycle_rest row.now) }
    ensures front { KeepsFront text.old.items text.new.items }
{
    append(text, b" out ")?;
    put_outs(text, &row.outs)?;
    put_events(text, row.events)?;
    append(text, b"\n")
}

fn put_pins(text: &mut Vec<u8>, pins: &[bool]) -> Result<(), OutOfMemory>
    ensures letters { OnOk result (text.new.items ≡ text.old.items ++ pin_letters pins.now) }
    ensures front { KeepsFront text.old.items text.new.items }
{
    if pins.is_empty() {
        return append(text, b"-");
    }
    for pin in pins {
        text.push(if *pin { b'1' } else { b'0' })?;
    }
    Ok(())
}

fn put_outs(text: &mut Vec<u8>, outs: &[Tri]) -> Result<(), OutOfMemory>
    ensures letters { OnOk result (text.new.items ≡ text.old.items ++ out_letters outs.now) }
    ensures front { KeepsFront text.old.items text.new.items }
{
    if outs.is_empty() {
        return append(text, b"-");
    }
    for out in outs {
        text.push(out.letter())?;
    }
    Ok(())
}

fn put_events(text: &mut Vec<u8>, events: Option<u64>) -> Result<(), OutOfMemory>
    ensures events { OnOk result (text.new.items ≡ text.old.items ++ events_part events) }
    ensures front { KeepsFront text.old.items text.new.items }
{
    match events {
        None => Ok(()),
        Some(events) => {
            append(text, b" events ")?;
            append_number(text, events)
        }
    }
}

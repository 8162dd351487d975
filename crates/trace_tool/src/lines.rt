//! The lines of a trace other than those of cycles, which stand in `stim_text`.
ghost use Rattle.std.specs.Prelude.{◌≡◌, ◌<◌, ◌++◌, OnOk, [], ◌∷◌, length, slice_index_or};
ghost use Rattle.trace_tool.specs.TraceLines.{event_line, event_lines, power_line, unsettled_line};

use crate::setup::Setup;
use deck::Circuit;
use dom_base::{OutOfMemory, append, append_number};
use event_sim::Event;

/// Appends the line of an event, where it is told.
pub fn append_event(text: &mut Vec<u8>, setup: &Setup<'_>, event: Event) -> Result<(), OutOfMemory>
    requires { event.net < length setup.now.circuit.nets }
    ensures { OnOk result (text.new.items ≡ text.old.items ++ event_lines setup.now (event ∷ [])) }
{
    if setup.is_told(event) {
        append_event_line(text, &setup.circuit, event)?;
    }
    Ok(())
}

/// Appends the line of an event.
fn append_event_line(text: &mut Vec<u8>, circuit: &Circuit, event: Event) -> Result<(), OutOfMemory>
    requires { event.net < length circuit.now.nets }
    ensures { OnOk result (text.new.items ≡ text.old.items ++ event_line circuit.now.nets event) }
{
    append(text, b"event ")?;
    append_number(text, event.step)?;
    append(text, b" ")?;
    append(text, name_of(circuit, event.net))?;
    append(text, b" ")?;
    append(
        text,
        &[event.before.letter(), b' ', event.after.letter(), b'\n'],
    )?;
    Ok(())
}

/// The name of a net.
fn name_of(circuit: &Circuit, net: u32) -> &[u8]
    requires { net < length circuit.now.nets }
    ensures { result.now ≡ slice_index_or circuit.now.nets net [] }
{
    circuit.nets[net as usize].as_bytes()
}

/// Appends the line of power, with the number of its events.
pub fn append_power(text: &mut Vec<u8>, events: u64) -> Result<(), OutOfMemory>
    ensures { OnOk result (text.new.items ≡ text.old.items ++ power_line events) }
{
    append(text, b"power events ")?;
    append_number(text, events)?;
    append(text, b"\n")?;
    Ok(())
}

/// Appends the line of a settling in a cycle that ended without rest after so many events.
pub fn append_unsettled(text: &mut Vec<u8>, cycle: u64, events: u64) -> Result<(), OutOfMemory>
    ensures { OnOk result (text.new.items ≡ text.old.items ++ unsettled_line cycle events) }
{
    append(text, b"unsettled cycle ")?;
    append_number(text, cycle)?;
    append(text, b" events ")?;
    append_number(text, events)?;
    append(text, b"\n")?;
    Ok(())
}

//! Inverters of a deck, one after the other.
ghost use Rattle.std.specs.Prelude.{◌≡◌, ◌≤◌, ◌+◌, ◌*◌, OnOk, length};
ghost use Rattle.deck.specs.Limits.{most_devices};
ghost use Rattle.deck.specs.NamedDevices.{with_devices};
ghost use Rattle.synth_flow.specs.MadeDecks.{HasRoomForInverters, inverters};

use deck::Circuit;
use dom_base::{NetName, OutOfMemory};
use latch_bind::push_sink;
use std::alloc::Global;

/// Appends an inverter for each of these outputs in order, from the gate at its place. The one error is
/// out of memory, and then some of the inverters may stand at the end.
pub fn push_inverters(
    alloc: Global,
    circuit: &mut Circuit,
    gates: &[NetName],
    outs: &[NetName],
) -> Result<(), OutOfMemory>
    requires one_each { length gates.now ≡ length outs.now }
    requires nets { HasRoomForInverters circuit.old outs.now }
    requires room { length circuit.old.devices + 2 * length outs.now ≤ most_devices }
    ensures { OnOk result (circuit.new ≡ with_devices circuit.old (inverters gates.now outs.now)) }
{
    'sinks: for k in 0..outs.len() {
        push_sink(alloc, circuit, &gates[k], &outs[k])?;
    }
    Ok(())
}

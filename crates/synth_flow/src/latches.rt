//! Latches of a deck, one after the other.
ghost use Rattle.std.specs.Prelude.{◌≡◌, ◌≤◌, ◌<◌, ◌+◌, ◌*◌, ◌^◌, OnOk, length, map, All};
ghost use Rattle.deck.specs.Limits.{most_devices};
ghost use Rattle.deck.specs.NamedDevices.{with_devices};
ghost use Rattle.network.specs.declared.network.NetLatch.{NetLatch};
ghost use Rattle.synth_flow.specs.MadeDecks.{IsBeforeLatch, latches_from};

use deck::Circuit;
use dom_base::OutOfMemory;
use latch_bind::{LatchPorts, push_held_latch};
use network::NetLatch;
use std::alloc::Global;

/// Appends the latches with their start values, in order from latch 0. The one error is out of memory,
/// and then some of the latches may stand at the end.
pub fn push_latches(
    alloc: Global,
    circuit: &mut Circuit,
    latches: &[NetLatch],
) -> Result<(), OutOfMemory>
    requires few { length latches.now < 2 ^ 32 }
    requires nets { All (IsBeforeLatch 0) circuit.old.nets }
    requires room { length circuit.old.devices + 9 * length latches.now ≤ most_devices }
    ensures { OnOk result (circuit.new ≡ with_devices circuit.old (latches_from 0 (map (λ (l : NetLatch). l.init) latches.now))) }
{
    let ports = LatchPorts::new(alloc, circuit)?;
    'latches: for j in 0..latches.len() {
        push_held_latch(alloc, circuit, &ports, j as u32, latches[j].init)?;
    }
    Ok(())
}

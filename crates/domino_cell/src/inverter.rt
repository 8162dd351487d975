//! The devices of an inverter.
ghost use Rattle.std.specs.Prelude.{◌≡◌, ◌≤◌, ◌+◌, IfOk, OnOk, Some, length, slice_get};
ghost use Rattle.deck.specs.CircuitGrowth.{Grew};
ghost use Rattle.deck.specs.Limits.{most_devices};
ghost use Rattle.deck.specs.NamedDevices.{with_devices};
ghost use Rattle.deck.specs.NetsAt.{StandsAt};
ghost use Rattle.domino_cell.specs.Cell.{inverter};

use deck::{Circuit, Device, NetAt, push_held};
use dom_base::{Kind, OutOfMemory};

/// Appends the two devices of the inverter from `gate` to `out`, where each net stands at the number that is held
/// for it, and gives the second one. The one error is out of memory, and then the first may stand at the end.
pub fn push_inverter(
    circuit: &mut Circuit,
    gate: NetAt<'_>,
    out: NetAt<'_>,
    vdd: NetAt<'_>,
    vss: NetAt<'_>,
) -> Result<Device, OutOfMemory>
    requires room { length circuit.old.devices + 2 ≤ most_devices }
    requires gate { StandsAt circuit.old.nets gate.number gate.name.now }
    requires out { StandsAt circuit.old.nets out.number out.name.now }
    requires vdd { StandsAt circuit.old.nets vdd.number vdd.name.now }
    requires vss { StandsAt circuit.old.nets vss.number vss.name.now }
    ensures devices { OnOk result (circuit.new ≡ with_devices circuit.old
        (inverter vdd.entry.name.now vss.entry.name.now gate.entry.name.now out.entry.name.now)) }
    ensures stands { IfOk result (λ device. slice_get circuit.new.nets device.drain ≡ Some out.entry.name.now) }
    ensures grew { Grew circuit.old circuit.new }
{
    let first = push_held(circuit, Kind::P, out, gate, vdd)?;
    let out = out.at(first.drain);
    let gate = gate.at(first.gate);
    let second = push_held(circuit, Kind::N, out, gate, vss)?;
    Ok(second)
}

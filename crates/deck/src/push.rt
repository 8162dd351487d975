//! Devices that are added between nets whose numbers may be known.
ghost use Rattle.std.specs.Prelude.{◌≡◌, ◌<◌, ◌+◌, ◌++◌, ◌∷◌, ◌^◌, [], IfOk, OnErr, OnOk, length, nat_eq, take};
ghost use Rattle.std.specs.Cmp.Lexicographic.{pointwise};
ghost use Rattle.std.specs.List.{IsDistinct};
ghost use Rattle.deck.specs.CircuitGrowth.{Grew};
ghost use Rattle.deck.specs.Limits.{most_devices};
ghost use Rattle.deck.specs.Nets.{with_nets};
ghost use Rattle.deck.specs.NetsAt.{HasEnds, StandsAt};
ghost use Rattle.deck.specs.Pushes.{added_device, pushed};

use crate::net_at::NetAt;
use crate::number::{NetSet, number_ends};
use crate::{Circuit, Device};
use dom_base::{Kind, OutOfMemory};

/// Makes room for so many nets more, where memory suffices. The circuit stays as it is.
pub fn reserve_nets(circuit: &mut Circuit, more: usize)
    ensures { circuit.new ≡ circuit.old }
{
    match circuit.nets.reserve(more) {
        Ok(()) => {}
        Err(_) => {}
    }
}

/// Adds a device between these nets at the end, and gives it. A net that is new takes the next
/// number, drain before gate before source. The one error is out of memory, and it leaves the
/// circuit as it was.
pub fn push_at(
    circuit: &mut Circuit,
    kind: Kind,
    drain: NetAt<'_>,
    gate: NetAt<'_>,
    source: NetAt<'_>,
) -> Result<Device, OutOfMemory>
    requires { length circuit.old.devices < most_devices }
    ensures ok { OnOk result (circuit.new ≡ pushed circuit.old kind drain.entry.name.now gate.entry.name.now source.entry.name.now) }
    ensures device { IfOk result (λ device. device ≡ added_device circuit.old.nets kind drain.entry.name.now gate.entry.name.now source.entry.name.now) }
    ensures err { OnErr result (circuit.new ≡ circuit.old) }
    ensures grew { Grew circuit.old circuit.new }
{
    let drain = drain.checked(circuit);
    let gate = gate.checked(circuit);
    let source = source.checked(circuit);
    push_held(circuit, kind, drain, gate, source)
}

/// Adds a device between these nets at the end, and gives it, where each net stands at the number that is held
/// for it. A net that is new takes the next number, drain before gate before source. The one error is out of
/// memory, and it leaves the circuit as it was.
pub fn push_held(
    circuit: &mut Circuit,
    kind: Kind,
    drain: NetAt<'_>,
    gate: NetAt<'_>,
    source: NetAt<'_>,
) -> Result<Device, OutOfMemory>
    requires room { length circuit.old.devices < most_devices }
    requires drain { StandsAt circuit.old.nets drain.number drain.name.now }
    requires gate { StandsAt circuit.old.nets gate.number gate.name.now }
    requires source { StandsAt circuit.old.nets source.number source.name.now }
    ensures ok { OnOk result (circuit.new ≡ pushed circuit.old kind drain.entry.name.now gate.entry.name.now source.entry.name.now) }
    ensures device { IfOk result (λ device. device ≡ added_device circuit.old.nets kind drain.entry.name.now gate.entry.name.now source.entry.name.now) }
    ensures ends { IfOk result (HasEnds circuit.new.nets drain.entry.name.now gate.entry.name.now source.entry.name.now) }
    ensures err { OnErr result (circuit.new ≡ circuit.old) }
    ensures grew { Grew circuit.old circuit.new }
{
    let before = circuit.nets.len();
    match push_device(
        &mut circuit.nets,
        &mut circuit.devices,
        kind,
        drain,
        gate,
        source,
    ) {
        Ok(device) => Ok(device),
        Err(failed) => {
            circuit.nets.truncate(before);
            Err(failed)
        }
    }
}

/// Adds a device between these nets at the end, and its nets where they are new. After a refusal some
/// of the nets may stand at the end.
fn push_device(
    nets: &mut NetSet,
    devices: &mut Vec<Device>,
    kind: Kind,
    drain: NetAt<'_>,
    gate: NetAt<'_>,
    source: NetAt<'_>,
) -> Result<Device, OutOfMemory>
    requires few { length nets.old.keys + 3 < 2 ^ 32 }
    requires drain { StandsAt nets.old.keys drain.number drain.name.now }
    requires gate { StandsAt nets.old.keys gate.number gate.name.now }
    requires source { StandsAt nets.old.keys source.number source.name.now }
    requires distinct { IsDistinct (pointwise nat_eq) nets.old.keys }
    ensures nets { OnOk result (nets.new.keys ≡ with_nets nets.old.keys drain.entry.name.now gate.entry.name.now source.entry.name.now) }
    ensures devices { OnOk result (devices.new.items
        ≡ devices.old.items ++ added_device nets.old.keys kind drain.entry.name.now gate.entry.name.now source.entry.name.now ∷ []) }
    ensures device { IfOk result (λ device. device ≡ added_device nets.old.keys kind drain.entry.name.now gate.entry.name.now source.entry.name.now) }
    ensures kept { OnErr result (devices.new.items ≡ devices.old.items) }
    ensures begins { take (length nets.old.keys) nets.new.keys ≡ nets.old.keys }
{
    let (drain, gate, source) = number_ends(nets, drain, gate, source)?;
    let device = Device {
        kind,
        drain: drain as u32,
        gate: gate as u32,
        source: source as u32,
    };
    devices.push(device)?;
    Ok(device)
}

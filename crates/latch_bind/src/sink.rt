//! The inverters of sinks.
ghost use Rattle.std.specs.Prelude.{◌≡◌, ◌≤◌, ◌+◌, OnErr, OnOk, length};
ghost use Rattle.deck.specs.Limits.{most_devices};
ghost use Rattle.deck.specs.NamedDevices.{with_devices};
ghost use Rattle.sp_network.specs.Tree.{Leaf};
ghost use Rattle.domino_cell.specs.PushedPaths.{IsDrivenByTree};
ghost use Rattle.latch_bind.specs.Sinks.{HasRoomForSink, sink_inverter};

use crate::names::SupplyNames;
use deck::{Circuit, NetAt};
use dom_base::{NetName, OutOfMemory};
use domino_cell::push_inverter;
use std::alloc::Global;

/// Appends the inverter of a sink from `gate` to `out`. Where the value of `gate` is known, a
/// definite strong path joins `out` to one supply, and no possible one joins it to the other: to
/// `vss` where `gate` is 1. The one error is out of memory, and it leaves the circuit as it was.
pub fn push_sink(
    alloc: Global,
    circuit: &mut Circuit,
    gate: &NetName,
    out: &NetName,
) -> Result<(), OutOfMemory>
    requires nets { HasRoomForSink circuit.old out.now }
    requires room { length circuit.old.devices + 2 ≤ most_devices }
    ensures devices { OnOk result (circuit.new ≡ with_devices circuit.old (sink_inverter gate.now out.now)) }
    ensures driven { OnOk result (IsDrivenByTree circuit.new out.now (Leaf gate.now)) }
    ensures refused { OnErr result (circuit.new ≡ circuit.old) }
{
    let supplies = SupplyNames::new(alloc)?;
    let before = circuit.device_count();
    let input = NetAt::named(gate);
    let output = NetAt::named(out);
    let vdd = supplies.vdd_net().checked(circuit);
    let vss = supplies.vss_net().checked(circuit);
    match push_inverter(circuit, input, output, vdd, vss) {
        Ok(_) => Ok(()),
        Err(failed) => {
            circuit.cut(before);
            Err(failed)
        }
    }
}

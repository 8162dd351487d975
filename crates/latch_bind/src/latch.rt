//! Latches.
ghost use Rattle.std.specs.Prelude.{◌≡◌, ◌≤◌, ◌<◌, ◌+◌, ◌++◌, ◌∷◌, [], OnErr, OnOk, length};
ghost use Rattle.deck.specs.CircuitGrowth.{Grew};
ghost use Rattle.deck.specs.Limits.{most_devices};
ghost use Rattle.deck.specs.NamedDevices.{with_devices};
ghost use Rattle.deck.specs.Pushes.{pushed};
ghost use Rattle.latch_bind.specs.HeldNames.{AreLatchPorts, held_inverter, held_reset};
ghost use Rattle.latch_bind.specs.Latches.{HasRoomForLatch, named_latch};

use crate::names::{ClockNets, LatchPorts, StageNames, SupplyNames};
use deck::{Circuit, NetAt, numbered_name, push_at};
use dom_base::{Kind, NetName, OutOfMemory};
use std::alloc::Global;

/// Appends the nine devices of latch `j` with its start value: a master that takes the net `xJ`
/// while `lm` is 1, an output `qJ` that takes the master while `ls` is 1, and a device that resets
/// the output. The one error is out of memory, and it leaves the circuit as it was.
pub fn push_latch(
    alloc: Global,
    circuit: &mut Circuit,
    j: u32,
    init: bool,
) -> Result<(), OutOfMemory>
    requires nets { HasRoomForLatch circuit.old j }
    requires room { length circuit.old.devices + 9 ≤ most_devices }
    ensures devices { OnOk result (circuit.new ≡ with_devices circuit.old (named_latch (j, init))) }
    ensures refused { OnErr result (circuit.new ≡ circuit.old) }
{
    let ports = LatchPorts::new(alloc, circuit)?;
    push_held_latch(alloc, circuit, &ports, j, init)
}

/// Appends the nine devices of latch `j` as `push_latch` does, where `ports` has the names of the ports. The one
/// error is out of memory, and it leaves the circuit as it was.
pub fn push_held_latch(
    alloc: Global,
    circuit: &mut Circuit,
    ports: &LatchPorts,
    j: u32,
    init: bool,
) -> Result<(), OutOfMemory>
    requires ports { AreLatchPorts ports.now }
    requires nets { HasRoomForLatch circuit.old j }
    requires room { length circuit.old.devices + 9 ≤ most_devices }
    ensures devices { OnOk result (circuit.new ≡ with_devices circuit.old (named_latch (j, init))) }
    ensures refused { OnErr result (circuit.new ≡ circuit.old) }
{
    let input = numbered_name(alloc, b"x", j)?;
    let master = StageNames::new(alloc, b"m", j)?;
    let slave = StageNames::new(alloc, b"q", j)?;
    push_named_latch(circuit, ports, &master, &slave, &input, init)
}

/// Appends the master, the slave and the reset device of a latch. The one error is out of memory, and it leaves the
/// circuit as it was.
fn push_named_latch(
    circuit: &mut Circuit,
    ports: &LatchPorts,
    master: &StageNames,
    slave: &StageNames,
    input: &NetName,
    init: bool,
) -> Result<(), OutOfMemory>
    requires { length circuit.old.devices + 9 ≤ most_devices }
    ensures devices { OnOk result (circuit.new ≡ with_devices circuit.old
        (held_inverter ports.now.supplies master.now ports.now.master ports.now.master_opposite input.now
        ++ held_inverter ports.now.supplies slave.now ports.now.slave ports.now.slave_opposite master.now.out
        ++ held_reset ports.now slave.now.out init ∷ [])) }
    ensures refused { OnErr result (circuit.new ≡ circuit.old) }
{
    let before = circuit.device_count();
    match push_parts(circuit, ports, master, slave, input, init) {
        Ok(()) => Ok(()),
        Err(failed) => {
            circuit.cut(before);
            Err(failed)
        }
    }
}

/// Appends the master, the slave and the reset device of a latch. After a refusal some of their
/// devices may stand at the end.
fn push_parts(
    circuit: &mut Circuit,
    ports: &LatchPorts,
    master: &StageNames,
    slave: &StageNames,
    input: &NetName,
    init: bool,
) -> Result<(), OutOfMemory>
    requires { length circuit.old.devices + 9 ≤ most_devices }
    ensures devices { OnOk result (circuit.new ≡ with_devices circuit.old
        (held_inverter ports.now.supplies master.now ports.now.master ports.now.master_opposite input.now
        ++ held_inverter ports.now.supplies slave.now ports.now.slave ports.now.slave_opposite master.now.out
        ++ held_reset ports.now slave.now.out init ∷ [])) }
    ensures grew { Grew circuit.old circuit.new }
{
    let supplies = &ports.supplies;
    let data = NetAt::named(input);
    let held = push_inverter(circuit, supplies, master, ports.master_clocks(), data)?;
    let data = NetAt::named(&master.out).at(held);
    let number = push_inverter(circuit, supplies, slave, ports.slave_clocks(), data)?;
    let out = NetAt::named(&slave.out).at(number);
    push_reset(circuit, ports, out, init)?;
    Ok(())
}

/// Appends the four devices of a clocked inverter, and gives a number that its output may have. After
/// a refusal some of them may stand at the end.
fn push_inverter(
    circuit: &mut Circuit,
    supplies: &SupplyNames,
    stage: &StageNames,
    clocks: ClockNets<'_>,
    input: NetAt<'_>,
) -> Result<u32, OutOfMemory>
    requires { length circuit.old.devices + 4 ≤ most_devices }
    ensures devices { OnOk result (circuit.new ≡ with_devices circuit.old
        (held_inverter supplies.now stage.now clocks.entry.clock.name.now clocks.entry.opposite.name.now input.entry.name.now)) }
    ensures grew { Grew circuit.old circuit.new }
{
    let vdd = supplies.vdd_net();
    let vss = supplies.vss_net();
    let out = NetAt::named(&stage.out);
    let upper = &stage.upper;
    let (number, data) = push_branch(circuit, Kind::P, out, clocks.opposite, upper, input, vdd)?;
    let out = out.at(number);
    let input = input.at(data);
    push_branch(
        circuit,
        Kind::N,
        out,
        clocks.clock,
        &stage.lower,
        input,
        vss,
    )?;
    Ok(number)
}

/// Appends the two devices in series of a branch of a clocked inverter, from its output to a supply,
/// with the net between them, and gives numbers that its output and its data may have. After a refusal
/// one of them may stand at the end.
fn push_branch(
    circuit: &mut Circuit,
    kind: Kind,
    out: NetAt<'_>,
    clock: NetAt<'_>,
    between: &NetName,
    input: NetAt<'_>,
    supply: NetAt<'_>,
) -> Result<(u32, u32), OutOfMemory>
    requires { length circuit.old.devices + 2 ≤ most_devices }
    ensures devices { OnOk result (circuit.new ≡ pushed (pushed circuit.old kind out.entry.name.now clock.entry.name.now between.now)
        kind between.now input.entry.name.now supply.entry.name.now) }
    ensures grew { Grew circuit.old circuit.new }
{
    let middle = NetAt::named(between);
    let first = push_at(circuit, kind, out, clock, middle)?;
    let middle = middle.at(first.source);
    let second = push_at(circuit, kind, middle, input, supply)?;
    Ok((first.drain, second.gate))
}

/// Appends the device that resets `out` to the start value.
fn push_reset(
    circuit: &mut Circuit,
    ports: &LatchPorts,
    out: NetAt<'_>,
    init: bool,
) -> Result<(), OutOfMemory>
    requires { length circuit.old.devices < most_devices }
    ensures devices { OnOk result (circuit.new ≡ with_devices circuit.old (held_reset ports.now out.entry.name.now init ∷ [])) }
    ensures refused { OnErr result (circuit.new ≡ circuit.old) }
{
    let supplies = &ports.supplies;
    if init {
        let reset = ports.reset_opposite_net();
        push_at(circuit, Kind::P, out, reset, supplies.vdd_net())?;
    } else {
        push_at(circuit, Kind::N, out, ports.reset_net(), supplies.vss_net())?;
    }
    Ok(())
}

//! Circuits.
ghost use Rattle.std.specs.Prelude.{◌≡◌, ◌<◌, ◌≤◌, ◌+◌, ◌++◌, All, IfOk, OnErr, OnOk, length, nat_eq};
ghost use Rattle.std.specs.Cmp.Lexicographic.{pointwise};
ghost use Rattle.std.specs.List.{IsDistinct};
ghost use Rattle.dom_base.specs.Names.{IsNetName};
ghost use Rattle.deck.specs.Limits.{most_clocks, most_devices, most_pins_and_outputs};
ghost use Rattle.deck.specs.Nets.{IsCircuit};
ghost use Rattle.deck.specs.Ports.{IsOutput, IsPin};
ghost use Rattle.deck.specs.Pushes.{new_circuit, pushed};
ghost use Rattle.deck.specs.Whole.{IsWhole};

use crate::net_at::NetAt;
use crate::number::{NetSet, add_all};
use crate::ports::leading_nets;
use crate::push::push_held;
use crate::{Device, Phase};
use dom_base::{Crowd, Kind, NameDigest, NameHash, NetName, OutOfMemory};
use std::alloc::Global;
use std::marker::Model;

/// A subcircuit of transistors. Its first `ports` nets are its ports; the other nets stand in
/// order of first appearance over the devices, drain before gate before source. It has at most
/// 16,777,216 devices and 1,048,576 ports.
#[derive(Drop)]
pub struct Circuit {
    pub name: NetName,
    pub phases: Vec<Phase>,
    pub ports: u32,
    pub nets: NetSet,
    pub devices: Vec<Device>,
}

impl Model for Circuit {
    ghost use Rattle.deck.specs.CircuitData.{CircuitData};
    ghost use Rattle.deck.specs.Nets.{IsCircuit};

    ghost Value = { CircuitData };

    ghost view = { λ c.
        record { name = c.name; phases = c.phases.items; ports = c.ports; nets = c.nets.keys; devices = c.devices.items } };

    ghost invariant = { λ c. IsCircuit c.ports c.nets.keys c.devices.items };
}

impl Circuit {
    /// A circuit without devices. Its ports are `vdd`, `vss`, the clocks `ck1` to `ckP` with P for
    /// `clocks`, the clocks and resets of latches `lm`, `lmb`, `ls`, `lsb`, `rs`, `rsb`, then `pins`
    /// and then `outs`. The one error is out of memory.
    pub fn new(
        alloc: Global,
        name: NetName,
        phases: Vec<Phase>,
        clocks: u8,
        pins: &[NetName],
        outs: &[NetName],
    ) -> Result<Circuit, OutOfMemory>
        requires some_clock { 1 ≤ clocks }
        requires few_clocks { clocks ≤ most_clocks }
        requires pins_begin { All IsPin pins.now }
        requires outs_begin { All IsOutput outs.now }
        requires apart { IsDistinct (pointwise nat_eq) (pins.now ++ outs.now) }
        requires few { length pins.now + length outs.now ≤ most_pins_and_outputs }
        ensures { IfOk result (λ c. c ≡ new_circuit name phases.items clocks pins.now outs.now) }
    {
        let mut nets = leading_nets(alloc, hash_of(alloc, pins, outs)?, clocks)?;
        add_all(&mut nets, pins)?;
        add_all(&mut nets, outs)?;
        let devices = Vec::new(alloc);
        let ports = nets.len() as u32;
        Ok(Circuit {
            name,
            phases,
            ports,
            nets,
            devices,
        })
    }

    /// Adds a device between the nets of these names at the end. A net that is new takes the next
    /// number, drain before gate before source. The one error is out of memory, and it leaves the
    /// circuit as it was.
    pub fn push(
        &mut self,
        kind: Kind,
        drain: &NetName,
        gate: &NetName,
        source: &NetName,
    ) -> Result<(), OutOfMemory>
        requires { length self.old.devices < most_devices }
        ensures ok { OnOk result (self.new ≡ pushed self.old kind drain.now gate.now source.now) }
        ensures err { OnErr result (self.new ≡ self.old) }
    {
        let drain = NetAt::found(self, drain);
        let gate = NetAt::found(self, gate);
        let source = NetAt::found(self, source);
        push_held(self, kind, drain, gate, source)?;
        Ok(())
    }

    /// The number of devices, at most 16,777,216.
    pub fn device_count(&self) -> u32
        ensures count { result ≡ length self.now.devices }
        ensures whole { IsCircuit self.now.ports self.now.nets self.now.devices }
    {
        self.devices.len() as u32
    }

    /// The circuit is whole: its nets are numbered in order of first appearance, and its names are
    /// names of nets. It changes nothing and takes no memory.
    pub fn whole(&self)
        ensures whole { IsWhole self.now }
    {
        self.name.as_bytes();
        see_phases(self.phases.as_slice());
        see_names(self.nets.as_slice());
    }
}

/// A hash for a circuit with these pins and outputs, whose other nets no stranger names.
fn hash_of(alloc: Global, pins: &[NetName], outs: &[NetName]) -> Result<NameHash, OutOfMemory> {
    let mut crowd = Crowd::new(alloc, NameHash::known());
    crowd.make_room(pins.len().saturating_add(outs.len()))?;
    count_names(&mut crowd, pins);
    count_names(&mut crowd, outs);
    if !crowd.is_crowded() {
        return Ok(crowd.hash());
    }
    let mut digest = NameDigest::new(alloc);
    add_names(&mut digest, pins)?;
    add_names(&mut digest, outs)?;
    Ok(digest.hash())
}

fn count_names(crowd: &mut Crowd, names: &[NetName]) {
    for name in names {
        crowd.count(name);
    }
}

fn add_names<'a>(digest: &mut NameDigest<'a>, names: &'a [NetName]) -> Result<(), OutOfMemory> {
    for name in names {
        digest.add(name.as_bytes())?;
    }
    Ok(())
}

/// The names of phases are names of nets.
fn see_phases(phases: &[Phase])
    ensures { All (λ phase. IsNetName phase.net) phases.now }
{
    for phase in phases {
        phase.net.as_bytes();
    }
}

/// The names are names of nets.
fn see_names(names: &[NetName])
    ensures { All IsNetName names.now }
{
    for name in names {
        name.as_bytes();
    }
}

//! A subcircuit, as it is read.
ghost use Rattle.std.specs.Prelude.{◌≡◌, ◌<◌, ◌≤◌, ◌+◌, ◌^◌, IfOk, OnOk, Option, Some, None, MatchOption, length, max};
ghost use Rattle.std.specs.List.{AllByRecursion};
ghost use Rattle.deck.specs.Limits.{most_devices};
ghost use Rattle.deck.specs.Nets.{net_number, with_net};
ghost use Rattle.subckt_expand.specs.Definitions.{has_dot, has_dotted, opened, port_names, with_call, with_device};

use crate::net::number;
use crate::part::{Call, LocalDevice, Part};
use deck::NetSet;
use dom_base::{Kind, NetName, OutOfMemory};
use std::alloc::Global;
use std::marker::Model;

/// Whether a name has a `.`.
fn has_dot(name: &NetName) -> bool
    ensures { result ≡ has_dot name.now }
{
    name.as_bytes().iter().any(|byte| *byte == b'.')
}

/// Whether one of these names has a `.`.
fn has_dotted(names: &[NetName]) -> bool
    ensures { result ≡ has_dotted names.now }
{
    names.iter().any(|name| has_dot(name))
}

/// A subcircuit: its name, its nets with the ports first, its devices and its calls of subcircuits
/// with devices in the order of their cards, the number of devices that it stands for, and its depth,
/// which is 0 without calls and else one more than the greatest depth of those that it calls.
#[derive(Drop)]
pub struct Definition {
    pub name: NetName,
    pub ports: usize,
    pub nets: NetSet,
    pub calls: Vec<Call>,
    pub parts: Vec<Part>,
    pub devices: u32,
    pub depth: u32,
}

impl Model for Definition {
    ghost use Rattle.subckt_expand.specs.Definitions.{DefinitionData, IsDefinition};

    ghost Value = { DefinitionData };

    ghost view = { λ d. record {
      name = d.name;
      ports = d.ports;
      nets = d.nets.keys;
      calls = d.calls.items;
      parts = d.parts.items;
      devices = d.devices;
      depth = d.depth;
    } };

    ghost invariant = { λ d. IsDefinition (record {
      name = d.name;
      ports = d.ports;
      nets = d.nets.keys;
      calls = d.calls.items;
      parts = d.parts.items;
      devices = d.devices;
      depth = d.depth;
    }) };
}

impl Definition {
    /// A subcircuit of this name with these ports, without devices and calls.
    pub fn new(alloc: Global, name: NetName, ports: NetSet) -> Definition
        ensures { result ≡ opened name ports.keys }
    {
        Definition {
            name,
            ports: ports.len(),
            nets: ports,
            calls: Vec::new(alloc),
            parts: Vec::new(alloc),
            devices: 0,
            depth: 0,
        }
    }

    /// The number of a net of the subcircuit, which is added where it is new. The one error is out of
    /// memory.
    pub fn number(&mut self, name: NetName) -> Result<usize, OutOfMemory>
        ensures number { IfOk result (λ i. i ≡ net_number self.old.nets name) }
        ensures nets { OnOk result (self.new ≡ record self.old { nets = with_net self.old.nets name }) }
    {
        number(&mut self.nets, name)
    }

    /// Adds a device. The one error is out of memory.
    pub fn push_device(
        &mut self,
        kind: Kind,
        drain: NetName,
        gate: NetName,
        source: NetName,
    ) -> Result<(), OutOfMemory>
        requires { self.old.devices < most_devices }
        ensures { OnOk result (self.new ≡ with_device self.old kind drain gate source) }
    {
        let drain = self.number(drain)?;
        let gate = self.number(gate)?;
        let source = self.number(source)?;
        self.parts.push(Part::Own(LocalDevice {
            kind,
            drain,
            gate,
            source,
        }))?;
        self.devices += 1;
        Ok(())
    }

    /// Adds the call of a subcircuit with so many devices, which is so deep. A call of one without
    /// devices counts for the depth alone. The one error is out of memory.
    pub fn push_call(&mut self, call: Call, devices: u32, depth: u32) -> Result<(), OutOfMemory>
        requires nets { AllByRecursion (λ net. net < length self.old.nets) call.nets }
        requires few { self.old.devices + devices ≤ most_devices }
        requires shallow { depth < 2 ^ 31 }
        ensures { OnOk result (self.new ≡ with_call self.old call devices depth) }
    {
        self.depth = self.depth.max(depth + 1);
        if devices == 0 {
            return Ok(());
        }
        let index = self.calls.len();
        self.calls.push(call)?;
        self.parts.push(Part::Called(index))?;
        self.devices += devices;
        Ok(())
    }

    /// The names of the ports.
    pub fn port_names(&self) -> &[NetName]
        ensures { result.now ≡ port_names self.now }
    {
        &self.nets.as_slice()[..self.ports]
    }

    /// Whether a port has a `.` in its name, as inner nets of calls have.
    pub fn has_dotted_port(&self) -> bool
        ensures { result ≡ has_dotted (port_names self.now) }
    {
        has_dotted(self.port_names())
    }

    /// The number of a port by its name.
    pub fn port(&self, name: &NetName) -> Option<usize>
        ensures { MatchOption result (self.now.ports ≤ net_number self.now.nets name.now) (λ i. (i ≡ net_number self.now.nets name.now) × (i < self.now.ports)) }
    {
        match self.nets.get_index_of(name) {
            Some(index) if index < self.ports => Some(index),
            _ => None,
        }
    }
}

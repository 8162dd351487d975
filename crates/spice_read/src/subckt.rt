//! A subcircuit of a deck, made card by card.
ghost use Rattle.std.specs.Prelude.{◌≡◌, ◌<◌, ◌≤◌, ◌+◌, ◌^◌, All, IfOk, OnOk, map};
ghost use Rattle.std.specs.Str.{str_to_ascii_lowercase};
ghost use Rattle.dom_base.specs.Names.{IsNetName};
ghost use Rattle.deck.specs.Limits.{most_devices};
ghost use Rattle.deck.specs.Nets.{net_number, with_net};
ghost use Rattle.deck.specs.Numbers.{with_all};
ghost use Rattle.spice_read.specs.FlatSubckts.{definition_of, flat_definition, own_part};
ghost use Rattle.spice_read.specs.ReadSubckts.{HasNames, numbers_in, with_call_of, with_device_of};

use crate::cards::Card;
use crate::named_nets::push_card;
use crate::recent_nets::RecentNets;
use crate::words::net_name;
use deck::{Circuit, Device};
use dom_base::{Crowd, Kind, NetName, OutOfMemory};
use std::alloc::Global;
use subckt_expand::{Call, Definition, LocalDevice, Part};

/// A subcircuit that calls none, as its circuit, or one with calls.
#[derive(Drop)]
pub enum Subckt {
    Flat(Circuit),
    Calling(Definition),
}

/// The part that a device of a circuit is.
fn own_part(device: &Device) -> Part
    ensures { result ≡ own_part device.now }
{
    Part::Own(LocalDevice {
        kind: device.kind,
        drain: device.drain as usize,
        gate: device.gate as usize,
        source: device.source as usize,
    })
}

/// The subcircuit that a circuit is, which calls none.
pub fn flat_definition(alloc: Global, circuit: Circuit) -> Result<Definition, OutOfMemory>
    ensures { IfOk result (λ d. d ≡ flat_definition circuit) }
{
    let Circuit {
        name,
        ports,
        nets,
        devices,
        ..
    } = circuit;
    let mut parts = Vec::new(alloc);
    for device in devices.as_slice() {
        parts.push(own_part(device))?;
    }
    Ok(Definition {
        name,
        ports: ports as usize,
        nets,
        calls: Vec::new(alloc),
        parts,
        devices: devices.len() as u32,
        depth: 0,
    })
}

/// The number of a net in a subcircuit, where one that is new takes the next number. The one error is out of memory:
/// a number that takes more than 32 bits needs more than there is.
fn number_of(subckt: &mut Definition, name: NetName) -> Result<u32, OutOfMemory>
    ensures number { IfOk result (λ i. i ≡ net_number subckt.old.nets name) }
    ensures nets { OnOk result (subckt.new ≡ record subckt.old { nets = with_net subckt.old.nets name }) }
{
    let number = subckt.number(name)?;
    match u32::try_from(number) {
        Ok(number) => Ok(number),
        Err(_) => Err(OutOfMemory),
    }
}

/// The numbers of these nets in a subcircuit, where those that are new take the next numbers.
fn numbers_of(
    alloc: Global,
    crowd: &mut Crowd,
    subckt: &mut Definition,
    words: &[&[u8]],
) -> Result<Vec<u32>, OutOfMemory>
    requires { All (λ w. IsNetName (str_to_ascii_lowercase w.now)) words.now }
    ensures numbers { IfOk result (λ v. v.items ≡ numbers_in subckt.old.nets (map (λ w. str_to_ascii_lowercase w.now) words.now)) }
    ensures nets { OnOk result (subckt.new ≡ record subckt.old { nets = with_all subckt.old.nets (map (λ w. str_to_ascii_lowercase w.now) words.now) }) }
{
    let mut numbers = Vec::new(alloc);
    numbers.reserve_exact(words.len())?;
    for word in words {
        crowd.look_at(subckt.nets.as_slice())?;
        let number = number_of(subckt, net_name(alloc, word)?)?;
        numbers.push(number)?;
    }
    Ok(numbers)
}

/// Adds the call of a card, of the subcircuit of this number, with so many devices and of this depth,
/// to a subcircuit.
fn push_call(
    alloc: Global,
    crowd: &mut Crowd,
    subckt: &mut Definition,
    unit: usize,
    devices: u32,
    depth: u32,
    card: &Card<'_>,
) -> Result<(), OutOfMemory>
    requires few { subckt.old.devices + devices ≤ most_devices }
    requires shallow { depth < 2 ^ 31 }
    requires names { HasNames 1 card.now }
    ensures { OnOk result (subckt.new ≡ with_call_of subckt.old unit devices depth card.now) }
{
    let name = net_name(alloc, card.word(0))?;
    let nets = numbers_of(alloc, crowd, subckt, card.passed())?;
    subckt.push_call(Call { name, unit, nets }, devices, depth)
}

/// Adds the device of a card to a subcircuit with calls. The one error is out of memory.
fn push_part(
    alloc: Global,
    subckt: &mut Definition,
    kind: Kind,
    card: &Card<'_>,
) -> Result<(), OutOfMemory>
    requires room { subckt.old.devices < most_devices }
    requires names { HasNames 5 card.now }
    ensures { OnOk result (subckt.new ≡ with_device_of subckt.old kind card.now) }
{
    let drain = net_name(alloc, card.word(1))?;
    let gate = net_name(alloc, card.word(2))?;
    let source = net_name(alloc, card.word(3))?;
    subckt.push_device(kind, drain, gate, source)
}

impl Subckt {
    /// The number of devices that it stands for.
    pub fn devices(&self) -> u32
        ensures { result ≡ (definition_of self.now).devices }
    {
        match self {
            Subckt::Flat(circuit) => circuit.device_count(),
            Subckt::Calling(definition) => definition.devices,
        }
    }

    /// Looks at the names of its nets. The one error is out of memory, or names that are crowded.
    pub fn look(&self, crowd: &mut Crowd) -> Result<(), OutOfMemory> {
        match self {
            Subckt::Flat(circuit) => crowd.look_at(circuit.nets.as_slice()),
            Subckt::Calling(definition) => crowd.look_at(definition.nets.as_slice()),
        }
    }

    /// Adds the device of a card. The one error is out of memory.
    pub fn push_device(
        &mut self,
        alloc: Global,
        recent: &mut RecentNets,
        kind: Kind,
        card: &Card<'_>,
    ) -> Result<(), OutOfMemory>
        requires room { (definition_of self.old).devices < most_devices }
        requires names { HasNames 5 card.now }
        ensures { OnOk result (definition_of self.new ≡ with_device_of (definition_of self.old) kind card.now) }
    {
        match self {
            Subckt::Flat(circuit) => push_card(alloc, recent, circuit, kind, card),
            Subckt::Calling(definition) => push_part(alloc, definition, kind, card),
        }
    }

    /// The subcircuit by numbers. The one error is out of memory.
    pub fn definition(self, alloc: Global) -> Result<Definition, OutOfMemory>
        ensures { IfOk result (λ d. d ≡ definition_of self) }
    {
        match self {
            Subckt::Flat(circuit) => flat_definition(alloc, circuit),
            Subckt::Calling(definition) => Ok(definition),
        }
    }

    /// The subcircuit with the call of a card, of the subcircuit of this number, with so many devices
    /// and of this depth. The one error is out of memory, or names that are crowded.
    pub fn with_call(
        self,
        alloc: Global,
        crowd: &mut Crowd,
        unit: usize,
        devices: u32,
        depth: u32,
        card: &Card<'_>,
    ) -> Result<Subckt, OutOfMemory>
        requires few { (definition_of self).devices + devices ≤ most_devices }
        requires shallow { depth < 2 ^ 31 }
        requires names { HasNames 1 card.now }
        ensures { IfOk result (λ s. definition_of s ≡ with_call_of (definition_of self) unit devices depth card.now) }
    {
        let mut definition = self.definition(alloc)?;
        push_call(alloc, crowd, &mut definition, unit, devices, depth, card)?;
        Ok(Subckt::Calling(definition))
    }
}

//! The expansion of a subcircuit.
ghost use Rattle.std.specs.Prelude.{◌≡◌, ◌<◌, ◌≤◌, ◌+◌, ◌*◌, ◌^◌, ◌++◌, ◌∷◌, [], IfOk, OnOk, length, map, take, ◌-◌};
ghost use Rattle.deck.specs.NamedDevices.{map_device, with_devices};
ghost use Rattle.subckt_expand.specs.Definitions.{IsLocal, named_local};
ghost use Rattle.subckt_expand.specs.Frames.{IsEmpty, IsEntered, IsSamePlace, IsWayOut, definition_of, made, name_at, unit_of};
ghost use Rattle.subckt_expand.specs.Units.{definitions, expansion_at};

use crate::net::inner_name;
use crate::part::{Call, LevelName, LocalDevice, Part};
use crate::units::Unit;
use deck::{Device, NetSet};
use dom_base::{Crowd, NetName, OutOfMemory};
use std::alloc::Global;
use std::marker::Model;

/// Joined names of calls that are so long aren't made longer: each call that is entered holds one.
const MOST_JOINED: usize = 1024;

/// A subcircuit that is expanded: `calls` are the calls within one another that lead to the parts that
/// are read, `ways` has for each of them where the names of its inner nets lead, and `numbers` has for
/// the expanded subcircuit and for each of these calls the numbers that its nets have in the circuit, by
/// slots, as far as they were named.
#[derive(Drop)]
pub struct Expanding<'b> {
    pub alloc: Global,
    pub units: &'b [Unit],
    pub main: usize,
    pub calls: Vec<&'b Call>,
    pub ways: Vec<LevelName>,
    pub numbers: Vec<Vec<Option<u32>>>,
    pub nets: NetSet,
    pub devices: Vec<Device>,
}

impl<'b> Model for Expanding<'b> {
    ghost use Rattle.std.specs.Prelude.{map};
    ghost use Rattle.subckt_expand.specs.Frames.{ExpandingData, IsExpanding};

    ghost Value = { ExpandingData };

    ghost view = { λ e. record {
      units = e.units.now;
      main = e.main;
      calls = map (λ c. c.now) e.calls.items;
      ways = e.ways.items;
      numbers = map (λ n. n.items) e.numbers.items;
      nets = e.nets.keys;
      devices = e.devices.items;
    } };

    ghost invariant = { λ e. IsExpanding (record {
      units = e.units.now;
      main = e.main;
      calls = map (λ c. c.now) e.calls.items;
      ways = e.ways.items;
      numbers = map (λ n. n.items) e.numbers.items;
      nets = e.nets.keys;
      devices = e.devices.items;
    }) };
}

/// A row for the numbers of so many slots, without numbers yet. The one error is out of memory.
pub fn empty_row(alloc: Global, slots: usize) -> Result<Vec<Option<u32>>, OutOfMemory>
    ensures { IfOk result (λ row. IsEmpty row.items) }
{
    let mut row = Vec::new(alloc);
    row.resize(slots, None)?;
    Ok(row)
}

impl<'b> Expanding<'b> {
    /// How many calls lead to the parts that are read.
    fn depth(&self) -> usize
        ensures { result ≡ length self.now.calls }
    {
        self.calls.len()
    }

    /// The subcircuit at a level.
    pub fn unit(&self, level: usize) -> usize
        requires { level ≤ length self.now.calls }
        ensures { result ≡ unit_of self.now.main self.now.calls level }
    {
        if level == 0 {
            self.main
        } else {
            let call = self.calls[level - 1];
            call.unit
        }
    }

    /// Adds a device by the numbers of its nets. The one error is out of memory.
    fn add_device(&mut self, device: Device) -> Result<(), OutOfMemory>
        ensures devices { OnOk result (self.new.devices ≡ self.old.devices ++ device ∷ []) }
        ensures nets { self.new.nets ≡ self.old.nets }
        ensures place { OnOk result (IsSamePlace self.old self.new) }
    {
        self.devices.push(device)?;
        Ok(())
    }

    /// Adds a device of the subcircuit of the last call. The one error is out of memory, or nets that are crowded.
    fn push_device(&mut self, crowd: &mut Crowd, device: &LocalDevice) -> Result<(), OutOfMemory>
        requires local { IsLocal (length (definition_of (definitions self.old.units) self.old.main self.old.calls (length self.old.calls)).nets) device.now }
        requires room { length self.old.nets + 3 < 2 ^ 32 }
        ensures made { OnOk result (made self.new ≡ with_devices (made self.old)
            (map_device (name_at (definitions self.old.units) self.old.main self.old.calls (length self.old.calls))
            (named_local (definition_of (definitions self.old.units) self.old.main self.old.calls (length self.old.calls)).nets device.now) ∷ [])) }
        ensures place { OnOk result (IsSamePlace self.old self.new) }
    {
        crowd.look_at(self.nets.as_slice())?;
        let level = self.depth();
        let drain = self.number(level, device.drain)?;
        let gate = self.number(level, device.gate)?;
        let source = self.number(level, device.source)?;
        let added = Device {
            kind: device.kind,
            drain: drain as u32,
            gate: gate as u32,
            source: source as u32,
        };
        self.add_device(added)
    }

    /// Where the names of the inner nets of a call in the subcircuit of the last call lead: the joined names of
    /// the calls, from the nearest level on where such a name may be that of a port. The one error is out of memory.
    fn way(&self, call: &Call) -> Result<LevelName, OutOfMemory>
        ensures { IfOk result (IsWayOut (definitions self.now.units) self.now.main (self.now.calls ++ call.now ∷ []) (length self.now.calls)) }
    {
        let units = self.units;
        let level = self.depth();
        let place = self.unit(level);
        let here = &units[place];
        if level > 0 && !here.dotted {
            let before = &self.ways[level - 1];
            if before.name.as_bytes().len() < MOST_JOINED {
                let name = inner_name(self.alloc, &before.name, &call.name)?;
                let level = before.level;
                return Ok(LevelName { level, name });
            }
        }
        let name = call.name.clone()?;
        Ok(LevelName { level, name })
    }

    /// Goes into a call of the subcircuit of the last call. The one error is out of memory.
    fn enter(&mut self, call: &'b Call) -> Result<(), OutOfMemory>
        requires { IsEntered (definitions self.old.units) self.old.main (self.old.calls ++ call.now ∷ []) (length self.old.calls) }
        ensures units { self.new.units ≡ self.old.units }
        ensures main { self.new.main ≡ self.old.main }
        ensures calls { OnOk result (self.new.calls ≡ self.old.calls ++ call.now ∷ []) }
        ensures nets { self.new.nets ≡ self.old.nets }
        ensures devices { self.new.devices ≡ self.old.devices }
    {
        let units = self.units;
        let unit = &units[call.unit];
        let slots = unit.slots.nets.len();
        let row = empty_row(self.alloc, slots)?;
        let way = self.way(call)?;
        self.calls.reserve(1)?;
        self.ways.reserve(1)?;
        self.numbers.reserve(1)?;
        self.calls.push(call).unwrap();
        self.ways.push(way).unwrap();
        self.numbers.push(row).unwrap();
        Ok(())
    }

    /// Comes back from the last call.
    fn leave(&mut self)
        requires { 0 < length self.old.calls }
        ensures units { self.new.units ≡ self.old.units }
        ensures main { self.new.main ≡ self.old.main }
        ensures calls { self.new.calls ≡ take (length self.old.calls - 1) self.old.calls }
        ensures nets { self.new.nets ≡ self.old.nets }
        ensures devices { self.new.devices ≡ self.old.devices }
    {
        self.calls.pop();
        self.ways.pop();
        self.numbers.pop();
    }

    /// Adds the devices that the subcircuit of the last call stands for. The one error is out of memory, or nets that
    /// are crowded.
    #[cycle(parts)]
    pub fn push_parts(&mut self, crowd: &mut Crowd, unit: usize) -> Result<(), OutOfMemory>
        requires here { unit ≡ unit_of self.old.main self.old.calls (length self.old.calls) }
        requires room { length self.old.nets + 3 * length (expansion_at (definitions self.old.units) unit).devices < 2 ^ 32 }
        ensures made { OnOk result (made self.new ≡ with_devices (made self.old)
            (map (map_device (name_at (definitions self.old.units) self.old.main self.old.calls (length self.old.calls)))
            (expansion_at (definitions self.old.units) unit).devices)) }
        ensures place { OnOk result (IsSamePlace self.old self.new) }
    {
        let units = self.units;
        let here = &units[unit];
        let definition = &here.definition;
        for part in definition.parts.as_slice() {
            match part {
                Part::Own(device) => self.push_device(crowd, device)?,
                Part::Called(index) => self.push_call(crowd, &definition.calls[*index])?,
            }
        }
        Ok(())
    }

    /// Adds the devices that a call in the subcircuit of the last call stands for. The one error is out of memory, or
    /// nets that are crowded.
    #[cycle(parts)]
    fn push_call(&mut self, crowd: &mut Crowd, call: &'b Call) -> Result<(), OutOfMemory>
        requires entered { IsEntered (definitions self.old.units) self.old.main (self.old.calls ++ call.now ∷ []) (length self.old.calls) }
        requires room { length self.old.nets + 3 * length (expansion_at (definitions self.old.units) call.now.unit).devices < 2 ^ 32 }
        ensures made { OnOk result (made self.new ≡ with_devices (made self.old)
            (map (map_device (name_at (definitions self.old.units) self.old.main (self.old.calls ++ call.now ∷ []) (length self.old.calls + 1)))
            (expansion_at (definitions self.old.units) call.now.unit).devices)) }
        ensures place { OnOk result (IsSamePlace self.old self.new) }
    {
        self.enter(call)?;
        self.push_parts(crowd, call.unit)?;
        self.leave();
        Ok(())
    }
}

//! The numbers of nets of a subcircuit that is expanded.
ghost use Rattle.std.specs.Prelude.{◌≡◌, ◌<◌, ◌≤◌, [], IfOk, IfSome, OnOk, Some, length, map, slice_get, slice_index_or, ◌-◌};
ghost use Rattle.deck.specs.Nets.{net_name, net_number, with_net};
ghost use Rattle.subckt_expand.specs.Frames.{IsNumberOf, IsOuter, IsOuterThere, IsPortAt, IsSamePlace};
ghost use Rattle.subckt_expand.specs.Frames.{definition_of, end_name, name_at, outer_end, slot_name};
ghost use Rattle.subckt_expand.specs.Units.{definitions};

use crate::expand::Expanding;
use crate::net::{inner_name, number};
use crate::part::{LevelName, Outer};
use dom_base::{NetName, OutOfMemory};

/// The number that is kept for a slot in the row of a level.
fn row_number(rows: &[Vec<Option<u32>>], level: usize, slot: usize) -> Option<usize>
    ensures { IfSome result (λ number. slice_get (slice_index_or (map (λ row. row.items) rows.now) level []) slot ≡ Some (Some number)) }
{
    match rows.get(level)?.get(slot) {
        Some(Some(number)) => Some(*number as usize),
        _ => None,
    }
}

impl<'b> Expanding<'b> {
    /// The slot of a net at a level.
    fn slot(&self, level: usize, net: usize) -> Option<usize>
        requires level { level ≤ length self.now.calls }
        requires net { net < length (definition_of (definitions self.now.units) self.now.main self.now.calls level).nets }
        ensures { IfSome result (λ slot. slot_name self.now level slot ≡ end_name self.now level net) }
    {
        let units = self.units;
        let place = self.unit(level);
        let here = &units[place];
        let slot = here.slots.of_net[net]?;
        Some(slot as usize)
    }

    /// The name of a net at a level. The one error is out of memory.
    fn own_name(&self, level: usize, net: usize) -> Result<NetName, OutOfMemory>
        requires level { level ≤ length self.now.calls }
        requires net { net < length (definition_of (definitions self.now.units) self.now.main self.now.calls level).nets }
        ensures { IfOk result (λ name. name_at (definitions self.now.units) self.now.main self.now.calls level name ≡ end_name self.now level net) }
    {
        let units = self.units;
        let place = self.unit(level);
        let here = &units[place];
        let name = here.definition.nets.as_slice()[net].clone()?;
        Ok(name)
    }

    /// The number that is kept for a slot at a level.
    fn kept(&self, level: usize, slot: usize) -> Option<usize>
        requires { level ≤ length self.now.calls }
        ensures { IfSome result (λ number. IsNumberOf self.now.nets (slot_name self.now level slot) number) }
    {
        row_number(self.numbers.as_slice(), level, slot)
    }

    /// The number that is kept for a net at a level.
    fn known(&self, level: usize, net: usize) -> Option<usize>
        requires level { level ≤ length self.now.calls }
        requires net { net < length (definition_of (definitions self.now.units) self.now.main self.now.calls level).nets }
        ensures { IfSome result (λ number. IsNumberOf self.now.nets (end_name self.now level net) number) }
    {
        let slot = self.slot(level, net)?;
        self.kept(level, slot)
    }

    /// Keeps a number for a slot at a level.
    fn keep(&mut self, level: usize, slot: usize, number: usize)
        requires level { level ≤ length self.old.calls }
        requires number { slice_get self.old.nets number ≡ Some (slot_name self.old level slot) }
        ensures place { IsSamePlace self.old self.new }
        ensures nets { self.new.nets ≡ self.old.nets }
        ensures devices { self.new.devices ≡ self.old.devices }
    {
        let Ok(number) = u32::try_from(number) else {
            return;
        };
        if self.numbers[level].len() <= slot {
            return;
        }
        let numbers = &mut self.numbers[level];
        numbers[slot] = Some(number);
    }

    /// Keeps a number for a net at a level, where the net has a slot.
    fn note(&mut self, level: usize, net: usize, number: usize)
        requires level { level ≤ length self.old.calls }
        requires net { net < length (definition_of (definitions self.old.units) self.old.main self.old.calls level).nets }
        requires number { slice_get self.old.nets number ≡ Some (end_name self.old level net) }
        ensures place { IsSamePlace self.old self.new }
        ensures nets { self.new.nets ≡ self.old.nets }
        ensures devices { self.new.devices ≡ self.old.devices }
    {
        if let Some(slot) = self.slot(level, net) {
            self.keep(level, slot, number);
        }
    }

    /// The number of the net of this name in the circuit. A net that is new takes the next number. The one
    /// error is out of memory.
    fn number_main(&mut self, name: NetName) -> Result<usize, OutOfMemory>
        ensures number { IfOk result (λ i. i ≡ net_number self.old.nets name) }
        ensures nets { OnOk result (self.new.nets ≡ with_net self.old.nets name) }
        ensures devices { OnOk result (self.new.devices ≡ self.old.devices) }
        ensures place { OnOk result (IsSamePlace self.old self.new) }
    {
        number(&mut self.nets, name)
    }

    /// The port that has this name at a level.
    fn port_at(&self, level: usize, name: &NetName) -> Option<usize>
        requires { level ≤ length self.now.calls }
        ensures { IsPortAt self.now level name.now result }
    {
        let units = self.units;
        let place = self.unit(level);
        let here = &units[place];
        here.definition.port(name)
    }

    /// What the net of this name at a level is outwards, where it is this port. The one error is out of memory.
    fn outwards(
        &self,
        level: usize,
        name: &NetName,
        port: Option<usize>,
    ) -> Result<Outer, OutOfMemory>
        requires inside { 0 < level }
        requires level { level ≤ length self.now.calls }
        requires port { IsPortAt self.now level name.now port }
        ensures { IfOk result (IsOuter self.now level name.now) }
    {
        match port {
            Some(port) => {
                let call = self.calls[level - 1];
                Ok(Outer::Net(call.nets[port] as usize))
            }
            None => {
                let way = &self.ways[level - 1];
                let name = inner_name(self.alloc, &way.name, name)?;
                let level = way.level;
                Ok(Outer::Name(LevelName { level, name }))
            }
        }
    }

    /// What a net at a level is outwards. The one error is out of memory.
    fn own_outwards(&self, level: usize, net: usize) -> Result<Outer, OutOfMemory>
        requires inside { 0 < level }
        requires level { level ≤ length self.now.calls }
        requires net { net < length (definition_of (definitions self.now.units) self.now.main self.now.calls level).nets }
        ensures { IfOk result (IsOuter self.now level
            (net_name (definition_of (definitions self.now.units) self.now.main self.now.calls level).nets net)) }
    {
        let units = self.units;
        let place = self.unit(level);
        let here = &units[place];
        let name = &here.definition.nets.as_slice()[net];
        let port = if net < here.definition.ports {
            Some(net)
        } else {
            None
        };
        self.outwards(level, name, port)
    }

    /// The number that a net at a level has in the circuit. A net that is new takes the next number.
    /// The one error is out of memory.
    #[cycle(names)]
    pub fn number(&mut self, level: usize, net: usize) -> Result<usize, OutOfMemory>
        requires level { level ≤ length self.old.calls }
        requires net { net < length (definition_of (definitions self.old.units) self.old.main self.old.calls level).nets }
        ensures number { IfOk result (λ i. i ≡ net_number self.old.nets (end_name self.old level net)) }
        ensures nets { OnOk result (self.new.nets ≡ with_net self.old.nets (end_name self.old level net)) }
        ensures devices { OnOk result (self.new.devices ≡ self.old.devices) }
        ensures place { OnOk result (IsSamePlace self.old self.new) }
    {
        if let Some(number) = self.known(level, net) {
            return Ok(number);
        }
        let number = self.number_own(level, net)?;
        self.note(level, net, number);
        Ok(number)
    }

    /// The number that a net at a level has in the circuit, whether it is kept or not. The one error is out of memory.
    #[cycle(names)]
    fn number_own(&mut self, level: usize, net: usize) -> Result<usize, OutOfMemory>
        requires level { level ≤ length self.old.calls }
        requires net { net < length (definition_of (definitions self.old.units) self.old.main self.old.calls level).nets }
        ensures number { IfOk result (λ i. i ≡ net_number self.old.nets (end_name self.old level net)) }
        ensures nets { OnOk result (self.new.nets ≡ with_net self.old.nets (end_name self.old level net)) }
        ensures devices { OnOk result (self.new.devices ≡ self.old.devices) }
        ensures place { OnOk result (IsSamePlace self.old self.new) }
    {
        if level == 0 {
            let name = self.own_name(level, net)?;
            return self.number_main(name);
        }
        let outer = self.own_outwards(level, net)?;
        self.number_outer(level, outer)
    }

    /// The number that the net of this name at a level has in the circuit. The one error is out of memory.
    #[cycle(names)]
    fn number_of(&mut self, level: usize, name: NetName) -> Result<usize, OutOfMemory>
        requires level { level ≤ length self.old.calls }
        ensures number { IfOk result (λ i. i ≡ net_number self.old.nets (name_at (definitions self.old.units) self.old.main self.old.calls level name)) }
        ensures nets { OnOk result (self.new.nets ≡ with_net self.old.nets (name_at (definitions self.old.units) self.old.main self.old.calls level name)) }
        ensures devices { OnOk result (self.new.devices ≡ self.old.devices) }
        ensures place { OnOk result (IsSamePlace self.old self.new) }
    {
        if level == 0 {
            return self.number_main(name);
        }
        let port = self.port_at(level, &name);
        let outer = self.outwards(level, &name, port)?;
        self.number_outer(level, outer)
    }

    /// The number that a net outside a level has in the circuit. The one error is out of memory.
    #[cycle(names)]
    fn number_outer(&mut self, level: usize, outer: Outer) -> Result<usize, OutOfMemory>
        requires inside { 0 < level }
        requires level { level ≤ length self.old.calls }
        requires there { IsOuterThere self.old level outer }
        ensures number { IfOk result (λ i. i ≡ net_number self.old.nets (outer_end self.old level outer)) }
        ensures nets { OnOk result (self.new.nets ≡ with_net self.old.nets (outer_end self.old level outer)) }
        ensures devices { OnOk result (self.new.devices ≡ self.old.devices) }
        ensures place { OnOk result (IsSamePlace self.old self.new) }
    {
        match outer {
            Outer::Net(net) => self.number(level - 1, net),
            Outer::Name(at) => self.number_of(at.level, at.name),
        }
    }
}

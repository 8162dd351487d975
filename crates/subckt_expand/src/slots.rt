//! The slots of the nets of a subcircuit.
ghost use Rattle.std.specs.Prelude.{◌≡◌, ◌<◌, IfOk, length};
ghost use Rattle.std.specs.List.{AllByRecursion};
ghost use Rattle.subckt_expand.specs.Units.{IsCallBelow, definitions};

use crate::definition::Definition;
use crate::part::{Call, LocalDevice, Part};
use crate::units::Unit;
use dom_base::OutOfMemory;
use std::alloc::Global;
use std::marker::Model;

/// Slots for the nets of a subcircuit that its devices name, or the devices of those that it calls.
/// A frame of its expansion has a place for each slot, and none for the other nets.
#[derive(Drop)]
pub struct Slots {
    pub of_net: Vec<Option<u32>>,
    pub nets: Vec<u32>,
}

impl Model for Slots {
    ghost use Rattle.subckt_expand.specs.Units.{AreSlots, SlotsData};

    ghost Value = { SlotsData };

    ghost view = { λ s. record { of_net = s.of_net.items; nets = s.nets.items } };

    ghost invariant = { λ s. AreSlots (record { of_net = s.of_net.items; nets = s.nets.items }) };
}

impl Slots {
    /// The slots of a subcircuit that calls these.
    pub fn of_definition(
        alloc: Global,
        units: &[Unit],
        definition: &Definition,
    ) -> Result<Slots, OutOfMemory>
        requires { AllByRecursion (IsCallBelow (definitions units.now) (length units.now)) definition.now.calls }
        ensures { IfOk result (λ slots. length slots.of_net ≡ length definition.now.nets) }
    {
        let mut of_net = Vec::new(alloc);
        of_net.resize(definition.nets.len(), None)?;
        let mut slots = Slots {
            of_net,
            nets: Vec::new(alloc),
        };
        for part in definition.parts.as_slice() {
            match part {
                Part::Own(device) => slots.name_device(device)?,
                Part::Called(index) => slots.name_passed(units, &definition.calls[*index])?,
            }
        }
        Ok(slots)
    }

    /// Gives the nets of a device slots.
    fn name_device(&mut self, device: &LocalDevice) -> Result<(), OutOfMemory>
        ensures { length self.new.of_net ≡ length self.old.of_net }
    {
        self.name(device.drain)?;
        self.name(device.gate)?;
        self.name(device.source)
    }

    /// Gives the nets slots that are passed to a subcircuit whose devices name them.
    fn name_passed(&mut self, units: &[Unit], call: &Call) -> Result<(), OutOfMemory>
        requires { call.now.unit < length units.now }
        ensures { length self.new.of_net ≡ length self.old.of_net }
    {
        let unit = &units[call.unit];
        for (port, net) in call.nets.iter().enumerate() {
            if unit.slots.has_slot(port) {
                self.name(*net as usize)?;
            }
        }
        Ok(())
    }

    /// Whether a net has a slot.
    fn has_slot(&self, net: usize) -> bool {
        matches!(self.of_net.get(net), Some(Some(_)))
    }

    /// Gives a net a slot, if it is there and has none, and the numbers of both are small.
    fn name(&mut self, net: usize) -> Result<(), OutOfMemory>
        ensures { length self.new.of_net ≡ length self.old.of_net }
    {
        let Ok(place) = u32::try_from(net) else {
            return Ok(());
        };
        let Ok(slot) = u32::try_from(self.nets.len()) else {
            return Ok(());
        };
        if net < self.of_net.len() && self.of_net[net].is_none() {
            self.nets.push(place)?;
            self.of_net[net] = Some(slot);
        }
        Ok(())
    }
}

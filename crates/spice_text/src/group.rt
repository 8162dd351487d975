//! The nets and the shape of a group of devices.
ghost use Rattle.std.specs.Prelude.{◌≡◌, ◌<◌, ◌≤◌, ◌+◌, ◌^◌, true, false, nat_eq, [], All, IfOk, MatchOption, OnOk, length};
ghost use Rattle.std.specs.List.{list_any};
ghost use Rattle.deck.specs.Limits.{most_devices};
ghost use Rattle.deck.specs.Nets.{IsInRange};
ghost use Rattle.spice_text.specs.GroupNets.{
  place_of,
  with_number,
  with_ends,
  placed_device,
  group_nets,
  placed_group,
};

use crate::shape::Shape;
use deck::Device;
use dom_base::OutOfMemory;
use std::alloc::Global;
use std::marker::Model;

/// Some nets of a circuit, each once. A net's place is found without a scan: `places` has a place for
/// each net of the circuit, and it tells of a net that stands.
#[derive(Drop)]
pub struct GroupNets {
    nets: Vec<u32>,
    places: Vec<u32>,
}

impl Model for GroupNets {
    ghost use Rattle.std.specs.Prelude.{length};
    ghost use Rattle.spice_text.specs.GroupNets.{GroupNetsData, HavePlaces};

    ghost Value = { GroupNetsData };

    ghost view = { λ s. record { count = length s.places.items; nets = s.nets.items } };

    ghost invariant = { λ s. HavePlaces s.nets.items s.places.items };
}

impl GroupNets {
    /// None of so many nets. The one error is out of memory.
    pub fn new(alloc: Global, count: usize) -> Result<GroupNets, OutOfMemory>
        ensures { IfOk result (λ s. s ≡ record { count = count; nets = [] }) }
    {
        let mut places = Vec::new(alloc);
        places.resize(count, 0)?;
        let nets = Vec::new(alloc);
        Ok(GroupNets { nets, places })
    }

    /// The nets, in order.
    pub fn nets(&self) -> &[u32]
        ensures { result.now ≡ self.now.nets }
    {
        self.nets.as_slice()
    }

    /// Takes all nets out.
    fn clear(&mut self)
        ensures { self.new ≡ record self.old { nets = [] } }
    {
        self.nets.clear();
    }

    /// The place of a net, if it stands.
    #[inline(always)]
    fn find(&self, net: u32) -> Option<u32>
        requires { net < self.now.count }
        ensures { MatchOption result (list_any (nat_eq net) self.now.nets ≡ false)
            (λ place. (list_any (nat_eq net) self.now.nets ≡ true) × (place ≡ place_of self.now.nets net)) }
    {
        let place = self.places[net as usize];
        let at = place as usize;
        if at >= self.nets.len() {
            return None;
        }
        if self.nets[at] != net {
            return None;
        }
        Some(place)
    }

    /// The place of a net, which is added at the end where it is new. The one error is out of memory.
    #[inline(always)]
    fn number(&mut self, net: u32) -> Result<u32, OutOfMemory>
        requires within { net < self.old.count }
        requires few { length self.old.nets < 2 ^ 31 }
        ensures place { IfOk result (λ place. place ≡ place_of self.old.nets net) }
        ensures nets { OnOk result (self.new ≡ record self.old { nets = with_number self.old.nets net }) }
    {
        match self.find(net) {
            Some(place) => Ok(place),
            None => self.add(net),
        }
    }

    /// Adds a net that doesn't stand, and gives its place. The one error is out of memory.
    fn add(&mut self, net: u32) -> Result<u32, OutOfMemory>
        requires within { net < self.old.count }
        requires few { length self.old.nets < 2 ^ 31 }
        requires new { list_any (nat_eq net) self.old.nets ≡ false }
        ensures place { IfOk result (λ place. place ≡ place_of self.old.nets net) }
        ensures nets { OnOk result (self.new ≡ record self.old { nets = with_number self.old.nets net }) }
    {
        let next = self.nets.len() as u32;
        self.nets.push(net)?;
        self.places[net as usize] = next;
        Ok(next)
    }

    /// A device by the places of its nets, which are added at the end where they are new. The one error is out of memory.
    fn number_device(&mut self, device: Device) -> Result<Device, OutOfMemory>
        requires within { IsInRange self.old.count device }
        requires few { length self.old.nets < 2 ^ 30 }
        ensures device { IfOk result (λ d. d ≡ placed_device self.old.nets device) }
        ensures nets { OnOk result (self.new ≡ record self.old { nets = with_ends self.old.nets device }) }
        ensures few { OnOk result (length self.new.nets ≤ length self.old.nets + 3) }
    {
        let drain = self.number(device.drain)?;
        let gate = self.number(device.gate)?;
        let source = self.number(device.source)?;
        Ok(Device {
            kind: device.kind,
            drain,
            gate,
            source,
        })
    }

    /// Makes these the nets of a group and gives its shape: the supplies stand first. The one error is out of memory.
    pub fn number_group(&mut self, group: &[Device], shape: &mut Shape) -> Result<(), OutOfMemory>
        requires supplies { 2 ≤ self.old.count }
        requires within { All (IsInRange self.old.count) group.now }
        requires few { length group.now ≤ most_devices }
        ensures nets { OnOk result (self.new ≡ record self.old { nets = group_nets group.now }) }
        ensures shape { OnOk result (shape.new ≡ placed_group group.now) }
    {
        self.clear();
        shape.clear();
        self.number(VDD)?;
        self.number(VSS)?;
        for device in group {
            let placed = self.number_device(*device)?;
            shape.push(placed)?;
        }
        Ok(())
    }
}

/// The net `vdd` of a circuit whose first two ports are the supplies.
const VDD: u32 = 0;

/// The net `vss` of such a circuit.
const VSS: u32 = 1;

//! The order of a deck's devices: the places of cells, of latches and of inverters, part by part.
ghost use Rattle.std.specs.Prelude.{◌≡◌, ◌+◌, ◌<◌, ◌≤◌, ◌^◌, All, IfOk, OnOk, length, max, ℕ};
ghost use Rattle.audit_deck.specs.Uses.{KeepsUses};
ghost use Rattle.deck.specs.PortLayout.{first_output};
ghost use Rattle.audit_deck.specs.Broken.{IsKept};
ghost use Rattle.audit_deck.specs.DeckOrders.{AddsBlock, AddsBlocks, AddsCell, AddsCells, AreDataPlaces, AreLatchPlaces, IsDeckOrder};
ghost use Rattle.audit_deck.specs.Indexes.{AreInRange};
ghost use Rattle.deck_audit.specs.Words.{IsDynamic, IsInverterOutput, IsOutPort};
ghost use Rattle.found_decks.specs.FoundDecks.{AreFound, AreInverterPlaces, numbers_from};

use crate::index::Index;
use crate::latches::LatchGroup;
use crate::numbering::Numbering;
use crate::trees::Top;
use deck::Roles;
use dom_base::OutOfMemory;
use std::alloc::Global;
use std::marker::Model;

/// Places in the order of a deck, and the greatest width and height of the trees among them.
#[derive(Drop)]
pub struct DeckOrder {
    pub places: Vec<u32>,
    pub width: u32,
    pub height: u32,
}

impl Model for DeckOrder {
    ghost use Rattle.audit_deck.specs.Broken.{IsKept};
    ghost use Rattle.audit_deck.specs.DeckOrders.{DeckOrderData};

    ghost Value = { DeckOrderData };

    ghost view = { λ o. record { places = o.places.items; width = o.width; height = o.height } };
}

/// The greater of two numbers.
fn greater(one: u32, other: u32) -> u32
    ensures { result ≡ max one other }
{
    if one < other { other } else { one }
}

/// Puts the places of latches behind others. The one error is out of memory.
fn push_latches(latches: &[LatchGroup], places: &mut Vec<u32>) -> Result<(), OutOfMemory>
    ensures { OnOk result (AddsBlocks AreLatchPlaces latches.now places.old.items places.new.items) }
{
    for latch in latches {
        places.extend_from_slice(latch.places.as_slice())?;
    }
    Ok(())
}

impl<'a> Index<'a> {
    /// Puts the two places of an inverter behind others. The one error is out of memory.
    fn push_inverter(&self, net: u32, places: &mut Vec<u32>) -> Result<(), OutOfMemory>
        requires within { net < self.now.nets }
        requires inverts { ((input : ℕ) → IsInverterOutput self.now.devices net input → ⊥) → ⊥ }
        ensures { OnOk result (AddsBlock (AreInverterPlaces self.now.devices net) places.old.items places.new.items) }
    {
        let inverter = self.inverter(net).unwrap();
        places.push(inverter.up)?;
        places.push(inverter.down)?;
        Ok(())
    }

    /// Puts the places of some inverters behind others. The one error is out of memory.
    pub fn push_inverters(&self, outputs: &[u32], places: &mut Vec<u32>) -> Result<(), OutOfMemory>
        requires within { All (λ net. net < self.now.nets) outputs.now }
        requires inverts { All (λ net. ((input : ℕ) → IsInverterOutput self.now.devices net input → ⊥) → ⊥) outputs.now }
        ensures { OnOk result (AddsBlocks (AreInverterPlaces self.now.devices) outputs.now places.old.items places.new.items) }
    {
        for net in outputs {
            self.push_inverter(*net, places)?;
        }
        Ok(())
    }

    /// Puts the places of the inverters of the output ports behind others. The one error is out of memory.
    pub fn push_ports(&self, roles: Roles, places: &mut Vec<u32>) -> Result<(), OutOfMemory>
        requires ports { first_output roles + roles.outs ≤ self.now.nets }
        requires few { self.now.nets < 2 ^ 32 }
        requires inverts { (n : ℕ) → IsOutPort roles n → ((input : ℕ) → IsInverterOutput self.now.devices n input → ⊥) → ⊥ }
        ensures { OnOk result (AddsBlocks (AreInverterPlaces self.now.devices) (numbers_from (first_output roles) roles.outs) places.old.items places.new.items) }
    {
        let first = roles.first_output();
        for port in 0..roles.outs {
            self.push_inverter(first + port, places)?;
        }
        Ok(())
    }

    /// Puts the places of a cell behind others: its precharge, its keeper, its tree, its foot and its
    /// inverter. The time is linear in the devices of the cell. The one error is out of memory.
    fn push_cell(
        &self,
        alloc: Global,
        roles: Roles,
        net: u32,
        nets: &mut Numbering,
        places: &mut Numbering,
        order: &mut DeckOrder,
    ) -> Result<(), OutOfMemory>
        requires within { net < self.now.nets }
        requires dynamic { IsDynamic self.now.devices roles net }
        requires fronts { IsKept self.now.devices roles self.now.nets 1 }
        requires outputs { IsKept self.now.devices roles self.now.nets 2 }
        requires trees { IsKept self.now.devices roles self.now.nets 3 }
        requires in_range { AreInRange self.now.devices self.now.nets }
        requires ports { first_output roles < 2 ^ 32 }
        requires few { length self.now.devices ≤ 2 ^ 24 }
        requires nets_room { nets.old.room ≡ self.now.nets }
        requires places_room { places.old.room ≡ length self.now.devices }
        ensures nets_room { nets.new.room ≡ nets.old.room }
        ensures places_room { places.new.room ≡ places.old.room }
        ensures added { OnOk result (AddsCell self.now.devices roles net order.old order.new) }
    {
        let front = self.front(roles, net).unwrap();
        let inverter = self.output(roles, net, front.output).unwrap();
        let top = Top {
            roles,
            net,
            clock: front.clock,
        };
        let tree = self.tree(alloc, top, nets, places)?.unwrap();
        order.places.push(front.precharge)?;
        order.places.push(front.keeper)?;
        order.places.extend_from_slice(tree.order.as_slice())?;
        order.places.push(tree.foot)?;
        order.places.push(inverter.up)?;
        order.places.push(inverter.down)?;
        order.width = greater(order.width, tree.width);
        order.height = greater(order.height, tree.height);
        Ok(())
    }

    /// Puts the places of cells behind others, by their dynamic nets. Where no two cells share a net the
    /// time is linear in devices and nets. The one error is out of memory.
    pub fn push_cells(
        &self,
        alloc: Global,
        roles: Roles,
        tops: &[u32],
        count: u32,
        devices: u32,
        order: &mut DeckOrder,
    ) -> Result<(), OutOfMemory>
        requires count { count ≡ self.now.nets }
        requires devices { devices ≡ length self.now.devices }
        requires within { All (λ net. net < self.now.nets) tops.now }
        requires dynamic { All (IsDynamic self.now.devices roles) tops.now }
        requires fronts { IsKept self.now.devices roles self.now.nets 1 }
        requires outputs { IsKept self.now.devices roles self.now.nets 2 }
        requires trees { IsKept self.now.devices roles self.now.nets 3 }
        requires in_range { AreInRange self.now.devices self.now.nets }
        requires ports { first_output roles < 2 ^ 32 }
        requires few { length self.now.devices ≤ 2 ^ 24 }
        ensures { OnOk result (AddsCells self.now.devices roles tops.now order.old order.new) }
    {
        let mut nets = Numbering::new(alloc, count)?;
        let mut places = Numbering::new(alloc, devices)?;
        for net in tops {
            self.push_cell(alloc, roles, *net, &mut nets, &mut places, order)?;
        }
        Ok(())
    }

    /// Puts the places of the inverters of the data of latches behind others. The one error is out of memory.
    fn push_data(&self, latches: &[LatchGroup], places: &mut Vec<u32>) -> Result<(), OutOfMemory>
        requires within { All (λ l. l.group.data_net < self.now.nets) latches.now }
        requires inverts { All (λ l. ((input : ℕ) → IsInverterOutput self.now.devices l.group.data_net input → ⊥) → ⊥) latches.now }
        ensures { OnOk result (AddsBlocks (AreDataPlaces self.now.devices) latches.now places.old.items places.new.items) }
    {
        for latch in latches {
            self.push_inverter(latch.data_net, places)?;
        }
        Ok(())
    }

    /// The order of the deck with these dynamic nets, complements and latches, where rules 1 to 3 and 5 hold.
    /// The time is linear in devices and nets. The one error is out of memory.
    pub fn deck_order(
        &self,
        alloc: Global,
        roles: Roles,
        tops: &[u32],
        complements: &[u32],
        latches: &[LatchGroup],
        count: u32,
        devices: u32,
    ) -> Result<DeckOrder, OutOfMemory>
        requires count { count ≡ self.now.nets }
        requires devices { devices ≡ length self.now.devices }
        requires found { AreFound self.now.devices roles (record { tops = tops.now; complements = complements.now; latches = latches.now }) }
        requires fronts { IsKept self.now.devices roles self.now.nets 1 }
        requires outputs { IsKept self.now.devices roles self.now.nets 2 }
        requires trees { IsKept self.now.devices roles self.now.nets 3 }
        requires uses { KeepsUses self.now.devices roles self.now.nets }
        requires in_range { AreInRange self.now.devices self.now.nets }
        requires ports { first_output roles + roles.outs ≤ self.now.nets }
        requires few { length self.now.devices ≤ 2 ^ 24 }
        ensures { IfOk result (IsDeckOrder self.now.devices roles (record { tops = tops.now; complements = complements.now; latches = latches.now })) }
    {
        let mut order = DeckOrder {
            places: Vec::new(alloc),
            width: 0,
            height: 0,
        };
        self.push_cells(alloc, roles, tops, count, devices, &mut order)?;
        self.push_inverters(complements, &mut order.places)?;
        push_latches(latches, &mut order.places)?;
        self.push_ports(roles, &mut order.places)?;
        self.push_data(latches, &mut order.places)?;
        Ok(order)
    }
}

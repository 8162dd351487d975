//! Rule 3: the foot of a cell, and the tree of its other devices.
ghost use Rattle.std.specs.Prelude.{◌≡◌, ◌≢◌, ◌<◌, ◌≤◌, ◌^◌, All, IfNone, IfOk, IfSome, false, length, map, slice_index_or, true, ℕ};
ghost use Rattle.deck.specs.PortLayout.{first_output};
ghost use Rattle.sp_network.specs.Tree.{Tree};
ghost use Rattle.sp_reduction.specs.Networks.{Link};
ghost use Rattle.audit_deck.specs.CellTrees.{AreLocal, HasBothMet, IsAtSource, IsFootAt, IsLocal, IsMetCell, IsTreeAt};
ghost use Rattle.link_reduce.specs.Parts.{IsOnce};
ghost use Rattle.audit_deck.specs.Indexes.{AreThose};
ghost use Rattle.audit_deck.specs.Numberings.{IsMet};
ghost use Rattle.audit_deck.specs.Scans.{IsOnlyIn};
ghost use Rattle.deck_audit.specs.Rules.{HasTree, IsInside};
ghost use Rattle.deck_audit.specs.Words.{IsFree};
ghost use Rattle.audit_deck.specs.declared.trees.Foot.{Foot as FootData};

use crate::index::Index;
use crate::numbering::Numbering;
use crate::ports::{VSS, ends_at, far_end, is_free, is_inner};
use deck::Roles;
use dom_base::{Kind, OutOfMemory};
use link_reduce::{Ends, spelled_of};
use std::alloc::Global;
use std::marker::Model;

/// The device of a cell that its clock gates, between `vss` and the lower end of its tree.
#[derive(Clone, Copy)]
pub struct Foot {
    pub place: u32,
    pub bottom: u32,
}

/// A dynamic net as the top of a cell, with the cell's clock and the roles of the ports.
#[derive(Clone, Copy)]
pub struct Top {
    pub roles: Roles,
    pub net: u32,
    pub clock: u32,
}

/// What rule 3 finds: the place of the foot, the lower end of the tree, its width and its height, and the
/// places of its devices in the order in which it is spelled from the dynamic net.
#[derive(Drop)]
pub struct CellTree {
    pub foot: u32,
    pub bottom: u32,
    pub width: u32,
    pub height: u32,
    pub order: Vec<u32>,
}

impl Model for CellTree {
    ghost use Rattle.audit_deck.specs.CellTrees.{CellTreeData};

    ghost Value = { CellTreeData };

    ghost view = { λ t. record { foot = t.foot; bottom = t.bottom; width = t.width; height = t.height; order = t.order.items } };
}

impl<'a> Index<'a> {
    /// Whether a net may lie inside a cell: only `nch` devices end at it, it gates nothing and is no port.
    fn is_inside(&self, roles: Roles, net: u32) -> bool
        requires within { net < self.now.nets }
        requires few { first_output roles < 2 ^ 32 }
        ensures yes { result ≡ true → IsInside self.now.devices roles net }
        ensures no { result ≡ false → IsInside self.now.devices roles net → ⊥ }
    {
        if !is_inner(roles, net) {
            return false;
        }
        if self.gating(net).len() != 0 {
            return false;
        }
        for place in self.ending(net) {
            if !self.has_kind(*place, Kind::N) {
                return false;
            }
        }
        true
    }

    /// Whether a net is the top of a cell, or may lie inside one.
    fn may_stand(&self, roles: Roles, top: u32, net: u32) -> bool
        requires within { net < self.now.nets }
        requires few { first_output roles < 2 ^ 32 }
        ensures yes { result ≡ true → net ≢ top → IsInside self.now.devices roles net }
        ensures other { result ≡ false → net ≢ top }
        ensures no { result ≡ false → IsInside self.now.devices roles net → ⊥ }
    {
        if net == top {
            return true;
        }
        self.is_inside(roles, net)
    }

    /// Whether all nets of a cell but its top may lie inside one.
    fn are_inside(&self, roles: Roles, top: u32, nets: &[u32]) -> bool
        requires within { All (λ net. net < self.now.nets) nets.now }
        requires few { first_output roles < 2 ^ 32 }
        ensures yes { result ≡ true → (net : ℕ) → IsMet nets.now net → net ≢ top → IsInside self.now.devices roles net }
        ensures no { result ≡ false → (net : ℕ) × IsMet nets.now net × (net ≢ top) × (IsInside self.now.devices roles net → ⊥) }
    {
        for net in nets {
            if !self.may_stand(roles, top, *net) {
                return false;
            }
        }
        true
    }

    /// Whether a device ends at a source.
    fn is_at_source(&self, roles: Roles, place: u32) -> bool
        requires within { place < length self.now.devices }
        requires few { first_output roles < 2 ^ 32 }
        ensures yes { result ≡ true → IsAtSource self.now.devices roles place }
        ensures no { result ≡ false → IsAtSource self.now.devices roles place → ⊥ }
    {
        let device = self.device(place);
        if !is_free(roles, device.drain) {
            return true;
        }
        if !is_free(roles, device.source) {
            return true;
        }
        false
    }

    /// The place of the one device that ends at a source, if there is exactly one.
    fn only_at_source(&self, roles: Roles, places: &[u32]) -> Option<u32>
        requires within { All (λ place. place < length self.now.devices) places.now }
        requires once { IsOnce places.now }
        requires few { first_output roles < 2 ^ 32 }
        ensures some { IfSome result (IsOnlyIn (IsAtSource self.now.devices roles) places.now) }
        ensures none { IfNone result ((place : ℕ) → IsOnlyIn (IsAtSource self.now.devices roles) places.now place → ⊥) }
    {
        let mut only = None;
        for place in places {
            if self.is_at_source(roles, *place) {
                if only.is_some() {
                    return None;
                }
                only = Some(*place);
            }
        }
        only
    }

    /// The foot of a cell, of whose devices these are the places.
    fn foot(&self, roles: Roles, top: u32, clock: u32, places: &[u32]) -> Option<Foot>
        requires within { All (λ place. place < length self.now.devices) places.now }
        requires once { IsOnce places.now }
        requires few { first_output roles < 2 ^ 32 }
        ensures some { IfSome result (IsFootAt self.now.devices roles top clock places.now) }
        ensures none { IfNone result ((f : FootData) → IsFootAt self.now.devices roles top clock places.now f → ⊥) }
    {
        let Some(place) = self.only_at_source(roles, places) else {
            return None;
        };
        let device = self.device(place);
        if device.kind != Kind::N || device.gate != clock {
            return None;
        }
        if !ends_at(device, VSS) {
            return None;
        }
        let bottom = far_end(device, VSS);
        if bottom == top {
            return None;
        }
        Some(Foot { place, bottom })
    }

    /// The ends of a device by the numbers of nets.
    fn local_ends(&self, nets: &Numbering, place: u32) -> Ends
        requires room { nets.now.room ≡ self.now.nets }
        requires met { HasBothMet self.now.devices nets.now.nets place }
        ensures { IsLocal self.now.devices nets.now.nets place result }
    {
        let device = self.device(place);
        let from = nets.number(device.drain).unwrap();
        let to = nets.number(device.source).unwrap();
        Ends { from, to }
    }

    /// Devices as links between the nets that are met. The one error is out of memory.
    fn links(
        &self,
        alloc: Global,
        nets: &Numbering,
        places: &[u32],
    ) -> Result<Vec<Ends>, OutOfMemory>
        requires room { nets.now.room ≡ self.now.nets }
        requires met { All (HasBothMet self.now.devices nets.now.nets) places.now }
        ensures { IfOk result (λ links. AreLocal self.now.devices nets.now.nets places.now links.items) }
    {
        let mut links = Vec::new(alloc);
        for place in places {
            links.push(self.local_ends(nets, *place))?;
        }
        Ok(links)
    }

    /// The shape of the tree of a cell whose nets and devices were met, and the foot found. The one error
    /// is out of memory.
    fn shape(
        &self,
        alloc: Global,
        top: Top,
        nets: &Numbering,
        places: &Numbering,
        foot: Foot,
    ) -> Result<Option<CellTree>, OutOfMemory>
        requires few { length self.now.devices ≤ 2 ^ 24 }
        requires rooms { (nets.now.room ≡ self.now.nets) × (places.now.room ≡ length self.now.devices) }
        requires met { IsMetCell self.now.devices top.roles top.net nets.now.nets places.now.nets }
        requires foot { IsFootAt self.now.devices top.roles top.net top.clock places.now.nets foot }
        requires inside { (n : ℕ) → IsMet nets.now.nets n → n ≢ top.net → IsInside self.now.devices top.roles n }
        ensures some { IfOk result (λ tree. IfSome tree (IsTreeAt self.now.devices top.roles top.net top.clock)) }
        ensures none { IfOk result (λ tree. IfNone tree
            ((bottom : ℕ) (t : Tree Link) → HasTree self.now.devices top.roles top.net top.clock bottom t → ⊥)) }
    {
        let rest = others(alloc, places.nets(), foot.place)?;
        let links = self.links(alloc, nets, rest.as_slice())?;
        let count = nets.nets().len() as u32;
        let upper = nets.number(top.net).unwrap();
        let lower = nets.number(foot.bottom).unwrap();
        let Some(spelled) = spelled_of(alloc, links.as_slice(), count, upper, lower)? else {
            return Ok(None);
        };
        let order = places_of(alloc, rest.as_slice(), spelled.order.as_slice())?;
        Ok(Some(CellTree {
            foot: foot.place,
            bottom: foot.bottom,
            width: spelled.width,
            height: spelled.height,
            order,
        }))
    }

    /// Rule 3: the foot and the tree of a cell, if it has them. What `nets` and `places` have met before is
    /// forgotten. The time is linear in the devices of the cell. The one error is out of memory.
    pub fn tree(
        &self,
        alloc: Global,
        top: Top,
        nets: &mut Numbering,
        places: &mut Numbering,
    ) -> Result<Option<CellTree>, OutOfMemory>
        requires within { top.net < self.now.nets }
        requires free { IsFree top.roles top.net }
        requires ports { first_output top.roles < 2 ^ 32 }
        requires few { length self.now.devices ≤ 2 ^ 24 }
        requires nets_room { nets.old.room ≡ self.now.nets }
        requires places_room { places.old.room ≡ length self.now.devices }
        ensures nets_room { nets.new.room ≡ nets.old.room }
        ensures places_room { places.new.room ≡ places.old.room }
        ensures some { IfOk result (λ tree. IfSome tree (IsTreeAt self.now.devices top.roles top.net top.clock)) }
        ensures none { IfOk result (λ tree. IfNone tree
            ((bottom : ℕ) (t : Tree Link) → HasTree self.now.devices top.roles top.net top.clock bottom t → ⊥)) }
    {
        self.reach(top.roles, top.net, nets)?;
        if !self.are_inside(top.roles, top.net, nets.nets()) {
            return Ok(None);
        }
        self.meet_channels(nets.nets(), places)?;
        let Some(foot) = self.foot(top.roles, top.net, top.clock, places.nets()) else {
            return Ok(None);
        };
        self.shape(alloc, top, nets, places, foot)
    }
}

/// These places but for one. The one error is out of memory.
fn others(alloc: Global, places: &[u32], one: u32) -> Result<Vec<u32>, OutOfMemory>
    requires { IsOnce places.now }
    ensures { IfOk result (λ rest. AreThose (λ place. IsMet places.now place × (place ≢ one)) rest.items) }
{
    let mut rest = Vec::new(alloc);
    for place in places {
        if *place != one {
            rest.push(*place)?;
        }
    }
    Ok(rest)
}

/// The places with some numbers. The one error is out of memory.
fn places_of(alloc: Global, places: &[u32], numbers: &[u32]) -> Result<Vec<u32>, OutOfMemory>
    requires { All (λ n. n < length places.now) numbers.now }
    ensures { IfOk result (λ named. named.items ≡ map (λ n. slice_index_or places.now n 0) numbers.now) }
{
    let mut named = Vec::with_capacity(alloc, numbers.len())?;
    for number in numbers {
        named.push(places[*number as usize])?;
    }
    Ok(named)
}

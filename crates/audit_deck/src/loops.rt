//! Rule 6: what gates the trees of cells, and that no cell depends on itself.
ghost use Rattle.std.specs.Prelude.{◌≡◌, ◌<◌, ◌^◌, All, IfNone, IfOk, IfSome, OnOk, false, length, true, ℕ};
ghost use Rattle.deck.specs.PortLayout.{first_output};
ghost use Rattle.audit_deck.specs.Broken.{IsKept, IsSmallest};
ghost use Rattle.audit_deck.specs.Indexes.{AreInRange, AreThose};
ghost use Rattle.audit_deck.specs.Loops.{AreReads, HasOtherGate, HasOtherLeaf, HasThose, IsOnLoop, IsReachedAt};
ghost use Rattle.audit_deck.specs.Loops.{IsReadAmong, IsReadAt, IsReader, SomeHasOtherGate};
ghost use Rattle.audit_deck.specs.Marks.{AreMarks, AreNetMarks};
ghost use Rattle.deck_audit.specs.Audits.{Breaks};

use crate::index::Index;
use crate::marks::Marks;
use crate::numbering::Numbering;
use crate::ports::is_free;
use deck::Roles;
use dom_base::OutOfMemory;
use graph_order::{Node, circle_marks};
use std::alloc::Global;

impl<'a> Index<'a> {
    /// Whether what gates a device that ends at no source may gate no device of a tree.
    fn has_other_gate(&self, roles: Roles, marks: &Marks, place: u32) -> bool
        requires within { place < length self.now.devices }
        requires ports { first_output roles < 2 ^ 32 }
        requires in_range { AreInRange self.now.devices self.now.nets }
        requires marked { AreNetMarks self.now.devices roles self.now.nets marks.now }
        ensures yes { result ≡ true → HasOtherGate self.now.devices roles place }
        ensures no { result ≡ false → HasOtherGate self.now.devices roles place → ⊥ }
    {
        let device = self.device(place);
        if !is_free(roles, device.drain) {
            return false;
        }
        if !is_free(roles, device.source) {
            return false;
        }
        if self.is_leaf_net(roles, marks, device.gate) {
            return false;
        }
        true
    }

    /// Whether one of some devices has such a gate.
    fn some_has_other_gate(&self, roles: Roles, marks: &Marks, places: &[u32]) -> bool
        requires within { All (λ place. place < length self.now.devices) places.now }
        requires ports { first_output roles < 2 ^ 32 }
        requires in_range { AreInRange self.now.devices self.now.nets }
        requires marked { AreNetMarks self.now.devices roles self.now.nets marks.now }
        ensures yes { result ≡ true → SomeHasOtherGate self.now.devices roles places.now }
        ensures no { result ≡ false → SomeHasOtherGate self.now.devices roles places.now → ⊥ }
    {
        for place in places {
            if self.has_other_gate(roles, marks, *place) {
                return true;
            }
        }
        false
    }

    /// Meets the devices of a cell, and forgets others.
    fn meet_cell(
        &self,
        roles: Roles,
        net: u32,
        nets: &mut Numbering,
        places: &mut Numbering,
    ) -> Result<(), OutOfMemory>
        requires within { net < self.now.nets }
        requires ports { first_output roles < 2 ^ 32 }
        requires nets_room { nets.old.room ≡ self.now.nets }
        requires places_room { places.old.room ≡ length self.now.devices }
        ensures nets_room { nets.new.room ≡ nets.old.room }
        ensures places_room { places.new.room ≡ places.old.room }
        ensures met { OnOk result (AreThose (IsReachedAt self.now.devices roles net) places.new.nets) }
    {
        self.reach(roles, net, nets)?;
        self.meet_channels(nets.nets(), places)
    }

    /// Whether a gate of a cell's tree may gate no device of a tree.
    fn has_other_leaf(
        &self,
        roles: Roles,
        marks: &Marks,
        net: u32,
        nets: &mut Numbering,
        places: &mut Numbering,
    ) -> Result<bool, OutOfMemory>
        requires within { net < self.now.nets }
        requires ports { first_output roles < 2 ^ 32 }
        requires in_range { AreInRange self.now.devices self.now.nets }
        requires marked { AreNetMarks self.now.devices roles self.now.nets marks.now }
        requires nets_room { nets.old.room ≡ self.now.nets }
        requires places_room { places.old.room ≡ length self.now.devices }
        ensures nets_room { nets.new.room ≡ nets.old.room }
        ensures places_room { places.new.room ≡ places.old.room }
        ensures yes { IfOk result (λ has. has ≡ true → HasOtherLeaf self.now.devices roles net) }
        ensures no { IfOk result (λ has. has ≡ false → HasOtherLeaf self.now.devices roles net → ⊥) }
    {
        if !marks.dynamic.has(net) {
            return Ok(false);
        }
        self.meet_cell(roles, net, nets, places)?;
        Ok(self.some_has_other_gate(roles, marks, places.nets()))
    }

    /// The dynamic net whose output gates a device that ends at no source.
    fn read_at(&self, roles: Roles, marks: &Marks, place: u32) -> Option<u32>
        requires within { place < length self.now.devices }
        requires ports { first_output roles < 2 ^ 32 }
        requires in_range { AreInRange self.now.devices self.now.nets }
        requires marked { AreNetMarks self.now.devices roles self.now.nets marks.now }
        requires fronts { IsKept self.now.devices roles self.now.nets 1 }
        requires outputs { IsKept self.now.devices roles self.now.nets 2 }
        ensures some { IfSome result (IsReadAt self.now.devices roles place) }
        ensures none { IfNone result ((y : ℕ) → IsReadAt self.now.devices roles place y → ⊥) }
    {
        let device = self.device(place);
        if !is_free(roles, device.drain) {
            return None;
        }
        if !is_free(roles, device.source) {
            return None;
        }
        if !marks.outputs.has(device.gate) {
            return None;
        }
        let Some(inverter) = self.inverter(device.gate) else {
            return None;
        };
        Some(inverter.input)
    }

    /// The dynamic nets whose outputs gate some devices. The one error is out of memory.
    fn reads_among(
        &self,
        alloc: Global,
        roles: Roles,
        marks: &Marks,
        places: &[u32],
    ) -> Result<Vec<u32>, OutOfMemory>
        requires within { All (λ place. place < length self.now.devices) places.now }
        requires ports { first_output roles < 2 ^ 32 }
        requires in_range { AreInRange self.now.devices self.now.nets }
        requires marked { AreNetMarks self.now.devices roles self.now.nets marks.now }
        requires fronts { IsKept self.now.devices roles self.now.nets 1 }
        requires outputs { IsKept self.now.devices roles self.now.nets 2 }
        ensures { IfOk result (λ reads. HasThose (IsReadAmong self.now.devices roles places.now) reads.items) }
    {
        let mut reads = Vec::new(alloc);
        for place in places {
            if let Some(y) = self.read_at(roles, marks, *place) {
                reads.push(y)?;
            }
        }
        Ok(reads)
    }

    /// The dynamic nets that a net reads, where it is dynamic. The one error is out of memory.
    fn reads_of(
        &self,
        alloc: Global,
        roles: Roles,
        marks: &Marks,
        net: u32,
        nets: &mut Numbering,
        places: &mut Numbering,
    ) -> Result<Vec<u32>, OutOfMemory>
        requires within { net < self.now.nets }
        requires ports { first_output roles < 2 ^ 32 }
        requires in_range { AreInRange self.now.devices self.now.nets }
        requires marked { AreNetMarks self.now.devices roles self.now.nets marks.now }
        requires fronts { IsKept self.now.devices roles self.now.nets 1 }
        requires outputs { IsKept self.now.devices roles self.now.nets 2 }
        requires nets_room { nets.old.room ≡ self.now.nets }
        requires places_room { places.old.room ≡ length self.now.devices }
        ensures nets_room { nets.new.room ≡ nets.old.room }
        ensures places_room { places.new.room ≡ places.old.room }
        ensures are { IfOk result (λ reads. HasThose (IsReader self.now.devices roles net) reads.items) }
    {
        if !marks.dynamic.has(net) {
            return Ok(Vec::new(alloc));
        }
        self.meet_cell(roles, net, nets, places)?;
        self.reads_among(alloc, roles, marks, places.nets())
    }

    /// A graph of all nets, in which each leads to those that it reads. A cell's devices are looked at a
    /// fixed number of times, so the time is linear in devices and nets where no two cells share a net. The
    /// one error is out of memory.
    pub fn reads(
        &self,
        alloc: Global,
        roles: Roles,
        marks: &Marks,
        count: u32,
        devices: u32,
    ) -> Result<Vec<Node<'static>>, OutOfMemory>
        requires count { count ≡ self.now.nets }
        requires devices { devices ≡ length self.now.devices }
        requires ports { first_output roles < 2 ^ 32 }
        requires in_range { AreInRange self.now.devices self.now.nets }
        requires marked { AreNetMarks self.now.devices roles self.now.nets marks.now }
        requires fronts { IsKept self.now.devices roles self.now.nets 1 }
        requires outputs { IsKept self.now.devices roles self.now.nets 2 }
        ensures { IfOk result (λ nodes. AreReads self.now.devices roles self.now.nets nodes.items) }
    {
        let mut nets = Numbering::new(alloc, count)?;
        let mut places = Numbering::new(alloc, devices)?;
        let mut nodes = Vec::with_capacity(alloc, count as usize)?;
        for net in 0..count {
            let next = self.reads_of(alloc, roles, marks, net, &mut nets, &mut places)?;
            nodes.push(Node::owning(alloc, next)?)?;
        }
        Ok(nodes)
    }

    /// Whether rule 6 is broken at a net, of which it is known whether it depends on itself.
    fn breaks_leaf_or_loop(
        &self,
        roles: Roles,
        marks: &Marks,
        circles: &[bool],
        net: u32,
        nets: &mut Numbering,
        places: &mut Numbering,
    ) -> Result<bool, OutOfMemory>
        requires within { net < self.now.nets }
        requires ports { first_output roles < 2 ^ 32 }
        requires in_range { AreInRange self.now.devices self.now.nets }
        requires marked { AreNetMarks self.now.devices roles self.now.nets marks.now }
        requires circles { AreMarks (IsOnLoop self.now.devices roles) self.now.nets circles.now }
        requires nets_room { nets.old.room ≡ self.now.nets }
        requires places_room { places.old.room ≡ length self.now.devices }
        ensures nets_room { nets.new.room ≡ nets.old.room }
        ensures places_room { places.new.room ≡ places.old.room }
        ensures yes { IfOk result (λ breaks. breaks ≡ true → Breaks self.now.devices roles self.now.nets 6 net) }
        ensures no { IfOk result (λ breaks. breaks ≡ false → Breaks self.now.devices roles self.now.nets 6 net → ⊥) }
    {
        if circles[net as usize] {
            return Ok(true);
        }
        self.has_other_leaf(roles, marks, net, nets, places)
    }

    /// The smallest net at which rule 6 is broken. The one error is out of memory.
    fn first_among(
        &self,
        alloc: Global,
        roles: Roles,
        marks: &Marks,
        circles: &[bool],
        count: u32,
        devices: u32,
    ) -> Result<Option<u32>, OutOfMemory>
        requires count { count ≡ self.now.nets }
        requires devices { devices ≡ length self.now.devices }
        requires ports { first_output roles < 2 ^ 32 }
        requires in_range { AreInRange self.now.devices self.now.nets }
        requires marked { AreNetMarks self.now.devices roles self.now.nets marks.now }
        requires circles { AreMarks (IsOnLoop self.now.devices roles) self.now.nets circles.now }
        ensures some { IfOk result (λ first. IfSome first (IsSmallest self.now.devices roles self.now.nets 6)) }
        ensures none { IfOk result (λ first. IfNone first (IsKept self.now.devices roles self.now.nets 6)) }
    {
        let mut nets = Numbering::new(alloc, count)?;
        let mut places = Numbering::new(alloc, devices)?;
        for net in 0..count {
            if self.breaks_leaf_or_loop(roles, marks, circles, net, &mut nets, &mut places)? {
                return Ok(Some(net));
            }
        }
        Ok(None)
    }

    /// The smallest net at which rule 6 is broken, by what each net reads. The one error is out of memory.
    pub fn first_leaf_or_loop(
        &self,
        alloc: Global,
        roles: Roles,
        marks: &Marks,
        nodes: &[Node<'_>],
        count: u32,
        devices: u32,
    ) -> Result<Option<u32>, OutOfMemory>
        requires count { count ≡ self.now.nets }
        requires devices { devices ≡ length self.now.devices }
        requires ports { first_output roles < 2 ^ 32 }
        requires in_range { AreInRange self.now.devices self.now.nets }
        requires marked { AreNetMarks self.now.devices roles self.now.nets marks.now }
        requires reads { AreReads self.now.devices roles self.now.nets nodes.now }
        ensures some { IfOk result (λ first. IfSome first (IsSmallest self.now.devices roles self.now.nets 6)) }
        ensures none { IfOk result (λ first. IfNone first (IsKept self.now.devices roles self.now.nets 6)) }
    {
        let circles = circle_marks(alloc, nodes)?;
        self.first_among(alloc, roles, marks, circles.as_slice(), count, devices)
    }
}

//! Which of rules 1 to 3 is broken first, and the smallest net at which it is.
ghost use Rattle.std.specs.Prelude.{◌≡◌, ◌<◌, ◌≤◌, ◌^◌, IfNone, IfOk, IfSome, false, length, true, ℕ};
ghost use Rattle.deck.specs.PortLayout.{first_output};
ghost use Rattle.audit_deck.specs.Indexes.{AreInRange};
ghost use Rattle.audit_deck.specs.Broken.{IsFirst, IsKept, IsSmallest};
ghost use Rattle.deck_audit.specs.Audits.{Breaks};

use crate::index::Index;
use crate::numbering::Numbering;
use crate::trees::Top;
use deck::Roles;
use dom_base::OutOfMemory;
use std::alloc::Global;

/// A rule that is broken, and the net at which it is.
#[derive(Clone, Copy, Debug, PartialEq, Eq)]
pub struct Broken {
    pub rule: u32,
    pub net: u32,
}

impl<'a> Index<'a> {
    /// Whether rule 1 is broken at a net.
    fn breaks_front(&self, roles: Roles, net: u32) -> bool
        requires within { net < self.now.nets }
        requires few { first_output roles < 2 ^ 32 }
        ensures yes { result ≡ true → Breaks self.now.devices roles self.now.nets 1 net }
        ensures no { result ≡ false → Breaks self.now.devices roles self.now.nets 1 net → ⊥ }
    {
        if !self.is_dynamic(roles, net) {
            return false;
        }
        let Some(_front) = self.front(roles, net) else {
            return true;
        };
        false
    }

    /// Whether rule 2 is broken at a net.
    fn breaks_output(&self, roles: Roles, net: u32) -> bool
        requires within { net < self.now.nets }
        requires in_range { AreInRange self.now.devices self.now.nets }
        requires few { first_output roles < 2 ^ 32 }
        ensures yes { result ≡ true → Breaks self.now.devices roles self.now.nets 2 net }
        ensures no { result ≡ false → Breaks self.now.devices roles self.now.nets 2 net → ⊥ }
    {
        if !self.is_dynamic(roles, net) {
            return false;
        }
        let Some(front) = self.front(roles, net) else {
            return false;
        };
        let Some(_inverter) = self.output(roles, net, front.output) else {
            return true;
        };
        false
    }

    /// Whether rule 3 is broken at a net. The one error is out of memory.
    fn breaks_tree(
        &self,
        alloc: Global,
        roles: Roles,
        net: u32,
        nets: &mut Numbering,
        places: &mut Numbering,
    ) -> Result<bool, OutOfMemory>
        requires within { net < self.now.nets }
        requires ports { first_output roles < 2 ^ 32 }
        requires few { length self.now.devices ≤ 2 ^ 24 }
        requires nets_room { nets.old.room ≡ self.now.nets }
        requires places_room { places.old.room ≡ length self.now.devices }
        ensures nets_room { nets.new.room ≡ nets.old.room }
        ensures places_room { places.new.room ≡ places.old.room }
        ensures yes { IfOk result (λ breaks. breaks ≡ true → Breaks self.now.devices roles self.now.nets 3 net) }
        ensures no { IfOk result (λ breaks. breaks ≡ false → Breaks self.now.devices roles self.now.nets 3 net → ⊥) }
    {
        if !self.is_dynamic(roles, net) {
            return Ok(false);
        }
        let Some(front) = self.front(roles, net) else {
            return Ok(false);
        };
        let top = Top {
            roles,
            net,
            clock: front.clock,
        };
        let Some(_tree) = self.tree(alloc, top, nets, places)? else {
            return Ok(true);
        };
        Ok(false)
    }

    /// The smallest net at which rule 1 is broken.
    fn first_front(&self, roles: Roles, count: u32) -> Option<u32>
        requires count { count ≡ self.now.nets }
        requires in_range { AreInRange self.now.devices self.now.nets }
        requires few { first_output roles < 2 ^ 32 }
        ensures some { IfSome result (IsSmallest self.now.devices roles self.now.nets 1) }
        ensures none { IfNone result (IsKept self.now.devices roles self.now.nets 1) }
    {
        for net in 0..count {
            if self.breaks_front(roles, net) {
                return Some(net);
            }
        }
        None
    }

    /// The smallest net at which rule 2 is broken.
    fn first_output(&self, roles: Roles, count: u32) -> Option<u32>
        requires count { count ≡ self.now.nets }
        requires in_range { AreInRange self.now.devices self.now.nets }
        requires few { first_output roles < 2 ^ 32 }
        ensures some { IfSome result (IsSmallest self.now.devices roles self.now.nets 2) }
        ensures none { IfNone result (IsKept self.now.devices roles self.now.nets 2) }
    {
        for net in 0..count {
            if self.breaks_output(roles, net) {
                return Some(net);
            }
        }
        None
    }

    /// The smallest net at which rule 3 is broken. The one error is out of memory.
    fn first_tree(
        &self,
        alloc: Global,
        roles: Roles,
        count: u32,
        devices: u32,
    ) -> Result<Option<u32>, OutOfMemory>
        requires count { count ≡ self.now.nets }
        requires devices { devices ≡ length self.now.devices }
        requires in_range { AreInRange self.now.devices self.now.nets }
        requires ports { first_output roles < 2 ^ 32 }
        requires few { length self.now.devices ≤ 2 ^ 24 }
        ensures some { IfOk result (λ first. IfSome first (IsSmallest self.now.devices roles self.now.nets 3)) }
        ensures none { IfOk result (λ first. IfNone first (IsKept self.now.devices roles self.now.nets 3)) }
    {
        let mut nets = Numbering::new(alloc, count)?;
        let mut places = Numbering::new(alloc, devices)?;
        for net in 0..count {
            if self.breaks_tree(alloc, roles, net, &mut nets, &mut places)? {
                return Ok(Some(net));
            }
        }
        Ok(None)
    }

    /// The first of rules 1 to 3 that is broken, and the smallest net at which it is. A net's devices are
    /// looked at once a rule, and those of a cell once more, so the time is linear in devices and nets. The
    /// one error is out of memory.
    pub fn first_broken(
        &self,
        alloc: Global,
        roles: Roles,
        count: u32,
    ) -> Result<Option<Broken>, OutOfMemory>
        requires count { count ≡ self.now.nets }
        requires ports { first_output roles < 2 ^ 32 }
        requires few { length self.now.devices ≤ 2 ^ 24 }
        ensures some { IfOk result (λ broken. IfSome broken (IsFirst self.now.devices roles self.now.nets)) }
        ensures none { IfOk result (λ broken. IfNone broken ((r : ℕ) → r ≤ 3 → IsKept self.now.devices roles self.now.nets r)) }
    {
        let devices = self.count() as u32;
        if let Some(net) = self.first_front(roles, count) {
            return Ok(Some(Broken { rule: 1, net }));
        }
        if let Some(net) = self.first_output(roles, count) {
            return Ok(Some(Broken { rule: 2, net }));
        }
        let Some(net) = self.first_tree(alloc, roles, count, devices)? else {
            return Ok(None);
        };
        Ok(Some(Broken { rule: 3, net }))
    }
}

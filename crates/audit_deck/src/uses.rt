//! Rule 5: what nets outside of cells and latches are for.
ghost use Rattle.std.specs.Prelude.{◌+◌, ◌<◌, ◌^◌, ◌≡◌, ◌≤◌, IfNone, IfSome, false, length, true};
ghost use Rattle.deck.specs.PortLayout.{first_output};
ghost use Rattle.audit_deck.specs.Broken.{IsKept, IsSmallest};
ghost use Rattle.audit_deck.specs.Indexes.{AreInRange};
ghost use Rattle.audit_deck.specs.Marks.{AreNetMarks};
ghost use Rattle.audit_deck.specs.Uses.{EndsNone, GatesItsLatch, GatesNone, HasBridge, InvertsForSink, IsBridgeFrom, KeepsUseAt, KeepsUses};
ghost use Rattle.deck_audit.specs.Audits.{Breaks};
ghost use Rattle.deck_audit.specs.Rules.{IsLeafNet, IsLoose, IsSinkInput, IsSinkNet, IsUsed, KeepsUse};

use crate::index::Index;
use crate::marks::Marks;
use crate::ports::{VDD, VSS, is_free, is_out_port, is_pin};
use deck::Roles;

impl<'a> Index<'a> {
    /// Whether no device ends at a net.
    fn ends_none(&self, net: u32) -> bool
        requires within { net < self.now.nets }
        ensures yes { result ≡ true → EndsNone self.now.devices net }
        ensures no { result ≡ false → EndsNone self.now.devices net → ⊥ }
    {
        self.ending(net).len() == 0
    }

    /// Whether a net gates no device.
    fn gates_none(&self, net: u32) -> bool
        requires within { net < self.now.nets }
        ensures yes { result ≡ true → GatesNone self.now.devices net }
        ensures no { result ≡ false → GatesNone self.now.devices net → ⊥ }
    {
        self.gating(net).len() == 0
    }

    /// Whether a net is no source, no cell output, and in no cell and no latch.
    fn is_loose(&self, roles: Roles, marks: &Marks, net: u32) -> bool
        requires within { net < self.now.nets }
        requires ports { first_output roles < 2 ^ 32 }
        requires marked { AreNetMarks self.now.devices roles self.now.nets marks.now }
        ensures yes { result ≡ true → IsLoose self.now.devices roles self.now.nets net }
        ensures no { result ≡ false → IsLoose self.now.devices roles self.now.nets net → ⊥ }
    {
        if !is_free(roles, net) {
            return false;
        }
        if marks.outputs.has(net) {
            return false;
        }
        if marks.inside.has(net) {
            return false;
        }
        if marks.latch.has(net) {
            return false;
        }
        true
    }

    /// Whether a net is the data of a latch or an output port.
    fn is_sink(&self, roles: Roles, marks: &Marks, net: u32) -> bool
        requires within { net < self.now.nets }
        requires ports { first_output roles < 2 ^ 32 }
        requires marked { AreNetMarks self.now.devices roles self.now.nets marks.now }
        ensures yes { result ≡ true → IsSinkNet self.now.devices roles net }
        ensures no { result ≡ false → IsSinkNet self.now.devices roles net → ⊥ }
    {
        if marks.latch_data.has(net) {
            return true;
        }
        is_out_port(roles, net)
    }

    /// Whether a net may gate a device of a tree: it is a pin, a latch output, a complement or a cell's
    /// output.
    pub fn is_leaf_net(&self, roles: Roles, marks: &Marks, net: u32) -> bool
        requires within { net < self.now.nets }
        requires ports { first_output roles < 2 ^ 32 }
        requires in_range { AreInRange self.now.devices self.now.nets }
        requires marked { AreNetMarks self.now.devices roles self.now.nets marks.now }
        ensures yes { result ≡ true → IsLeafNet self.now.devices roles net }
        ensures no { result ≡ false → IsLeafNet self.now.devices roles net → ⊥ }
    {
        if is_pin(roles, net) {
            return true;
        }
        if marks.latch_outputs.has(net) {
            return true;
        }
        if marks.outputs.has(net) {
            return true;
        }
        self.is_complement(&marks.complements, roles, net)
    }

    /// Whether a sink may invert a net: a signal, one that is dynamic, or a supply.
    fn is_sink_input(&self, roles: Roles, marks: &Marks, net: u32) -> bool
        requires within { net < self.now.nets }
        requires ports { first_output roles < 2 ^ 32 }
        requires in_range { AreInRange self.now.devices self.now.nets }
        requires marked { AreNetMarks self.now.devices roles self.now.nets marks.now }
        ensures yes { result ≡ true → IsSinkInput self.now.devices roles net }
        ensures no { result ≡ false → IsSinkInput self.now.devices roles net → ⊥ }
    {
        if net == VDD || net == VSS {
            return true;
        }
        if marks.dynamic.has(net) {
            return true;
        }
        self.is_leaf_net(roles, marks, net)
    }

    /// Whether a net inverts what a sink may invert.
    fn inverts_for_sink(&self, roles: Roles, marks: &Marks, net: u32) -> bool
        requires within { net < self.now.nets }
        requires ports { first_output roles < 2 ^ 32 }
        requires in_range { AreInRange self.now.devices self.now.nets }
        requires marked { AreNetMarks self.now.devices roles self.now.nets marks.now }
        ensures yes { result ≡ true → InvertsForSink self.now.devices roles net }
        ensures no { result ≡ false → InvertsForSink self.now.devices roles net → ⊥ }
    {
        let Some(inverter) = self.inverter(net) else {
            return false;
        };
        self.is_sink_input(roles, marks, inverter.input)
    }

    /// Whether a net has no devices and is no sink, or inverts for a sink, or is a complement.
    fn is_used(&self, roles: Roles, marks: &Marks, net: u32) -> bool
        requires within { net < self.now.nets }
        requires ports { first_output roles < 2 ^ 32 }
        requires in_range { AreInRange self.now.devices self.now.nets }
        requires marked { AreNetMarks self.now.devices roles self.now.nets marks.now }
        ensures yes { result ≡ true → IsUsed self.now.devices roles net }
        ensures no { result ≡ false → IsUsed self.now.devices roles net → ⊥ }
    {
        if self.is_complement(&marks.complements, roles, net) {
            return true;
        }
        if self.is_sink(roles, marks, net) {
            return self.inverts_for_sink(roles, marks, net);
        }
        if !self.ends_none(net) {
            return false;
        }
        self.gates_none(net)
    }

    /// Whether a net, as the data of a latch, gates devices of that latch alone: a latch has two that its
    /// data gates.
    fn gates_its_latch(&self, roles: Roles, marks: &Marks, net: u32) -> bool
        requires within { net < self.now.nets }
        requires marked { AreNetMarks self.now.devices roles self.now.nets marks.now }
        ensures yes { result ≡ true → GatesItsLatch self.now.devices roles net }
        ensures no { result ≡ false → GatesItsLatch self.now.devices roles net → ⊥ }
    {
        if !marks.latch_data.has(net) {
            return true;
        }
        self.gating(net).len() == 2
    }

    /// Whether a net keeps rule 5.
    fn keeps_use(&self, roles: Roles, marks: &Marks, net: u32) -> bool
        requires within { net < self.now.nets }
        requires ports { first_output roles < 2 ^ 32 }
        requires in_range { AreInRange self.now.devices self.now.nets }
        requires marked { AreNetMarks self.now.devices roles self.now.nets marks.now }
        ensures yes { result ≡ true → KeepsUse self.now.devices roles net }
        ensures no { result ≡ false → KeepsUse self.now.devices roles net → ⊥ }
    {
        if !self.is_used(roles, marks, net) {
            return false;
        }
        if !self.gates_its_latch(roles, marks, net) {
            return false;
        }
        if !is_out_port(roles, net) {
            return true;
        }
        self.gates_none(net)
    }

    /// Whether a device has this drain, and two sources as ends.
    fn is_bridge_from(&self, roles: Roles, net: u32, place: u32) -> bool
        requires within { place < length self.now.devices }
        requires ports { first_output roles < 2 ^ 32 }
        ensures yes { result ≡ true → IsBridgeFrom self.now.devices roles net place }
        ensures no { result ≡ false → IsBridgeFrom self.now.devices roles net place → ⊥ }
    {
        let device = self.device(place);
        if device.drain != net {
            return false;
        }
        if is_free(roles, device.drain) {
            return false;
        }
        !is_free(roles, device.source)
    }

    /// Whether a device with two sources as ends has this drain.
    fn has_bridge(&self, roles: Roles, net: u32) -> bool
        requires within { net < self.now.nets }
        requires ports { first_output roles < 2 ^ 32 }
        ensures yes { result ≡ true → HasBridge self.now.devices roles net }
        ensures no { result ≡ false → HasBridge self.now.devices roles net → ⊥ }
    {
        for place in self.ending(net) {
            if self.is_bridge_from(roles, net, *place) {
                return true;
            }
        }
        false
    }

    /// Whether rule 5 is broken at a net.
    fn breaks_use(&self, roles: Roles, marks: &Marks, net: u32) -> bool
        requires within { net < self.now.nets }
        requires ports { first_output roles < 2 ^ 32 }
        requires in_range { AreInRange self.now.devices self.now.nets }
        requires marked { AreNetMarks self.now.devices roles self.now.nets marks.now }
        ensures yes { result ≡ true → Breaks self.now.devices roles self.now.nets 5 net }
        ensures no { result ≡ false → Breaks self.now.devices roles self.now.nets 5 net → ⊥ }
        ensures keeps { result ≡ false → KeepsUseAt self.now.devices roles self.now.nets net }
    {
        if self.has_bridge(roles, net) {
            return true;
        }
        if self.keeps_use(roles, marks, net) {
            return false;
        }
        if self.is_loose(roles, marks, net) {
            return true;
        }
        self.is_sink(roles, marks, net)
    }

    /// The smallest net at which rule 5 is broken. A net's devices are looked at a fixed number of times, so
    /// the time is linear in devices and nets.
    pub fn first_use(&self, roles: Roles, marks: &Marks, count: u32) -> Option<u32>
        requires count { count ≡ self.now.nets }
        requires ports { first_output roles < 2 ^ 32 }
        requires outputs { first_output roles + roles.outs ≤ self.now.nets }
        requires in_range { AreInRange self.now.devices self.now.nets }
        requires marked { AreNetMarks self.now.devices roles self.now.nets marks.now }
        ensures some { IfSome result (IsSmallest self.now.devices roles self.now.nets 5) }
        ensures none { IfNone result (IsKept self.now.devices roles self.now.nets 5) }
        ensures keeps { IfNone result (KeepsUses self.now.devices roles self.now.nets) }
    {
        for net in 0..count {
            if self.breaks_use(roles, marks, net) {
                return Some(net);
            }
        }
        None
    }
}

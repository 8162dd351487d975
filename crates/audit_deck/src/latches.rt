//! Rule 4: the latches.
ghost use Rattle.std.specs.Prelude.{◌≡◌, ◌<◌, ◌^◌, All, Contains, IfNone, IfOk, IfSome, OnOk, Some, false, length, slice_get, true, ℕ};
ghost use Rattle.std.specs.List.{AllByRecursion};
ghost use Rattle.circuit_law.specs.Counts.{Distinct};
ghost use Rattle.deck.specs.PortLayout.{first_output};
ghost use Rattle.audit_deck.specs.Broken.{IsKept, IsSmallest};
ghost use Rattle.audit_deck.specs.Groups.{AreGroups, KeepsLatches};
ghost use Rattle.audit_deck.specs.Indexes.{AreInRange};
ghost use Rattle.audit_deck.specs.Latches.{AreParts, Covers, GatesNone, HasControl, HasNoLatch, IsLatchAt, StandsAlone};
ghost use Rattle.audit_deck.specs.LeafOrders.{with_option};
ghost use Rattle.audit_deck.specs.Numberings.{IsMet};
ghost use Rattle.audit_deck.specs.Walks.{MeetsThose};
ghost use Rattle.deck_audit.specs.Rules.{IsAtControl};
ghost use Rattle.deck_audit.specs.Words.{IsInner, own_nets};

use crate::branches::{Branch, Reset};
use crate::index::Index;
use crate::numbering::Numbering;
use crate::ports::{VDD, VSS, is_control, is_free, is_inner};
use deck::Roles;
use dom_base::{Kind, OutOfMemory};
use std::alloc::Global;
use std::marker::Model;

/// A latch: its master and its output with an inner net towards each supply, its data and its start value, and
/// the places of its nine devices in the order of its cards.
#[derive(Drop)]
pub struct LatchGroup {
    pub master: u32,
    pub master_up: u32,
    pub master_down: u32,
    pub data_net: u32,
    pub output: u32,
    pub output_up: u32,
    pub output_down: u32,
    pub start: bool,
    pub places: Vec<u32>,
}

impl Model for LatchGroup {
    ghost use Rattle.found_decks.specs.FoundDecks.{FoundLatch};

    ghost Value = { FoundLatch };

    ghost view = { λ g. record {
      group = record {
        master = g.master;
        master_up = g.master_up;
        master_down = g.master_down;
        data_net = g.data_net;
        output = g.output;
        output_up = g.output_up;
        output_down = g.output_down;
        start = g.start;
      };
      places = g.places.items;
    } };
}

/// The branches of both clocked inverters of a latch, from its output back, and its reset.
#[derive(Clone, Copy)]
pub struct LatchParts {
    pub output_up: Branch,
    pub output_down: Branch,
    pub master_up: Branch,
    pub master_down: Branch,
    pub reset: Reset,
}

/// Whether a number is one of a list.
fn is_one_of(numbers: &[u32], number: u32) -> bool
    ensures yes { result ≡ true → Contains numbers.now number }
    ensures no { result ≡ false → Contains numbers.now number → ⊥ }
{
    numbers.contains(&number)
}

/// Whether all numbers of a list are in another. It ends at the first that isn't.
fn are_among(numbers: &[u32], others: &[u32]) -> bool
    ensures yes { result ≡ true → (i n : ℕ) → slice_get numbers.now i ≡ Some n → Contains others.now n }
    ensures no { result ≡ false → ((i n : ℕ) → slice_get numbers.now i ≡ Some n → Contains others.now n) → ⊥ }
{
    for number in numbers {
        if !is_one_of(others, *number) {
            return false;
        }
    }
    true
}

/// Whether no number stands twice in a list.
fn are_distinct(numbers: &[u32]) -> bool
    ensures yes { result ≡ true → Distinct numbers.now }
    ensures no { result ≡ false → Distinct numbers.now → ⊥ }
{
    for place in 0..numbers.len() {
        if is_one_of(&numbers[..place], numbers[place]) {
            return false;
        }
    }
    true
}

/// Whether all nets of a list are no ports.
fn are_inner(roles: Roles, nets: &[u32]) -> bool
    requires { first_output roles < 2 ^ 32 }
    ensures yes { result ≡ true → AllByRecursion (IsInner roles) nets.now }
    ensures no { result ≡ false → AllByRecursion (IsInner roles) nets.now → ⊥ }
{
    for net in nets {
        if !is_inner(roles, *net) {
            return false;
        }
    }
    true
}

/// Meets the own nets of a latch. The one error is out of memory.
fn meet_own(group: &LatchGroup, met: &mut Numbering) -> Result<(), OutOfMemory>
    requires within { AllByRecursion (λ n. n < met.old.room) (own_nets group.now.group) }
    ensures room { met.new.room ≡ met.old.room }
    ensures met { OnOk result (MeetsThose (Contains (own_nets group.now.group)) met.old.nets met.new.nets) }
{
    met.add(group.master)?;
    met.add(group.output)?;
    met.add(group.master_up)?;
    met.add(group.master_down)?;
    met.add(group.output_up)?;
    met.add(group.output_down)
}

/// Puts a latch at the end of a list, if there is one. The one error is out of memory.
fn put_latch(groups: &mut Vec<LatchGroup>, latch: Option<LatchGroup>) -> Result<(), OutOfMemory>
    ensures { OnOk result (groups.new.items ≡ with_option groups.old.items latch) }
{
    let Some(latch) = latch else {
        return Ok(());
    };
    groups.push(latch)?;
    Ok(())
}

impl<'a> Index<'a> {
    /// The parts of a latch with this output.
    fn parts(&self, roles: Roles, net: u32) -> Option<LatchParts>
        requires within { net < self.now.nets }
        requires few { first_output roles < 2 ^ 32 }
        ensures some { IfSome result (AreParts self.now.devices roles net) }
        ensures none { IfNone result (HasNoLatch self.now.devices roles net) }
    {
        if !self.is_small(net) {
            return None;
        }
        let (master, slave) = (roles.master_pair(), roles.slave_pair());
        let Some(output_up) = self.branch(roles, net, Kind::P, slave + 1, VDD) else {
            return None;
        };
        let Some(output_down) = self.branch(roles, net, Kind::N, slave, VSS) else {
            return None;
        };
        let middle = output_up.input;
        if output_down.input != middle || !self.is_small(middle) {
            return None;
        }
        let Some(master_up) = self.branch(roles, middle, Kind::P, master + 1, VDD) else {
            return None;
        };
        let Some(master_down) = self.branch(roles, middle, Kind::N, master, VSS) else {
            return None;
        };
        if master_down.input != master_up.input {
            return None;
        }
        let Some(reset) = self.reset(roles, net) else {
            return None;
        };
        Some(LatchParts {
            output_up,
            output_down,
            master_up,
            master_down,
            reset,
        })
    }

    /// Whether all devices that end at some nets stand at these places.
    fn are_covered(&self, nets: &[u32], places: &[u32]) -> bool
        requires { All (λ n. n < self.now.nets) nets.now }
        ensures yes { result ≡ true → AllByRecursion (Covers self.now.devices places.now) nets.now }
        ensures no { result ≡ false → AllByRecursion (Covers self.now.devices places.now) nets.now → ⊥ }
    {
        for net in nets {
            if !are_among(self.ending(*net), places) {
                return false;
            }
        }
        true
    }

    /// Whether some nets gate nothing.
    fn gate_none(&self, nets: &[u32]) -> bool
        requires { All (λ n. n < self.now.nets) nets.now }
        ensures yes { result ≡ true → AllByRecursion (GatesNone self.now.devices) nets.now }
        ensures no { result ≡ false → AllByRecursion (GatesNone self.now.devices) nets.now → ⊥ }
    {
        for net in nets {
            if self.gating(*net).len() != 0 {
                return false;
            }
        }
        true
    }

    /// Whether the nets of a latch, its data first and its master second, differ and are no ports, no other
    /// devices end at them, those inside gate nothing, and its master gates no other device.
    fn stands_alone(&self, roles: Roles, nets: &[u32], places: &[u32]) -> bool
        requires seven { length nets.now ≡ 7 }
        requires within { All (λ n. n < self.now.nets) nets.now }
        requires few { first_output roles < 2 ^ 32 }
        ensures yes { result ≡ true → StandsAlone self.now.devices roles nets.now places.now }
        ensures no { result ≡ false → StandsAlone self.now.devices roles nets.now places.now → ⊥ }
    {
        if !are_distinct(nets) {
            return false;
        }
        if !are_inner(roles, nets) {
            return false;
        }
        if !self.are_covered(&nets[1..], places) {
            return false;
        }
        if !self.gate_none(&nets[3..]) {
            return false;
        }
        are_among(self.gating(nets[1]), places)
    }

    /// The latch with this output, if it has one that keeps rule 4. The time is constant but for the devices at
    /// the net. The one error is out of memory.
    fn latch_at(
        &self,
        alloc: Global,
        roles: Roles,
        net: u32,
    ) -> Result<Option<LatchGroup>, OutOfMemory>
        requires within { net < self.now.nets }
        requires in_range { AreInRange self.now.devices self.now.nets }
        requires few { first_output roles < 2 ^ 32 }
        ensures some { IfOk result (λ latch. IfSome latch (IsLatchAt self.now.devices roles net)) }
        ensures none { IfOk result (λ latch. IfNone latch (HasNoLatch self.now.devices roles net)) }
    {
        let Some(parts) = self.parts(roles, net) else {
            return Ok(None);
        };
        let (up, down) = (parts.output_up, parts.output_down);
        let (first_up, first_down) = (parts.master_up, parts.master_down);
        let nets = vec![in alloc;
            first_up.input,
            up.input,
            net,
            first_up.inner,
            first_down.inner,
            up.inner,
            down.inner,
        ]?;
        let places = vec![in alloc;
            first_up.clocked,
            first_up.fed,
            first_down.clocked,
            first_down.fed,
            up.clocked,
            up.fed,
            down.clocked,
            down.fed,
            parts.reset.place,
        ]?;
        if !self.stands_alone(roles, nets.as_slice(), places.as_slice()) {
            return Ok(None);
        }
        Ok(Some(LatchGroup {
            master: up.input,
            master_up: first_up.inner,
            master_down: first_down.inner,
            data_net: first_up.input,
            output: net,
            output_up: up.inner,
            output_down: down.inner,
            start: parts.reset.start,
            places,
        }))
    }

    /// The latches that keep rule 4, by rising output. The time is linear in devices and nets. The one error is
    /// out of memory.
    pub fn groups(
        &self,
        alloc: Global,
        roles: Roles,
        count: u32,
    ) -> Result<Vec<LatchGroup>, OutOfMemory>
        requires count { count ≡ self.now.nets }
        requires in_range { AreInRange self.now.devices self.now.nets }
        requires few { first_output roles < 2 ^ 32 }
        ensures { IfOk result (λ groups. AreGroups self.now.devices roles groups.items) }
    {
        let mut groups = Vec::new(alloc);
        for net in 0..count {
            let latch = self.latch_at(alloc, roles, net)?;
            put_latch(&mut groups, latch)?;
        }
        Ok(groups)
    }

    /// Whether a clock or reset of latches gates a device.
    fn has_control(&self, roles: Roles, place: u32) -> bool
        requires { place < length self.now.devices }
        ensures yes { result ≡ true → HasControl self.now.devices roles place }
        ensures no { result ≡ false → HasControl self.now.devices roles place → ⊥ }
    {
        is_control(roles, self.device(place).gate)
    }

    /// Whether a net is no source, and a device ends at it that a clock or reset of latches gates.
    fn is_at_control(&self, roles: Roles, net: u32) -> bool
        requires within { net < self.now.nets }
        requires few { first_output roles < 2 ^ 32 }
        ensures yes { result ≡ true → IsAtControl self.now.devices roles net }
        ensures no { result ≡ false → IsAtControl self.now.devices roles net → ⊥ }
    {
        if !is_free(roles, net) {
            return false;
        }
        for place in self.ending(net) {
            if self.has_control(roles, *place) {
                return true;
            }
        }
        false
    }

    /// Whether a net is at a clock or reset of latches, and not one of these nets of latches.
    fn lacks_latch(&self, roles: Roles, net: u32, own: &Numbering) -> bool
        requires within { net < self.now.nets }
        requires room { own.now.room ≡ self.now.nets }
        requires few { first_output roles < 2 ^ 32 }
        ensures yes { result ≡ true → IsAtControl self.now.devices roles net × (IsMet own.now.nets net → ⊥) }
        ensures no { result ≡ false → IsAtControl self.now.devices roles net → IsMet own.now.nets net }
    {
        if !self.is_at_control(roles, net) {
            return false;
        }
        own.number(net).is_none()
    }

    /// The smallest net at which rule 4 is broken, where these are the latches that keep it. The time is linear in
    /// devices and nets. The one error is out of memory.
    pub fn first_latch(
        &self,
        alloc: Global,
        roles: Roles,
        count: u32,
        groups: &[LatchGroup],
    ) -> Result<Option<u32>, OutOfMemory>
        requires count { count ≡ self.now.nets }
        requires in_range { AreInRange self.now.devices self.now.nets }
        requires few { first_output roles < 2 ^ 32 }
        requires groups { AreGroups self.now.devices roles groups.now }
        ensures some { IfOk result (λ first. IfSome first (IsSmallest self.now.devices roles self.now.nets 4)) }
        ensures none { IfOk result (λ first. IfNone first (IsKept self.now.devices roles self.now.nets 4)) }
        ensures keeps { IfOk result (λ first. IfNone first (KeepsLatches self.now.devices roles)) }
    {
        let mut own = Numbering::new(alloc, count)?;
        for group in groups {
            meet_own(group, &mut own)?;
        }
        for net in 0..count {
            if self.lacks_latch(roles, net, &own) {
                return Ok(Some(net));
            }
        }
        Ok(None)
    }
}

//! What each net is in an audit, as marks by net.
ghost use Rattle.std.specs.Prelude.{◌≡◌, ◌<◌, ◌^◌, All, IfOk, OnOk, false, length, true};
ghost use Rattle.deck.specs.PortLayout.{first_output};
ghost use Rattle.audit_deck.specs.Groups.{AreAllGroups};
ghost use Rattle.audit_deck.specs.Indexes.{AreInRange};
ghost use Rattle.audit_deck.specs.Marks.{AddsMarks, AreMarks, AreNetMarks, HoldsDynamic, IsDataOf, IsInCell, IsOutputIn, IsOwnOf, IsWithin};
ghost use Rattle.audit_deck.specs.Numberings.{IsMet};
ghost use Rattle.deck_audit.specs.Words.{IsCellOutput, IsDynamic, Reached, own_nets};

use crate::complements::Complements;
use crate::index::Index;
use crate::latches::LatchGroup;
use crate::net_marks::NetMarks;
use crate::numbering::Numbering;
use crate::ports::is_free;
use deck::Roles;
use dom_base::{Kind, OutOfMemory};
use std::alloc::Global;

/// By net: whether it is dynamic, a cell's output, in a cell, a latch's own net, the data of a latch, the
/// output of one; and its complement.
#[derive(Drop)]
pub struct Marks {
    pub dynamic: NetMarks,
    pub outputs: NetMarks,
    pub inside: NetMarks,
    pub latch: NetMarks,
    pub latch_data: NetMarks,
    pub latch_outputs: NetMarks,
    pub complements: Complements,
}

/// Marks the own nets of a latch.
fn mark_own(marks: &mut NetMarks, group: &LatchGroup)
    requires within { IsWithin (length marks.old) group.now }
    ensures { AddsMarks (IsMet (own_nets (group.now).group)) marks.old marks.new }
{
    marks.mark_all(&[
        group.master,
        group.output,
        group.master_up,
        group.master_down,
        group.output_up,
        group.output_down,
    ]);
}

/// The own nets of latches. The one error is out of memory.
fn own_marks(alloc: Global, groups: &[LatchGroup], count: u32) -> Result<NetMarks, OutOfMemory>
    requires within { All (IsWithin count) groups.now }
    ensures { IfOk result (AreMarks (IsOwnOf groups.now) count) }
{
    let mut marks = NetMarks::none_of(alloc, count)?;
    for group in groups {
        mark_own(&mut marks, group);
    }
    Ok(marks)
}

/// The data of latches. The one error is out of memory.
fn data_marks(alloc: Global, groups: &[LatchGroup], count: u32) -> Result<NetMarks, OutOfMemory>
    requires within { All (IsWithin count) groups.now }
    ensures { IfOk result (AreMarks (IsDataOf groups.now) count) }
{
    let mut marks = NetMarks::none_of(alloc, count)?;
    for group in groups {
        marks.mark(group.data_net);
    }
    Ok(marks)
}

/// The outputs of latches. The one error is out of memory.
fn latch_output_marks(
    alloc: Global,
    groups: &[LatchGroup],
    count: u32,
) -> Result<NetMarks, OutOfMemory>
    requires within { All (IsWithin count) groups.now }
    ensures { IfOk result (AreMarks (IsOutputIn groups.now) count) }
{
    let mut marks = NetMarks::none_of(alloc, count)?;
    for group in groups {
        marks.mark(group.output);
    }
    Ok(marks)
}

impl<'a> Index<'a> {
    /// The dynamic nets. The one error is out of memory.
    fn dynamic_marks(
        &self,
        alloc: Global,
        roles: Roles,
        count: u32,
    ) -> Result<NetMarks, OutOfMemory>
        requires count { count ≡ self.now.nets }
        requires ports { first_output roles < 2 ^ 32 }
        ensures { IfOk result (AreMarks (IsDynamic self.now.devices roles) self.now.nets) }
    {
        let mut marks = NetMarks::new(alloc);
        for net in 0..count {
            marks.add(self.is_dynamic(roles, net))?;
        }
        Ok(marks)
    }

    /// Whether a device is a keeper at a net that is no source.
    fn holds_dynamic(&self, roles: Roles, place: u32) -> bool
        requires within { place < length self.now.devices }
        requires ports { first_output roles < 2 ^ 32 }
        ensures yes { result ≡ true → HoldsDynamic self.now.devices roles place }
        ensures no { result ≡ false → HoldsDynamic self.now.devices roles place → ⊥ }
    {
        if !self.has_kind(place, Kind::Keep) {
            return false;
        }
        let device = self.device(place);
        if is_free(roles, device.drain) {
            return true;
        }
        is_free(roles, device.source)
    }

    /// Whether a net is the output of a cell: it gates the keeper of a dynamic net.
    fn is_cell_output(&self, roles: Roles, net: u32) -> bool
        requires within { net < self.now.nets }
        requires ports { first_output roles < 2 ^ 32 }
        ensures yes { result ≡ true → IsCellOutput self.now.devices roles net }
        ensures no { result ≡ false → IsCellOutput self.now.devices roles net → ⊥ }
    {
        for place in self.gating(net) {
            if self.holds_dynamic(roles, *place) {
                return true;
            }
        }
        false
    }

    /// The outputs of cells. The one error is out of memory.
    fn output_marks(&self, alloc: Global, roles: Roles, count: u32) -> Result<NetMarks, OutOfMemory>
        requires count { count ≡ self.now.nets }
        requires ports { first_output roles < 2 ^ 32 }
        ensures { IfOk result (AreMarks (IsCellOutput self.now.devices roles) self.now.nets) }
    {
        let mut marks = NetMarks::new(alloc);
        for net in 0..count {
            marks.add(self.is_cell_output(roles, net))?;
        }
        Ok(marks)
    }

    /// Marks the nets of a cell, where the net is dynamic. The one error is out of memory.
    fn mark_cell(
        &self,
        roles: Roles,
        net: u32,
        nets: &mut Numbering,
        marks: &mut NetMarks,
    ) -> Result<(), OutOfMemory>
        requires within { net < self.now.nets }
        requires ports { first_output roles < 2 ^ 32 }
        requires room { nets.old.room ≡ self.now.nets }
        requires count { length marks.old ≡ self.now.nets }
        ensures room { nets.new.room ≡ nets.old.room }
        ensures marked { OnOk result (AddsMarks (λ n. IsDynamic self.now.devices roles net × Reached self.now.devices roles net n)
            marks.old marks.new) }
    {
        if !self.is_dynamic(roles, net) {
            return Ok(());
        }
        self.reach(roles, net, nets)?;
        marks.mark_all(nets.nets());
        Ok(())
    }

    /// The nets in cells, in a time that is linear in devices and nets where no two cells share one. The one
    /// error is out of memory.
    fn inside_marks(&self, alloc: Global, roles: Roles, count: u32) -> Result<NetMarks, OutOfMemory>
        requires count { count ≡ self.now.nets }
        requires ports { first_output roles < 2 ^ 32 }
        requires in_range { AreInRange self.now.devices self.now.nets }
        ensures { IfOk result (AreMarks (IsInCell self.now.devices roles) self.now.nets) }
    {
        let mut nets = Numbering::new(alloc, count)?;
        let mut marks = NetMarks::none_of(alloc, count)?;
        for net in 0..count {
            self.mark_cell(roles, net, &mut nets, &mut marks)?;
        }
        Ok(marks)
    }

    /// The marks of all nets, of a circuit with these latches. The one error is out of memory.
    pub fn marks(
        &self,
        alloc: Global,
        roles: Roles,
        count: u32,
        groups: &[LatchGroup],
    ) -> Result<Marks, OutOfMemory>
        requires count { count ≡ self.now.nets }
        requires ports { first_output roles < 2 ^ 32 }
        requires in_range { AreInRange self.now.devices self.now.nets }
        requires groups { AreAllGroups self.now.devices roles groups.now }
        ensures { IfOk result (AreNetMarks self.now.devices roles self.now.nets) }
    {
        let dynamic = self.dynamic_marks(alloc, roles, count)?;
        let outputs = self.output_marks(alloc, roles, count)?;
        let inside = self.inside_marks(alloc, roles, count)?;
        let latch = own_marks(alloc, groups, count)?;
        let latch_data = data_marks(alloc, groups, count)?;
        let latch_outputs = latch_output_marks(alloc, groups, count)?;
        let complements = self.complements(alloc, roles, count, &latch_data, &latch_outputs)?;
        Ok(Marks {
            dynamic,
            outputs,
            inside,
            latch,
            latch_data,
            latch_outputs,
            complements,
        })
    }
}

//! The audit of a circuit.
ghost use Rattle.std.specs.Prelude.{◌≡◌, ◌+◌, ◌≤◌, ◌^◌, IfOk, length, ℕ};
ghost use Rattle.audit_deck.specs.Answers.{IsAuditOf, answer_of};
ghost use Rattle.audit_deck.specs.Broken.{IsKept};
ghost use Rattle.audit_deck.specs.Groups.{AreAllGroups, KeepsLatches};
ghost use Rattle.audit_deck.specs.Indexes.{AreInRange};
ghost use Rattle.audit_deck.specs.Marks.{AreNetMarks};
ghost use Rattle.audit_deck.specs.Uses.{KeepsUses};
ghost use Rattle.deck.specs.PortLayout.{first_output};
ghost use Rattle.deck.specs.Roles.{AreRoles, ports_of};
ghost use Rattle.deck_audit.specs.Audits.{IsAudit};

use crate::answer::{Audit, Places};
use crate::index::Index;
use crate::latches::LatchGroup;
use crate::marks::Marks;
use deck::{Circuit, Roles};
use dom_base::OutOfMemory;
use std::alloc::Global;

impl<'a> Index<'a> {
    /// The answer where rules 1 to 5 hold: no by rule 6, or yes. The one error is out of memory.
    fn answer_by_cells(
        &self,
        alloc: Global,
        roles: Roles,
        latches: &[LatchGroup],
        marks: &Marks,
        count: u32,
        devices: u32,
    ) -> Result<Audit, OutOfMemory>
        requires count { count ≡ self.now.nets }
        requires devices { devices ≡ length self.now.devices }
        requires clocks { 1 ≤ roles.clocks }
        requires ports { first_output roles + roles.outs ≤ self.now.nets }
        requires few { length self.now.devices ≤ 2 ^ 24 }
        requires in_range { AreInRange self.now.devices self.now.nets }
        requires kept { (r : ℕ) → r ≤ 5 → IsKept self.now.devices roles self.now.nets r }
        requires keeps { KeepsLatches self.now.devices roles }
        requires uses { KeepsUses self.now.devices roles self.now.nets }
        requires latches { AreAllGroups self.now.devices roles latches.now }
        requires marked { AreNetMarks self.now.devices roles self.now.nets marks.now }
        ensures { IfOk result (λ a. IsAuditOf self.now.devices self.now.nets roles (answer_of a)) }
    {
        let nodes = self.reads(alloc, roles, marks, count, devices)?;
        let nodes = nodes.as_slice();
        if let Some(net) = self.first_leaf_or_loop(alloc, roles, marks, nodes, count, devices)? {
            return Ok(Audit::No { rule: 6, net });
        }
        let cells = self.cell_order(alloc, roles, marks, nodes)?;
        let complements = marks.complements.in_order(alloc, roles, latches)?;
        let tops = cells.nets();
        let order = self.deck_order(
            alloc,
            roles,
            tops,
            complements.as_slice(),
            latches,
            count,
            devices,
        )?;
        Ok(Audit::Yes {
            order: Places(order.places),
            cells: tops.len() as u32,
            width: order.width,
            height: order.height,
        })
    }

    /// The answer where rules 1 to 3 hold: no by rule 4, by rule 5, or as the cells say. The one error is out of
    /// memory.
    fn answer_by_nets(
        &self,
        alloc: Global,
        roles: Roles,
        count: u32,
        devices: u32,
    ) -> Result<Audit, OutOfMemory>
        requires count { count ≡ self.now.nets }
        requires devices { devices ≡ length self.now.devices }
        requires clocks { 1 ≤ roles.clocks }
        requires ports { first_output roles + roles.outs ≤ self.now.nets }
        requires few { length self.now.devices ≤ 2 ^ 24 }
        requires in_range { AreInRange self.now.devices self.now.nets }
        requires kept { (r : ℕ) → r ≤ 3 → IsKept self.now.devices roles self.now.nets r }
        ensures { IfOk result (λ a. IsAuditOf self.now.devices self.now.nets roles (answer_of a)) }
    {
        let latches = self.groups(alloc, roles, count)?;
        let latches = latches.as_slice();
        if let Some(net) = self.first_latch(alloc, roles, count, latches)? {
            return Ok(Audit::No { rule: 4, net });
        }
        let marks = self.marks(alloc, roles, count, latches)?;
        if let Some(net) = self.first_use(roles, &marks, count) {
            return Ok(Audit::No { rule: 5, net });
        }
        self.answer_by_cells(alloc, roles, latches, &marks, count, devices)
    }
}

/// The answer of the audit of a circuit whose ports have these roles. The time is linear in devices and nets where
/// no two cells share a net. The one error is out of memory.
pub fn audit(alloc: Global, circuit: &Circuit, roles: Roles) -> Result<Audit, OutOfMemory>
    requires roles { AreRoles (ports_of circuit.now) roles }
    ensures answer { IfOk result (λ a. IsAudit circuit.now roles (answer_of a)) }
{
    let devices = circuit.device_count();
    let count = circuit.nets.len() as u32;
    let index = Index::new(alloc, circuit.devices.as_slice(), count)?;
    if let Some(broken) = index.first_broken(alloc, roles, count)? {
        return Ok(Audit::No {
            rule: broken.rule,
            net: broken.net,
        });
    }
    index.answer_by_nets(alloc, roles, count, devices)
}

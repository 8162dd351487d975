//! The complements of pins and latch outputs.
ghost use Rattle.std.specs.Prelude.{◌≡◌, ◌+◌, ◌<◌, ◌≤◌, ◌^◌, All, IfNone, IfOk, IfSome, List, None, OnOk, Some, false, length, replicate, slice_get, slice_set, true, ℕ};
ghost use Rattle.deck.specs.PortLayout.{first_output};
ghost use Rattle.audit_deck.specs.Indexes.{AreInRange};
ghost use Rattle.audit_deck.specs.LeafOrders.{AreByPlace, IsOfLeaf, with_option};
ghost use Rattle.audit_deck.specs.Marks.{AreComplements, AreMarks, IsSomeComplement, IsWithin};
ghost use Rattle.deck_audit.specs.Words.{IsLatchData, IsLatchOutput, MayBeComplement};
ghost use Rattle.found_decks.specs.FoundDecks.{FoundLatch};

use crate::index::Index;
use crate::latches::LatchGroup;
use crate::net_marks::NetMarks;
use crate::ports::{is_out_port, is_pin};
use deck::Roles;
use dom_base::OutOfMemory;
use std::alloc::Global;
use std::marker::Model;

/// Puts a net at the end of a list, if there is one. The one error is out of memory.
fn put_net(nets: &mut Vec<u32>, net: Option<u32>) -> Result<(), OutOfMemory>
    ensures { OnOk result (nets.new.items ≡ with_option nets.old.items net) }
{
    let Some(net) = net else {
        return Ok(());
    };
    nets.push(net)?;
    Ok(())
}

/// For each net its complement, where one is known.
#[derive(Drop)]
pub struct Complements(Vec<Option<u32>>);

impl Model for Complements {
    ghost use Rattle.std.specs.Prelude.{List, Option, ℕ};

    ghost Value = { List (Option ℕ) };

    ghost view = { λ c. c.0.items };
}

impl Complements {
    /// Of so many nets none has a complement. The one error is out of memory.
    pub fn none_of(alloc: Global, count: u32) -> Result<Complements, OutOfMemory>
        ensures { IfOk result (λ c. c ≡ replicate count None) }
    {
        let complements = vec![in alloc; None; count as usize]?;
        Ok(Complements(complements))
    }

    /// The complement of a net.
    pub fn of(&self, input: u32) -> Option<u32>
        requires { input < length self.now }
        ensures { slice_get self.now input ≡ Some result }
    {
        self.0[input as usize]
    }

    /// Makes a net the complement of another.
    pub fn set(&mut self, input: u32, net: u32)
        requires { input < length self.old }
        ensures { self.new ≡ slice_set self.old input (Some net) }
    {
        self.0[input as usize] = Some(net);
    }

    /// The complements of the pins, in order. The one error is out of memory.
    fn of_pins(&self, alloc: Global, roles: Roles) -> Result<Vec<u32>, OutOfMemory>
        requires ports { first_output roles ≤ length self.now }
        requires few { length self.now < 2 ^ 32 }
        ensures { IfOk result (λ pins. (latches : List FoundLatch) → AreByPlace (IsOfLeaf roles latches self.now) roles.pins pins.items) }
    {
        let mut pins = Vec::new(alloc);
        let first = roles.first_pin();
        for pin in 0..roles.pins {
            put_net(&mut pins, self.of(first + pin))?;
        }
        Ok(pins)
    }

    /// The complements of the pins and behind them those of the outputs of latches, in order. The time is linear in pins and
    /// latches. The one error is out of memory.
    pub fn in_order(
        &self,
        alloc: Global,
        roles: Roles,
        latches: &[LatchGroup],
    ) -> Result<Vec<u32>, OutOfMemory>
        requires ports { first_output roles ≤ length self.now }
        requires few { length self.now < 2 ^ 32 }
        requires within { All (IsWithin (length self.now)) latches.now }
        ensures { IfOk result (λ nets. AreByPlace (IsOfLeaf roles latches.now self.now) (roles.pins + length latches.now) nets.items) }
    {
        let mut nets = self.of_pins(alloc, roles)?;
        for latch in latches {
            put_net(&mut nets, self.of(latch.output))?;
        }
        Ok(nets)
    }
}

impl<'a> Index<'a> {
    /// The pin or latch output whose complement a net may be: it is an inverter output, but neither an
    /// output port nor the data of a latch.
    fn complemented(
        &self,
        roles: Roles,
        net: u32,
        latch_data: &NetMarks,
        latch_outputs: &NetMarks,
    ) -> Option<u32>
        requires within { net < self.now.nets }
        requires ports { first_output roles < 2 ^ 32 }
        requires in_range { AreInRange self.now.devices self.now.nets }
        requires inputs { AreMarks (IsLatchData self.now.devices roles) self.now.nets latch_data.now }
        requires outputs { AreMarks (IsLatchOutput self.now.devices roles) self.now.nets latch_outputs.now }
        ensures some { IfSome result (MayBeComplement self.now.devices roles net) }
        ensures none { IfNone result ((input : ℕ) → MayBeComplement self.now.devices roles net input → ⊥) }
    {
        let Some(inverter) = self.inverter(net) else {
            return None;
        };
        let input = inverter.input;
        if is_out_port(roles, net) {
            return None;
        }
        if latch_data.has(net) {
            return None;
        }
        if is_pin(roles, input) {
            return Some(input);
        }
        if !latch_outputs.has(input) {
            return None;
        }
        Some(input)
    }

    /// The complements of all nets: of each pin and latch output the first net that may be it. The one
    /// error is out of memory.
    pub fn complements(
        &self,
        alloc: Global,
        roles: Roles,
        count: u32,
        latch_data: &NetMarks,
        latch_outputs: &NetMarks,
    ) -> Result<Complements, OutOfMemory>
        requires count { count ≡ self.now.nets }
        requires ports { first_output roles < 2 ^ 32 }
        requires in_range { AreInRange self.now.devices self.now.nets }
        requires inputs { AreMarks (IsLatchData self.now.devices roles) self.now.nets latch_data.now }
        requires outputs { AreMarks (IsLatchOutput self.now.devices roles) self.now.nets latch_outputs.now }
        ensures { IfOk result (AreComplements self.now.devices roles self.now.nets) }
    {
        let mut complements = Complements::none_of(alloc, count)?;
        for net in 0..count {
            if let Some(input) = self.complemented(roles, net, latch_data, latch_outputs) {
                if complements.of(input).is_none() {
                    complements.set(input, net);
                }
            }
        }
        Ok(complements)
    }

    /// Whether a net is the complement of some input.
    pub fn is_complement(&self, complements: &Complements, roles: Roles, net: u32) -> bool
        requires within { net < self.now.nets }
        requires ports { first_output roles < 2 ^ 32 }
        requires in_range { AreInRange self.now.devices self.now.nets }
        requires are { AreComplements self.now.devices roles self.now.nets complements.now }
        ensures yes { result ≡ true → IsSomeComplement self.now.devices roles net }
        ensures no { result ≡ false → IsSomeComplement self.now.devices roles net → ⊥ }
    {
        if is_out_port(roles, net) {
            return false;
        }
        let Some(inverter) = self.inverter(net) else {
            return false;
        };
        let Some(first) = complements.of(inverter.input) else {
            return false;
        };
        first == net
    }
}

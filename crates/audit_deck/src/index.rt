//! The devices of a circuit by net.
ghost use Rattle.std.specs.Prelude.{◌≡◌, ◌<◌, ◌≤◌, ◌^◌, All, IfNone, IfOk, IfSome, OnOk, Some, false, length, slice_get, true, ℕ};
ghost use Rattle.audit_deck.specs.Indexes.{AddsWhere, AreInRange, AreThose, EndingAt, GatedBy, HasEnd, HasKind, IsOnly};
ghost use Rattle.deck.specs.Nets.{IsInRange};

use deck::Device;
use dom_base::{Kind, OutOfMemory};
use link_reduce::Stacks;
use std::alloc::Global;
use std::marker::Model;

/// The devices of a circuit, and by net the places of those that end at it and of those that it gates.
#[derive(Drop)]
pub struct Index<'a> {
    devices: &'a [Device],
    ending: Stacks,
    gating: Stacks,
}

impl<'a> Model for Index<'a> {
    ghost use Rattle.std.specs.Prelude.{length};
    ghost use Rattle.audit_deck.specs.Indexes.{AreIndexed, IndexData};

    ghost Value = { IndexData };

    ghost view = { λ i. record { devices = i.devices.now; nets = length i.ending } };

    ghost invariant = { λ i. AreIndexed i.devices.now i.ending i.gating };
}

/// Adds a place to the lists of the two ends of a device, and once where they are one.
fn add_ends(lists: &mut Stacks, device: Device, place: u32) -> Result<(), OutOfMemory>
    requires drain { device.drain < length lists.old }
    requires source { device.source < length lists.old }
    ensures { OnOk result (AddsWhere (HasEnd device) place lists.old lists.new) }
{
    if device.drain == device.source {
        return lists.add(device.drain, place);
    }
    lists.add(device.drain, place)?;
    lists.add(device.source, place)
}

impl<'a> Index<'a> {
    /// The index of devices between so many nets, in a time that is linear in both. The one error is out
    /// of memory.
    pub fn new(alloc: Global, devices: &'a [Device], nets: u32) -> Result<Index<'a>, OutOfMemory>
        requires few { length devices.now ≤ 2 ^ 24 }
        requires in_range { All (IsInRange nets) devices.now }
        ensures devices { IfOk result (λ i. i.devices ≡ devices.now) }
        ensures nets { IfOk result (λ i. i.nets ≡ nets) }
    {
        let mut ending = Stacks::new(alloc, nets)?;
        let mut gating = Stacks::new(alloc, nets)?;
        for place in 0..devices.len() {
            let device = devices[place];
            add_ends(&mut ending, device, place as u32)?;
            gating.add(device.gate, place as u32)?;
        }
        Ok(Index {
            devices,
            ending,
            gating,
        })
    }

    /// How many devices there are.
    pub fn count(&self) -> usize
        ensures count { result ≡ length self.now.devices }
        ensures in_range { AreInRange self.now.devices self.now.nets }
    {
        self.devices.len()
    }

    /// The device at a place.
    pub fn device(&self, place: u32) -> Device
        requires { place < length self.now.devices }
        ensures there { slice_get self.now.devices place ≡ Some result }
        ensures in_range { IsInRange self.now.nets result }
    {
        self.devices[place as usize]
    }

    /// The places of the devices that end at a net.
    pub fn ending(&self, net: u32) -> &[u32]
        requires { net < self.now.nets }
        ensures are { AreThose (EndingAt self.now.devices net) result.now }
        ensures places { All (λ place. place < length self.now.devices) result.now }
    {
        self.ending.at(net)
    }

    /// The places of the devices that a net gates.
    pub fn gating(&self, net: u32) -> &[u32]
        requires { net < self.now.nets }
        ensures are { AreThose (GatedBy self.now.devices net) result.now }
        ensures places { All (λ place. place < length self.now.devices) result.now }
    {
        self.gating.at(net)
    }

    /// Whether a device has a kind.
    pub fn has_kind(&self, place: u32, kind: Kind) -> bool
        requires { place < length self.now.devices }
        ensures yes { result ≡ true → HasKind self.now.devices kind place }
        ensures no { result ≡ false → HasKind self.now.devices kind place → ⊥ }
    {
        self.device(place).kind == kind
    }

    /// The place of the one device of a kind that ends at a net, if there is exactly one.
    pub fn only(&self, net: u32, kind: Kind) -> Option<u32>
        requires { net < self.now.nets }
        ensures some { IfSome result (IsOnly self.now.devices net kind) }
        ensures none { IfNone result ((place : ℕ) → IsOnly self.now.devices net kind place → ⊥) }
    {
        let mut only = None;
        for place in self.ending(net) {
            if self.has_kind(*place, kind) {
                if only.is_some() {
                    return None;
                }
                only = Some(*place);
            }
        }
        only
    }
}

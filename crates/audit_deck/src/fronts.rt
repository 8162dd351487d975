//! Rules 1 and 2: the precharge and the keeper of a dynamic net, and the inverter behind it.
ghost use Rattle.std.specs.Prelude.{◌≡◌, ◌<◌, ◌^◌, IfNone, IfSome, false, length, true, ℕ};
ghost use Rattle.deck.specs.PortLayout.{first_output};
ghost use Rattle.audit_deck.specs.Fronts.{IsFrontAt, IsInverterAt, IsOutputAt, IsPairAt, MakesDynamic};
ghost use Rattle.audit_deck.specs.declared.fronts.Inverter.{Inverter as InverterData};
ghost use Rattle.deck_audit.specs.Rules.{HasFront, HasOutput};
ghost use Rattle.deck_audit.specs.Words.{IsDynamic, IsInverterOutput};

use crate::index::Index;
use crate::ports::{VDD, VSS, is_clock, is_free, is_inner, joins};
use deck::Roles;
use dom_base::Kind;

/// An inverter by the places of its devices, and its input.
#[derive(Clone, Copy)]
pub struct Inverter {
    pub input: u32,
    pub up: u32,
    pub down: u32,
}

/// What rule 1 finds at a dynamic net: its clock, the net that gates its keeper, and the places of both
/// devices.
#[derive(Clone, Copy)]
pub struct Front {
    pub clock: u32,
    pub output: u32,
    pub precharge: u32,
    pub keeper: u32,
}

impl<'a> Index<'a> {
    /// Two devices as an inverter with this output.
    fn pair(&self, net: u32, up: u32, down: u32) -> Option<Inverter>
        requires up { up < length self.now.devices }
        requires down { down < length self.now.devices }
        ensures some { IfSome result (IsPairAt self.now.devices net up down) }
        ensures none { IfNone result ((i : InverterData) → IsPairAt self.now.devices net up down i → ⊥) }
    {
        let (high, low) = (self.device(up), self.device(down));
        if high.kind != Kind::P || low.kind != Kind::N || high.gate != low.gate {
            return None;
        }
        if !joins(high, net, VDD) || !joins(low, net, VSS) {
            return None;
        }
        Some(Inverter {
            input: high.gate,
            up,
            down,
        })
    }

    /// The inverter whose output the net is.
    pub fn inverter(&self, net: u32) -> Option<Inverter>
        requires { net < self.now.nets }
        ensures some { IfSome result (IsInverterAt self.now.devices net) }
        ensures none { IfNone result ((input : ℕ) → IsInverterOutput self.now.devices net input → ⊥) }
    {
        let ending = self.ending(net);
        if ending.len() != 2 {
            return None;
        }
        let (first, second) = (ending[0], ending[1]);
        let Some(inverter) = self.pair(net, first, second) else {
            return self.pair(net, second, first);
        };
        Some(inverter)
    }

    /// Whether a device makes a net dynamic at which it ends: it is a keeper, or a `pch` to `vdd` that a
    /// clock gates.
    fn makes_dynamic(&self, roles: Roles, net: u32, place: u32) -> bool
        requires { place < length self.now.devices }
        ensures yes { result ≡ true → MakesDynamic self.now.devices roles net place }
        ensures no { result ≡ false → MakesDynamic self.now.devices roles net place → ⊥ }
    {
        let device = self.device(place);
        device.kind == Kind::Keep
            || (device.kind == Kind::P && is_clock(roles, device.gate) && joins(device, net, VDD))
    }

    /// Whether the net is dynamic: no source, with a keeper at it, or a `pch` to `vdd` that a clock gates.
    pub fn is_dynamic(&self, roles: Roles, net: u32) -> bool
        requires within { net < self.now.nets }
        requires few { first_output roles < 2 ^ 32 }
        ensures yes { result ≡ true → IsDynamic self.now.devices roles net }
        ensures no { result ≡ false → IsDynamic self.now.devices roles net → ⊥ }
    {
        if !is_free(roles, net) {
            return false;
        }
        for place in self.ending(net) {
            if self.makes_dynamic(roles, net, *place) {
                return true;
            }
        }
        false
    }

    /// Rule 1: the net is no port, and exactly one `pch`, to `vdd` and gated by a clock, and exactly one
    /// keeper, to `vdd`, end at it.
    pub fn front(&self, roles: Roles, net: u32) -> Option<Front>
        requires within { net < self.now.nets }
        requires few { first_output roles < 2 ^ 32 }
        ensures some { IfSome result (IsFrontAt self.now.devices roles net) }
        ensures none { IfNone result ((clock output : ℕ) → HasFront self.now.devices roles net clock output → ⊥) }
    {
        let Some(precharge) = self.only(net, Kind::P) else {
            return None;
        };
        let Some(keeper) = self.only(net, Kind::Keep) else {
            return None;
        };
        let (pull, hold) = (self.device(precharge), self.device(keeper));
        if !is_inner(roles, net) || !is_clock(roles, pull.gate) {
            return None;
        }
        if !joins(pull, net, VDD) || !joins(hold, net, VDD) {
            return None;
        }
        Some(Front {
            clock: pull.gate,
            output: hold.gate,
            precharge,
            keeper,
        })
    }

    /// Rule 2: the keeper's gate is no port, and an inverter output whose input is the dynamic net.
    pub fn output(&self, roles: Roles, net: u32, output: u32) -> Option<Inverter>
        requires within { output < self.now.nets }
        requires few { first_output roles < 2 ^ 32 }
        ensures some { IfSome result (IsOutputAt self.now.devices roles net output) }
        ensures none { IfNone result (HasOutput self.now.devices roles net output → ⊥) }
    {
        if !is_inner(roles, output) {
            return None;
        }
        let Some(inverter) = self.inverter(output) else {
            return None;
        };
        if inverter.input != net {
            return None;
        }
        Some(inverter)
    }
}

//! The branches of clocked inverters, and the reset of a latch.
ghost use Rattle.std.specs.Prelude.{◌≡◌, ◌<◌, ◌+◌, ◌^◌, IfNone, IfSome, false, length, true, ℕ};
ghost use Rattle.std.specs.Prelude.{Some};
ghost use Rattle.deck.specs.PortLayout.{first_output};
ghost use Rattle.audit_deck.specs.declared.branches.Branch.{Branch as BranchData};
ghost use Rattle.audit_deck.specs.declared.branches.Reset.{Reset as ResetData};
ghost use Rattle.audit_deck.specs.Latches.{HasFew, IsBranchAt, IsOnlyBranch, IsOnlyReset, IsResetAt, Suits, SuitsAt};

use crate::index::Index;
use crate::ports::{VDD, VSS, far_end, is_free, joins};
use deck::Roles;
use dom_base::Kind;

/// How many devices a latch has, so that no more end at one of its nets.
const LATCH_DEVICES: usize = 9;

/// A branch of a clocked inverter: the net inside, the input, the place of the device between the output and the
/// net inside, which a clock gates, and that of the one between the net inside and the supply.
#[derive(Clone, Copy)]
pub struct Branch {
    pub inner: u32,
    pub input: u32,
    pub clocked: u32,
    pub fed: u32,
}

/// The device that resets a latch, and its start value.
#[derive(Clone, Copy)]
pub struct Reset {
    pub place: u32,
    pub start: bool,
}

impl<'a> Index<'a> {
    /// Whether so few devices end at a net that it may be one of a latch.
    pub fn is_small(&self, net: u32) -> bool
        requires { net < self.now.nets }
        ensures { result ≡ false → HasFew self.now.devices net → ⊥ }
    {
        self.ending(net).len() <= LATCH_DEVICES
    }

    /// Whether a device has a kind and a gate, or where no gate is wanted one that is no source.
    fn suits(&self, roles: Roles, place: u32, kind: Kind, wanted: Option<u32>) -> bool
        requires within { place < length self.now.devices }
        requires few { first_output roles < 2 ^ 32 }
        ensures yes { result ≡ true → Suits self.now.devices roles kind wanted place }
        ensures no { result ≡ false → Suits self.now.devices roles kind wanted place → ⊥ }
    {
        let device = self.device(place);
        if device.kind != kind {
            return false;
        }
        match wanted {
            Some(gate) => device.gate == gate,
            None => is_free(roles, device.gate),
        }
    }

    /// The first device at a net that has a kind and a gate, or where no gate is wanted one that is no source.
    fn pick(&self, roles: Roles, net: u32, kind: Kind, wanted: Option<u32>) -> Option<u32>
        requires within { net < self.now.nets }
        requires few { first_output roles < 2 ^ 32 }
        ensures some { IfSome result (SuitsAt self.now.devices roles net kind wanted) }
        ensures none { IfNone result ((p : ℕ) → SuitsAt self.now.devices roles net kind wanted p → ⊥) }
    {
        for place in self.ending(net) {
            if self.suits(roles, *place, kind, wanted) {
                return Some(*place);
            }
        }
        None
    }

    /// A branch of a clocked inverter with this output.
    pub fn branch(
        &self,
        roles: Roles,
        net: u32,
        kind: Kind,
        clock: u32,
        supply: u32,
    ) -> Option<Branch>
        requires within { net < self.now.nets }
        requires few { first_output roles < 2 ^ 32 }
        ensures some { IfSome result (IsBranchAt self.now.devices roles net kind clock supply) }
        ensures within { IfSome result (λ b. b.input < self.now.nets) }
        ensures none { IfNone result ((b : BranchData) → IsOnlyBranch self.now.devices roles net kind clock supply b → ⊥) }
    {
        let Some(clocked) = self.pick(roles, net, kind, Some(clock)) else {
            return None;
        };
        let inner = far_end(self.device(clocked), net);
        if !self.is_small(inner) {
            return None;
        }
        let Some(fed) = self.pick(roles, inner, kind, None) else {
            return None;
        };
        let last = self.device(fed);
        if !joins(last, inner, supply) {
            return None;
        }
        Some(Branch {
            inner,
            input: last.gate,
            clocked,
            fed,
        })
    }

    /// The device that resets a latch with this output.
    pub fn reset(&self, roles: Roles, net: u32) -> Option<Reset>
        requires within { net < self.now.nets }
        requires few { first_output roles < 2 ^ 32 }
        ensures some { IfSome result (IsResetAt self.now.devices roles net) }
        ensures none { IfNone result ((r : ResetData) → IsOnlyReset self.now.devices roles net r → ⊥) }
    {
        let low = roles.reset_pair();
        if let Some(place) = self.pick(roles, net, Kind::N, Some(low)) {
            if !joins(self.device(place), net, VSS) {
                return None;
            }
            return Some(Reset {
                place,
                start: false,
            });
        }
        let Some(place) = self.pick(roles, net, Kind::P, Some(low + 1)) else {
            return None;
        };
        if !joins(self.device(place), net, VDD) {
            return None;
        }
        Some(Reset { place, start: true })
    }
}

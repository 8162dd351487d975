//! Sorts of paths.
ghost use Rattle.std.specs.Prelude.{◌↔◌, ◌≡◌, ◌≢◌, IsTrue, false, length, true};
ghost use Rattle.dom_base.specs.Conduction.{conduction};
ghost use Rattle.dom_base.specs.declared.kind.Kind.TheVariants.{Keep};
ghost use Rattle.dom_base.specs.declared.tri.Tri.TheVariants.{Unknown, Zero};
ghost use Rattle.deck.specs.Switches.{value_of};
ghost use Rattle.switch_model.specs.LinksData.{is_first};
ghost use Rattle.deck.specs.Nets.{IsInRange};
ghost use Rattle.switch_model.specs.Walks.{IsJoint, PassesSort};

use crate::components::joins_nets;
use crate::{Switch, conducts};
use deck::Device;
use dom_base::{Kind, Tri};

/// Definite paths go through devices that are on, possible ones through devices that aren't off;
/// strong paths go through no keeper.
#[derive(Clone, Copy, Debug, PartialEq, Eq)]
pub struct Sort {
    pub definite: bool,
    pub keepers: bool,
}

/// All paths that may be there.
pub const POSSIBLE: Sort = Sort {
    definite: false,
    keepers: true,
};

impl Sort {
    /// Whether such paths go through a device.
    pub fn passes(self, device: Device, values: &[Tri]) -> bool
        requires { IsInRange (length values.now) device }
        ensures { IsTrue result ↔ PassesSort self values.now device }
    {
        if !self.keepers && device.kind == Kind::Keep {
            return false;
        }
        let switch = conducts(device.kind, values[device.gate as usize]);
        if self.definite {
            switch == Switch::On
        } else {
            switch != Switch::Off
        }
    }
}

/// Whether such paths go through a device from a net that is no source to another.
pub fn is_joint(sort: Sort, device: Device, sources: u32, values: &[Tri]) -> bool
    requires { IsInRange (length values.now) device }
    ensures { IsTrue result ↔ IsJoint (PassesSort sort values.now) (is_first sources) device }
{
    device.drain >= sources && device.source >= sources && sort.passes(device, values)
}

/// Whether all devices were plain and one more is: it is on or off, and where it joins two nets and
/// is not off it is no keeper.
pub fn is_plain_too(plain: bool, device: Device, sources: u32, values: &[Tri]) -> bool
    requires { IsInRange (length values.now) device }
    ensures before { result ≡ true → plain ≡ true }
    ensures known { result ≡ true → conduction device.kind (value_of values.now device.gate) ≢ Unknown }
    ensures apart { result ≡ true → device.kind ≡ Keep → conduction device.kind (value_of values.now device.gate) ≢ Zero
        → is_first sources device.drain ≡ false → is_first sources device.source ≢ false }
{
    let switch = conducts(device.kind, values[device.gate as usize]);
    let joining = device.kind == Kind::Keep && joins_nets(device, sources);
    plain && switch != Switch::Maybe && !(joining && switch != Switch::Off)
}

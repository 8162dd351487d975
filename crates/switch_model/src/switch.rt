//! Devices as switches.
ghost use Rattle.std.specs.Prelude.{◌≡◌};
ghost use Rattle.dom_base.specs.Conduction.{conduction};
ghost use Rattle.switch_model.specs.Switch.{switch_of};

use dom_base::{Kind, Tri};

/// Whether a device conducts.
#[derive(Clone, Copy, Debug, PartialEq, Eq)]
pub enum Switch {
    On,
    Off,
    Maybe,
}

/// Whether a device of this kind conducts at a value of its gate. `nch` is on at `One` and off at
/// `Zero`; `pch` and `pkeep` are on at `Zero` and off at `One`; each may be on at `Unknown`. Takes no
/// memory.
pub fn conducts(kind: Kind, gate: Tri) -> Switch
    ensures { result ≡ switch_of (conduction kind gate) }
{
    let level = match kind {
        Kind::N => gate,
        Kind::P | Kind::Keep => gate.not(),
    };
    match level {
        Tri::One => Switch::On,
        Tri::Zero => Switch::Off,
        Tri::Unknown => Switch::Maybe,
    }
}

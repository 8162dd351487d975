//! What a net is by its number, and what a device is at a net.
ghost use Rattle.std.specs.Prelude.{◌≡◌, ◌<◌, ◌^◌, false, true};
ghost use Rattle.audit_deck.specs.Indexes.{HasEnd};
ghost use Rattle.deck.specs.Paths.{Ends};
ghost use Rattle.deck.specs.PortLayout.{first_output};
ghost use Rattle.deck_audit.specs.Words.{IsControl, IsFree, IsInner, IsOutPort, IsPin};
ghost use Rattle.port_runs.specs.Periods.{IsClockPort};

use deck::{Device, Roles};

/// The port `vdd`.
pub const VDD: u32 = 0;

/// The port `vss`.
pub const VSS: u32 = 1;

/// Whether a net is no source.
pub fn is_free(roles: Roles, net: u32) -> bool
    requires { first_output roles < 2 ^ 32 }
    ensures yes { result ≡ true → IsFree roles net }
    ensures no { result ≡ false → IsFree roles net → ⊥ }
{
    roles.first_output() <= net
}

/// Whether a net is no port.
pub fn is_inner(roles: Roles, net: u32) -> bool
    requires { first_output roles < 2 ^ 32 }
    ensures yes { result ≡ true → IsInner roles net }
    ensures no { result ≡ false → IsInner roles net → ⊥ }
{
    let outputs = roles.first_output();
    outputs <= net && roles.outs <= net - outputs
}

/// Whether a net is an output port.
pub fn is_out_port(roles: Roles, net: u32) -> bool
    requires { first_output roles < 2 ^ 32 }
    ensures yes { result ≡ true → IsOutPort roles net }
    ensures no { result ≡ false → IsOutPort roles net → ⊥ }
{
    let outputs = roles.first_output();
    outputs <= net && net - outputs < roles.outs
}

/// Whether a net is a pin.
pub fn is_pin(roles: Roles, net: u32) -> bool
    requires { first_output roles < 2 ^ 32 }
    ensures yes { result ≡ true → IsPin roles net }
    ensures no { result ≡ false → IsPin roles net → ⊥ }
{
    roles.first_pin() <= net && net < roles.first_output()
}

/// Whether a net is a port that clocks or resets latches.
pub fn is_control(roles: Roles, net: u32) -> bool
    ensures yes { result ≡ true → IsControl roles net }
    ensures no { result ≡ false → IsControl roles net → ⊥ }
{
    roles.master_pair() <= net && net < roles.first_pin()
}

/// Whether a net is a clock.
pub fn is_clock(roles: Roles, net: u32) -> bool
    ensures yes { result ≡ true → IsClockPort roles net }
    ensures no { result ≡ false → IsClockPort roles net → ⊥ }
{
    roles.first_clock() <= net && net < roles.master_pair()
}

/// Whether a device ends at a net.
pub fn ends_at(device: Device, net: u32) -> bool
    ensures yes { result ≡ true → HasEnd device net }
    ensures no { result ≡ false → HasEnd device net → ⊥ }
{
    device.drain == net || device.source == net
}

/// Whether these two nets are the ends of a device.
pub fn joins(device: Device, a: u32, b: u32) -> bool
    ensures yes { result ≡ true → Ends device a b }
    ensures no { result ≡ false → Ends device a b → ⊥ }
{
    (device.drain == a && device.source == b) || (device.source == a && device.drain == b)
}

/// The end of a device other than this one.
pub fn far_end(device: Device, net: u32) -> u32
    requires { HasEnd device net }
    ensures { Ends device net result }
{
    if device.drain == net {
        device.source
    } else {
        device.drain
    }
}

//! The order of ports.
ghost use Rattle.std.specs.Prelude.{◌≡◌, ◌≢◌, ◌+◌, ◌^◌, ◌<◌, ◌≤◌, ℕ, [], All, MatchResult, false, length, nat_eq, slice_index_or, take, true};
ghost use Rattle.std.specs.List.{starts_with};
ghost use Rattle.deck.specs.Limits.{most_clocks, unclocked_count};
ghost use Rattle.deck.specs.Ports.{leading_ports};
ghost use Rattle.deck.specs.Roles.{AreRoles, HasLeading, LeavesRolesAt, RolesAreOne, ports_of};

use crate::limits::{MOST_CLOCKS, UNCLOCKED_COUNT};
use crate::ports::leading_port;
use crate::{Circuit, PortFault, Roles};
use dom_base::NetName;

/// What the ports of a circuit are for: `vdd`, `vss`, the clocks `ck1` to `ckP` with P from 1 to 4,
/// `lm`, `lmb`, `ls`, `lsb`, `rs`, `rsb`, then the pins, whose names begin with `i_`, and then the
/// outputs, whose names begin with `o_`. The fault is the first port at which the ports leave every
/// such order, or the number of ports where they end before `rsb`. Takes no memory.
pub fn roles(circuit: &Circuit) -> Result<Roles, PortFault>
    ensures roles { MatchResult result (λ roles. AreRoles (ports_of circuit.now) roles)
        (λ fault. LeavesRolesAt (ports_of circuit.now) fault.place) }
{
    let nets = circuit.nets.as_slice();
    roles_of(&nets[..circuit.ports as usize])
}

/// Ports have at most one count of clocks, pins and outputs, or leave every order of roles at one
/// port.
pub fn roles_are_one()
    ensures { RolesAreOne }
{}

fn roles_of(ports: &[NetName]) -> Result<Roles, PortFault>
    requires { length ports.now < 2 ^ 32 }
    ensures { MatchResult result (λ roles. AreRoles ports.now roles) (λ fault. LeavesRolesAt ports.now fault.place) }
{
    let clocks = count_clocks(ports)?;
    let names = &ports[(clocks + UNCLOCKED_COUNT) as usize..];
    let pins = count_beginning(names, b"i_");
    let outs = count_beginning(&names[pins..], b"o_");
    if pins + outs < names.len() {
        return Err(PortFault {
            place: (clocks + UNCLOCKED_COUNT) as u32 + (pins + outs) as u32,
        });
    }
    Ok(Roles {
        clocks,
        pins: pins as u32,
        outs: outs as u32,
    })
}

/// The number of clocks with which the ports begin with the leading ports, else the port at which
/// they leave these.
fn count_clocks(ports: &[NetName]) -> Result<u8, PortFault>
    ensures { MatchResult result (λ clocks. HasLeading ports.now clocks) (λ fault. LeavesRolesAt ports.now fault.place) }
{
    let mut farthest = 0;
    for clocks in 1..MOST_CLOCKS + 1 {
        let count = count_leading(ports, clocks);
        if count == clocks + UNCLOCKED_COUNT {
            return Ok(clocks);
        }
        farthest = farthest.max(count);
    }
    Err(PortFault {
        place: farthest as u32,
    })
}

/// How many ports are the leading ports with so many clocks, before the first that is not.
fn count_leading(ports: &[NetName], clocks: u8) -> u8
    requires { clocks ≤ most_clocks }
    ensures few { result ≤ clocks + unclocked_count }
    ensures within { result ≤ length ports.now }
    ensures agrees { (k : ℕ) → k < result → slice_index_or ports.now k [] ≡ slice_index_or (leading_ports clocks) k [] }
    ensures differs { result < clocks + unclocked_count → result < length ports.now
        → slice_index_or ports.now result [] ≢ slice_index_or (leading_ports clocks) result [] }
{
    for port in 0..clocks + UNCLOCKED_COUNT {
        if !has_name(ports, port, leading_port(clocks, port)) {
            return port;
        }
    }
    clocks + UNCLOCKED_COUNT
}

/// Whether the port of this number, from 0, is there and has this name.
fn has_name(ports: &[NetName], port: u8, name: &[u8]) -> bool
    ensures yes { result ≡ true → port < length ports.now }
    ensures same { result ≡ true → slice_index_or ports.now port [] ≡ name.now }
    ensures no { result ≡ false → port < length ports.now → slice_index_or ports.now port [] ≢ name.now }
{
    (port as usize) < ports.len() && ports[port as usize].as_bytes() == name
}

/// How many names begin with this, before the first that does not.
fn count_beginning(names: &[NetName], front: &[u8]) -> usize
    ensures within { result ≤ length names.now }
    ensures each { All (λ name. starts_with nat_eq name front.now ≡ true) (take result names.now) }
    ensures longest { result < length names.now → starts_with nat_eq (slice_index_or names.now result []) front.now ≡ false }
{
    for (index, name) in names.iter().enumerate() {
        if !name.as_bytes().starts_with(front) {
            return index;
        }
    }
    names.len()
}

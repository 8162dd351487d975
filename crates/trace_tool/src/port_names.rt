//! The ports of a deck beside those of a network.
ghost use Rattle.std.specs.Prelude.{◌≡◌, ◌<◌, ◌≤◌, ◌+◌, ◌++◌, ◌^◌, [], IfOk, IfSome, MatchOption, drop, length, slice_index_or};
ghost use Rattle.deck.specs.Escapes.{escaped};
ghost use Rattle.deck.specs.Roles.{AreRoles, ports_of};
ghost use Rattle.trace_tool.specs.PortDifferences.{ComparesPorts};
ghost use Rattle.trace_tool.specs.Verdicts.{DifferFirstAt, network_ports};

use deck::{Circuit, Roles, esc};
use dom_base::{Name, NameBytes, NetName, OutOfMemory, append_to_name};
use net_flatten::Network;
use network::ListPool;
use std::alloc::Global;

/// The first place, from 0 over all ports of a circuit, at which its ports from the first pin on aren't
/// the network's inputs and then outputs, by their escaped names, or one of the two has ended.
pub fn different_port(
    alloc: Global,
    network: &Network,
    circuit: &Circuit,
    roles: Roles,
) -> Result<Option<u32>, OutOfMemory>
    requires { AreRoles (ports_of circuit.now) roles }
    ensures { IfOk result (ComparesPorts network.now circuit.now roles) }
{
    let wanted = port_names(alloc, network)?;
    let first = roles.first_pin();
    match first_difference(&wanted, ports_from(circuit, first as usize)) {
        Some(index) => Ok(Some(first + index as u32)),
        None => Ok(None),
    }
}

/// The names of the ports of a circuit from one on.
fn ports_from(circuit: &Circuit, first: usize) -> &[NetName]
    requires { first ≤ length (ports_of circuit.now) }
    ensures ports { result.now ≡ drop first (ports_of circuit.now) }
    ensures few { first + length result.now < 2 ^ 32 }
{
    let ports = &circuit.nets.as_slice()[..circuit.ports as usize];
    &ports[first..]
}

/// The names of the ports of a network's deck from the first pin on.
fn port_names(alloc: Global, network: &Network) -> Result<Vec<Name>, OutOfMemory>
    ensures { IfOk result (λ names. names.items ≡ network_ports network.now) }
{
    let mut ports = Vec::new(alloc);
    for input in 0..network.inputs {
        ports.push(port_of(alloc, b"i_", &network.names, input)?)?;
    }
    for signal in &network.outputs {
        ports.push(port_of(alloc, b"o_", &network.names, *signal)?)?;
    }
    Ok(ports)
}

/// The name of the port of a signal: the letters of its kind, and the signal's escaped name.
fn port_of(
    alloc: Global,
    front: &[u8],
    names: &ListPool<u8>,
    signal: u32,
) -> Result<Name, OutOfMemory>
    requires { signal < length names.now }
    ensures { IfOk result (λ port. port ≡ front.now ++ escaped (slice_index_or names.now signal [])) }
{
    port_name(alloc, front, names.list(signal as usize))
}

/// The name of a port: the letters of its kind, and the escaped name of its signal.
fn port_name(alloc: Global, front: &[u8], name: &[u8]) -> Result<Name, OutOfMemory>
    ensures { IfOk result (λ port. port ≡ front.now ++ escaped name.now) }
{
    let mut port = NameBytes::new(alloc);
    append_to_name(&mut port, front)?;
    append_to_name(&mut port, &esc(alloc, name)?)?;
    Ok(Name(port))
}

/// The first index at which two lists of names differ, or one of them has ended.
fn first_difference(wanted: &[Name], found: &[NetName]) -> Option<usize>
    ensures first { MatchOption result (found.now ≡ wanted.now) (DifferFirstAt wanted.now found.now) }
    ensures within { IfSome result (λ index. index ≤ length found.now) }
{
    let both = wanted.len().min(found.len());
    for index in 0..both {
        if wanted[index].as_bytes() != found[index].as_bytes() {
            return Some(index);
        }
    }
    if wanted.len() == found.len() {
        None
    } else {
        Some(both)
    }
}

//! Names of the nets of a deck.
ghost use Rattle.std.specs.Prelude.{◌≡◌, ◌≤◌, ◌<◌, ◌+◌, ◌*◌, ◌^◌, ◌++◌, All, IfOk, codes, length, map};
ghost use Rattle.std.specs.List.{range_with_len};
ghost use Rattle.dom_base.specs.Names.{IsNetByte};
ghost use Rattle.deck.specs.Escapes.{escaped};
ghost use Rattle.deck.specs.PortNames.{IsByteName};
ghost use Rattle.deck_form.specs.DeckNets.{complement_net, named_gate, own_net};
ghost use Rattle.synth_flow.specs.MadeDecks.{port_net};

use deck::{copied, esc, numbered_name};
use dom_base::{NameBytes, NetName, OutOfMemory, append_to_name};
use network::ListPool;
use std::alloc::Global;

/// A net with the name of a signal: a front, and the escaped name.
#[tactic(auto, using(deck::proofs::EscapedNames::escaped_names))]
pub fn escaped_name(alloc: Global, front: &[u8], name: &[u8]) -> Result<NetName, OutOfMemory>
    requires front { All IsNetByte front.now }
    requires name { IsByteName name.now }
    ensures { IfOk result (λ net. net ≡ front.now ++ escaped name.now) }
{
    let mut bytes = NameBytes::new(alloc);
    append_to_name(&mut bytes, front)?;
    append_to_name(&mut bytes, esc(alloc, name)?.as_slice())?;
    Ok(NetName(bytes))
}

/// The net of a signal that is a port: a front, and the escaped name of the signal.
fn port_name(
    alloc: Global,
    front: &[u8],
    names: &ListPool<u8>,
    signal: u32,
) -> Result<NetName, OutOfMemory>
    requires front { All IsNetByte front.now }
    requires within { signal < length names.now }
    requires names { All IsByteName names.now }
    ensures { IfOk result (λ net. net ≡ port_net front.now names.now signal) }
{
    escaped_name(alloc, front, names.list(signal as usize))
}

/// The nets of the first signals, so many, which are inputs.
pub fn pin_names(
    alloc: Global,
    names: &ListPool<u8>,
    inputs: u32,
) -> Result<Vec<NetName>, OutOfMemory>
    requires within { inputs ≤ length names.now }
    requires names { All IsByteName names.now }
    ensures { IfOk result (λ pins. pins.items ≡ map (port_net (codes "i_") names.now) (range_with_len 0 inputs)) }
{
    let mut pins = Vec::with_capacity(alloc, inputs as usize)?;
    'pins: for signal in 0..inputs {
        pins.push(port_name(alloc, b"i_", names, signal)?)?;
    }
    Ok(pins)
}

/// The nets of the signals that are outputs.
pub fn out_names(
    alloc: Global,
    names: &ListPool<u8>,
    outputs: &[u32],
) -> Result<Vec<NetName>, OutOfMemory>
    requires within { All (λ signal. signal < length names.now) outputs.now }
    requires names { All IsByteName names.now }
    ensures { IfOk result (λ outs. outs.items ≡ map (port_net (codes "o_") names.now) outputs.now) }
{
    let mut outs = Vec::with_capacity(alloc, outputs.len())?;
    'outs: for signal in outputs {
        outs.push(port_name(alloc, b"o_", names, *signal)?)?;
    }
    Ok(outs)
}

/// Copies of names.
pub fn copied_names(alloc: Global, names: &[NetName]) -> Result<Vec<NetName>, OutOfMemory>
    ensures { IfOk result (λ copies. copies.items ≡ names.now) }
{
    let mut copies = Vec::with_capacity(alloc, names.len())?;
    'names: for name in names {
        copies.push(copied(name)?)?;
    }
    Ok(copies)
}

/// The own net of a leaf: a pin, or the output of a latch.
pub fn own_name(alloc: Global, pins: &[NetName], leaf: u32) -> Result<NetName, OutOfMemory>
    ensures { IfOk result (λ name. name ≡ own_net pins.now leaf) }
{
    if (leaf as usize) < pins.len() {
        copied(&pins[leaf as usize])
    } else {
        numbered_name(alloc, b"q", leaf - pins.len() as u32)
    }
}

/// The net of the opposite of a leaf.
pub fn complement_name(alloc: Global, leaf: u32) -> Result<NetName, OutOfMemory>
    ensures { IfOk result (λ name. name ≡ complement_net leaf) }
{
    numbered_name(alloc, b"c", leaf)
}

/// The net of a gate, of so many leaves: two rails for each, then the outputs of cells.
fn gate_name(
    alloc: Global,
    pins: &[NetName],
    leaves: u32,
    gate: u32,
) -> Result<NetName, OutOfMemory>
    requires { 2 * leaves < 2 ^ 32 }
    ensures { IfOk result (λ name. name ≡ named_gate pins.now leaves gate) }
{
    let rails = 2 * leaves;
    if gate >= rails {
        numbered_name(alloc, b"z", gate - rails)
    } else if gate % 2 == 0 {
        own_name(alloc, pins, gate / 2)
    } else {
        complement_name(alloc, gate / 2)
    }
}

/// The nets of the first gates, so many.
pub fn gate_names(
    alloc: Global,
    pins: &[NetName],
    leaves: u32,
    gates: u32,
) -> Result<Vec<NetName>, OutOfMemory>
    requires { 2 * leaves < 2 ^ 32 }
    ensures { IfOk result (λ names. names.items ≡ map (named_gate pins.now leaves) (range_with_len 0 gates)) }
{
    let mut names = Vec::with_capacity(alloc, gates as usize)?;
    'gates: for gate in 0..gates {
        names.push(gate_name(alloc, pins, leaves, gate)?)?;
    }
    Ok(names)
}

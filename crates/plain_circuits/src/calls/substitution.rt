//! The devices of a text by substitution: those of each subcircuit in turn, where a call stands for the devices of
//! what it calls with other names of nets.
use crate::calls::names::NamedDevice;
use crate::calls::subckts::{CallCard, Subckt, subckt_called};
use dom_base::OutOfMemory;
use std::alloc::Global;

/// The name that a net of a subcircuit has where it is called: that of the net which is handed to a port, or the
/// name of the call, a dot and its own.
fn outer_name(
    alloc: Global,
    subckt: &Subckt,
    call: &[u8],
    nets: &[Vec<u8>],
    name: &[u8],
) -> Result<Vec<u8>, OutOfMemory> {
    if let Some(net) = subckt.port(name).and_then(|port| nets.get(port)) {
        return Ok(net.to_vec(alloc)?);
    }
    let mut own = call.to_vec(alloc)?;
    own.push(b'.')?;
    own.extend_from_slice(name)?;
    Ok(own)
}

/// Appends the devices of a subcircuit as they are where it is called.
fn append_called(
    alloc: Global,
    subckt: &Subckt,
    devices: &[NamedDevice],
    call: &[u8],
    nets: &[Vec<u8>],
    all: &mut Vec<NamedDevice>,
) -> Result<(), OutOfMemory> {
    for device in devices {
        all.push(NamedDevice {
            kind: device.kind,
            drain: outer_name(alloc, subckt, call, nets, &device.drain)?,
            gate: outer_name(alloc, subckt, call, nets, &device.gate)?,
            source: outer_name(alloc, subckt, call, nets, &device.source)?,
        })?;
    }
    Ok(())
}

fn name_at(alloc: Global, nets: &[Vec<u8>], index: usize) -> Result<Vec<u8>, OutOfMemory> {
    Ok(
        nets.get(index)
            .map_or(b"".as_slice(), |net| net.as_slice())
            .to_vec(alloc)?,
    )
}

/// The devices of a card, of those of the subcircuits before.
fn append_card(
    alloc: Global,
    subckts: &[Subckt],
    before: &[Vec<NamedDevice>],
    card: &CallCard,
    all: &mut Vec<NamedDevice>,
) -> Result<(), OutOfMemory> {
    match card {
        CallCard::Device(kind, nets) => all.push(NamedDevice {
            kind: *kind,
            drain: name_at(alloc, nets, 0)?,
            gate: name_at(alloc, nets, 1)?,
            source: name_at(alloc, nets, 2)?,
        })?,
        CallCard::Call(name, nets, called) => {
            if let Some(number) = subckt_called(subckts, called) {
                if let (Some(subckt), Some(devices)) = (subckts.get(number), before.get(number)) {
                    append_called(alloc, subckt, devices, name, nets, all)?;
                }
            }
        }
    }
    Ok(())
}

/// The devices of the last subcircuit, each of which calls earlier ones alone.
pub fn by_substitution(alloc: Global, subckts: &[Subckt]) -> Result<Vec<NamedDevice>, OutOfMemory> {
    let mut all: Vec<Vec<NamedDevice>> = Vec::new(alloc);
    for subckt in subckts {
        let mut devices = Vec::new(alloc);
        for card in subckt.cards.iter() {
            append_card(alloc, subckts, &all, card, &mut devices)?;
        }
        all.push(devices)?;
    }
    match all.pop() {
        Some(devices) => Ok(devices),
        None => Ok(Vec::new(alloc)),
    }
}

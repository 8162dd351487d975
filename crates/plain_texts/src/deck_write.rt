//! What is written of a deck.
use crate::deck_read::PlainDeck;
use crate::ports::{PlainRoles, find_roles};
use dom_base::{Kind, OutOfMemory};
use itoa::Buffer;
use std::alloc::Global;

fn append_word(text: &mut Vec<u8>, word: &[u8]) -> Result<(), OutOfMemory> {
    text.push(b' ')?;
    text.extend_from_slice(word)?;
    Ok(())
}

/// Appends lines that begin with `+`, each with at most eight of these names.
fn append_names(text: &mut Vec<u8>, names: &[Vec<u8>]) -> Result<(), OutOfMemory> {
    for (index, name) in names.iter().enumerate() {
        if index % 8 == 0 {
            text.extend_from_slice(if index == 0 { b"+".as_slice() } else { b"\n+" })?;
        }
        append_word(text, name)?;
    }
    if !names.is_empty() {
        text.push(b'\n')?;
    }
    Ok(())
}

/// Appends the card of the subcircuit with its ports.
fn append_subckt(alloc: Global, text: &mut Vec<u8>, deck: &PlainDeck) -> Result<(), OutOfMemory> {
    let ports = deck.nets.get(..deck.ports).unwrap_or(&[]);
    let (leading, pins) = match find_roles(alloc, ports)? {
        PlainRoles::Roles(clocks, pins, _) => (clocks.saturating_add(8), pins),
        PlainRoles::Fault(_) => (0, ports.len()),
    };
    let behind = ports.get(leading..).unwrap_or(&[]);
    text.extend_from_slice(b".subckt")?;
    append_word(text, &deck.name)?;
    for port in ports.iter().take(leading) {
        append_word(text, port)?;
    }
    text.push(b'\n')?;
    append_names(text, behind.get(..pins).unwrap_or(&[]))?;
    append_names(text, behind.get(pins..).unwrap_or(&[]))
}

/// Appends the card of a device, with its number from 0.
fn append_device(
    text: &mut Vec<u8>,
    deck: &PlainDeck,
    number: usize,
    kind: Kind,
    nets: [usize; 3],
) -> Result<(), OutOfMemory> {
    text.push(b'm')?;
    text.extend_from_slice(Buffer::new().format(number).as_bytes())?;
    for net in nets {
        append_word(
            text,
            deck.nets
                .get(net)
                .map_or(b"".as_slice(), |name| name.as_slice()),
        )?;
    }
    text.extend_from_slice(match kind {
        Kind::N => b" vss nch\n".as_slice(),
        Kind::P => b" vdd pch\n",
        Kind::Keep => b" vdd pkeep\n",
    })?;
    Ok(())
}

/// Writes a deck.
pub fn write_deck(alloc: Global, deck: &PlainDeck) -> Result<Vec<u8>, OutOfMemory> {
    let mut text = Vec::from_slice(alloc, b"* domsyn deck 1\n")?;
    for phase in deck.phases.iter() {
        text.extend_from_slice(b"* phase")?;
        append_word(&mut text, &phase.0)?;
        text.extend_from_slice(if phase.1 { b" +\n" } else { b" -\n" })?;
    }
    append_subckt(alloc, &mut text, deck)?;
    for (number, device) in deck.devices.iter().enumerate() {
        let nets = [device.drain, device.gate, device.source];
        append_device(&mut text, deck, number, device.kind, nets)?;
    }
    text.extend_from_slice(b".ends")?;
    append_word(&mut text, &deck.name)?;
    text.push(b'\n')?;
    Ok(text)
}

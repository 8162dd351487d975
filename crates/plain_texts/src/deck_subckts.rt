//! The subcircuits of a deck, each with all the devices that it stands for.
use crate::cut::{begins_with, has_word};
use dom_base::{Kind, OutOfMemory};
use std::alloc::Global;
use std::mem;

/// A card, with the number of its first line, from 1.
#[derive(Drop)]
pub struct Card {
    pub number: u64,
    pub words: Vec<Vec<u8>>,
}

/// A device by the names of its nets.
#[derive(Drop)]
pub struct NamedDevice {
    pub kind: Kind,
    pub drain: Vec<u8>,
    pub gate: Vec<u8>,
    pub source: Vec<u8>,
}

/// A subcircuit: its name, its ports, the devices that it stands for, and its depth.
#[derive(Drop)]
pub struct PlainSubckt {
    pub name: Vec<u8>,
    pub ports: Vec<Vec<u8>>,
    pub devices: Vec<NamedDevice>,
    pub depth: usize,
}

/// The subcircuits that some cards close, and the one that they leave open.
#[derive(Drop)]
pub struct PlainSubckts {
    pub closed: Vec<PlainSubckt>,
    pub open: PlainSubckt,
}

pub fn is_subckt(card: &Card) -> bool {
    has_word(&card.words, 0, ".subckt")
}

pub fn is_ends(card: &Card) -> bool {
    has_word(&card.words, 0, ".ends")
}

pub fn is_device(card: &Card) -> bool {
    begins_with(&card.words, b'm')
}

pub fn is_call(card: &Card) -> bool {
    begins_with(&card.words, b'x')
}

pub fn ports_of(card: &Card) -> &[Vec<u8>] {
    card.words.get(2..).unwrap_or(&[])
}

/// The nets that a call passes.
pub fn passed_by(card: &Card) -> &[Vec<u8>] {
    let last = card.words.len().saturating_sub(1);
    card.words.get(1..last).unwrap_or(&[])
}

fn word(card: &Card, index: usize) -> &[u8] {
    match card.words.get(index) {
        Some(word) => word.as_slice(),
        None => &[],
    }
}

/// The subcircuit of this name among these.
pub fn named<'a>(closed: &'a [PlainSubckt], name: &[u8]) -> Option<&'a PlainSubckt> {
    closed.iter().find(|subckt| subckt.name.as_slice() == name)
}

/// The subcircuit that a call names.
pub fn called<'a>(closed: &'a [PlainSubckt], card: &Card) -> Option<&'a PlainSubckt> {
    named(closed, word(card, card.words.len().saturating_sub(1)))
}

pub fn index_in(names: &[Vec<u8>], name: &[u8]) -> Option<usize> {
    names.iter().position(|other| other.as_slice() == name)
}

fn kind_of(card: &Card) -> Kind {
    if has_word(&card.words, 5, "nch") {
        Kind::N
    } else if has_word(&card.words, 5, "pch") {
        Kind::P
    } else {
        Kind::Keep
    }
}

fn nothing(alloc: Global) -> PlainSubckt {
    PlainSubckt {
        name: Vec::new(alloc),
        ports: Vec::new(alloc),
        devices: Vec::new(alloc),
        depth: 0,
    }
}

fn opened(alloc: Global, card: &Card) -> Result<PlainSubckt, OutOfMemory> {
    let mut subckt = nothing(alloc);
    subckt.name.extend_from_slice(word(card, 1))?;
    for port in ports_of(card) {
        subckt.ports.push(port.to_vec(alloc)?)?;
    }
    Ok(subckt)
}

fn device_of(alloc: Global, card: &Card) -> Result<NamedDevice, OutOfMemory> {
    Ok(NamedDevice {
        kind: kind_of(card),
        drain: word(card, 1).to_vec(alloc)?,
        gate: word(card, 2).to_vec(alloc)?,
        source: word(card, 3).to_vec(alloc)?,
    })
}

/// The net that stands for a net of a called subcircuit.
fn outer_net(
    alloc: Global,
    card: &Card,
    called: &PlainSubckt,
    net: &[u8],
) -> Result<Vec<u8>, OutOfMemory> {
    if let Some(index) = index_in(&called.ports, net) {
        if let Some(passed) = passed_by(card).get(index) {
            return Ok(passed.to_vec(alloc)?);
        }
    }
    let mut name = word(card, 0).to_vec(alloc)?;
    name.push(b'.')?;
    name.extend_from_slice(net)?;
    Ok(name)
}

/// Adds what a call stands for.
fn add_call(
    alloc: Global,
    open: &mut PlainSubckt,
    card: &Card,
    called: &PlainSubckt,
) -> Result<(), OutOfMemory> {
    open.depth = open.depth.max(called.depth.saturating_add(1));
    for device in called.devices.iter() {
        open.devices.push(NamedDevice {
            kind: device.kind,
            drain: outer_net(alloc, card, called, &device.drain)?,
            gate: outer_net(alloc, card, called, &device.gate)?,
            source: outer_net(alloc, card, called, &device.source)?,
        })?;
    }
    Ok(())
}

/// What these cards say.
pub fn subckts_of(alloc: Global, cards: &[Card]) -> Result<PlainSubckts, OutOfMemory> {
    let mut all = PlainSubckts {
        closed: Vec::new(alloc),
        open: nothing(alloc),
    };
    for card in cards {
        if is_subckt(card) {
            all.open = opened(alloc, card)?;
        } else if is_ends(card) {
            let open = mem::replace(&mut all.open, nothing(alloc));
            all.closed.push(open)?;
        } else if is_device(card) {
            all.open.devices.push(device_of(alloc, card)?)?;
        } else if is_call(card) {
            if let Some(subckt) = called(&all.closed, card) {
                add_call(alloc, &mut all.open, card, subckt)?;
            }
        }
    }
    Ok(all)
}

//! The text of a deck by its groups of devices: a subcircuit for each shape, and a call for each group.
use dom_base::{Kind, OutOfMemory};
use itoa::Buffer;
use plain_texts::{PlainDeck, PlainDevice};
use std::alloc::Global;

fn append_number(text: &mut Vec<u8>, number: usize) -> Result<(), OutOfMemory> {
    text.extend_from_slice(Buffer::new().format(number).as_bytes())?;
    Ok(())
}

fn append_word(text: &mut Vec<u8>, word: &[u8]) -> Result<(), OutOfMemory> {
    text.push(b' ')?;
    text.extend_from_slice(word)?;
    Ok(())
}

/// A group of devices: the text of its shape's cards, and its nets other than the supplies.
#[derive(Drop)]
struct Group {
    shape: Vec<u8>,
    nets: Vec<usize>,
}

/// The name of a net in the shape of a group: a supply, or `p` and its place among the nets.
fn append_local(text: &mut Vec<u8>, nets: &mut Vec<usize>, net: usize) -> Result<(), OutOfMemory> {
    if net == 0 {
        return append_word(text, b"vdd");
    }
    if net == 1 {
        return append_word(text, b"vss");
    }
    let place = match nets.iter().position(|other| *other == net) {
        Some(place) => place,
        None => {
            nets.push(net)?;
            nets.len().saturating_sub(1)
        }
    };
    text.extend_from_slice(b" p")?;
    append_number(text, place)
}

fn group_of(
    alloc: Global,
    devices: &[PlainDevice],
    start: usize,
    end: usize,
) -> Result<Group, OutOfMemory> {
    let mut shape = Vec::new(alloc);
    let mut nets = Vec::new(alloc);
    let own = devices.get(start..end).unwrap_or(&[]);
    for (number, device) in own.iter().enumerate() {
        shape.push(b'm')?;
        append_number(&mut shape, number)?;
        for net in [device.drain, device.gate, device.source] {
            append_local(&mut shape, &mut nets, net)?;
        }
        shape.extend_from_slice(match device.kind {
            Kind::N => b" vss nch\n".as_slice(),
            Kind::P => b" vdd pch\n",
            Kind::Keep => b" vdd pkeep\n",
        })?;
    }
    Ok(Group { shape, nets })
}

/// The groups of a deck, and the number of the first group of the shape of each.
fn groups_of(
    alloc: Global,
    deck: &PlainDeck,
    ends: &[usize],
) -> Result<Vec<(Group, usize)>, OutOfMemory> {
    let mut groups: Vec<(Group, usize)> = Vec::new(alloc);
    let mut shapes = 0usize;
    let mut start = 0usize;
    for end in ends {
        let group = group_of(alloc, &deck.devices, start, *end)?;
        let known = groups
            .iter()
            .find(|other| other.0.shape.as_slice() == group.shape.as_slice());
        let number = match known {
            Some(other) => other.1,
            None => {
                let number = shapes;
                shapes = shapes.saturating_add(1);
                number
            }
        };
        groups.push((group, number))?;
        start = *end;
    }
    Ok(groups)
}

fn append_shape(text: &mut Vec<u8>, group: &Group, number: usize) -> Result<(), OutOfMemory> {
    text.extend_from_slice(b".subckt cell-")?;
    append_number(text, number)?;
    text.extend_from_slice(b" vdd vss")?;
    for place in 0..group.nets.len() {
        text.extend_from_slice(b" p")?;
        append_number(text, place)?;
    }
    text.push(b'\n')?;
    text.extend_from_slice(&group.shape)?;
    text.extend_from_slice(b".ends cell-")?;
    append_number(text, number)?;
    text.push(b'\n')?;
    Ok(())
}

fn append_call(
    text: &mut Vec<u8>,
    deck: &PlainDeck,
    number: usize,
    group: &Group,
    shape: usize,
) -> Result<(), OutOfMemory> {
    text.push(b'x')?;
    append_number(text, number)?;
    text.extend_from_slice(b" vdd vss")?;
    for net in group.nets.iter() {
        append_word(
            text,
            deck.nets
                .get(*net)
                .map_or(b"".as_slice(), |name| name.as_slice()),
        )?;
    }
    text.extend_from_slice(b" cell-")?;
    append_number(text, shape)?;
    text.push(b'\n')?;
    Ok(())
}

/// The text of a deck with a call for each group of devices, of which these are the ends. Its first two nets are
/// the supplies.
pub fn write_calls(
    alloc: Global,
    deck: &PlainDeck,
    ends: &[usize],
) -> Result<Vec<u8>, OutOfMemory> {
    let groups = groups_of(alloc, deck, ends)?;
    let mut text = Vec::from_slice(alloc, b"* domsyn deck 2\n")?;
    let mut shapes = 0usize;
    for (group, shape) in groups.iter() {
        if *shape == shapes {
            append_shape(&mut text, group, *shape)?;
            shapes = shapes.saturating_add(1);
        }
    }
    text.extend_from_slice(b".subckt")?;
    append_word(&mut text, &deck.name)?;
    for port in deck.nets.iter().take(deck.ports) {
        append_word(&mut text, port)?;
    }
    text.push(b'\n')?;
    for (number, (group, shape)) in groups.iter().enumerate() {
        append_call(&mut text, deck, number, group, *shape)?;
    }
    text.extend_from_slice(b".ends")?;
    append_word(&mut text, &deck.name)?;
    text.push(b'\n')?;
    Ok(text)
}

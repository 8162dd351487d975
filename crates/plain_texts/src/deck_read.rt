//! A plain reader of decks, over the whole list of cards.
use crate::cut::{has_control, has_one_of, has_word, have_control, lines, words};
use crate::deck_subckts::{
    Card, called, index_in, is_call, is_device, is_ends, is_subckt, named, passed_by, ports_of,
    subckts_of,
};
use dom_base::{Kind, OutOfMemory};
use std::alloc::Global;

const MOST_DEVICES: usize = 16_777_216;

const MOST_PORTS: usize = 1_048_576;

const MOST_DEPTH: usize = 64;

/// A device, with the numbers of its nets.
#[derive(Drop)]
pub struct PlainDevice {
    pub kind: Kind,
    pub drain: usize,
    pub gate: usize,
    pub source: usize,
}

/// What a deck says.
#[derive(Drop)]
pub struct PlainDeck {
    pub name: Vec<u8>,
    pub phases: Vec<(Vec<u8>, bool)>,
    pub ports: usize,
    pub nets: Vec<Vec<u8>>,
    pub devices: Vec<PlainDevice>,
}

/// A deck, or the line and the number of its fault.
#[derive(Drop)]
pub enum DeckReading {
    Deck(PlainDeck),
    Fault(u64, u8),
}

/// Reads a text.
pub fn read_deck(alloc: Global, text: &[u8]) -> Result<DeckReading, OutOfMemory> {
    let lines = read_lines(alloc, text)?;
    let (cards, stray) = cards_of(alloc, &lines)?;
    let end = end_line(alloc, &lines)?;
    match first_fault(alloc, &cards, &stray, end)? {
        Some((line, kind)) => Ok(DeckReading::Fault(line, kind)),
        None => Ok(DeckReading::Deck(deck_of(alloc, &lines, &cards)?)),
    }
}

/// The lines up to `.end`, without blanks in front, in lower-case letters.
fn read_lines(alloc: Global, text: &[u8]) -> Result<Vec<Vec<u8>>, OutOfMemory> {
    let mut all = Vec::new(alloc);
    for line in lines(alloc, text)? {
        let line = lowered(alloc, &line)?;
        let last = is_end(alloc, &line)?;
        all.push(line)?;
        if last {
            return Ok(all);
        }
    }
    Ok(all)
}

fn lowered(alloc: Global, line: &[u8]) -> Result<Vec<u8>, OutOfMemory> {
    let mut all = Vec::new(alloc);
    for byte in line {
        let is_blank = *byte == b' ' || *byte == b'\t';
        if !is_blank || !all.is_empty() {
            all.push(byte.to_ascii_lowercase())?;
        }
    }
    Ok(all)
}

fn is_end(alloc: Global, line: &[u8]) -> Result<bool, OutOfMemory> {
    Ok(has_word(&words(alloc, line)?, 0, ".end"))
}

/// The line at which the deck ends: that of `.end`, or the one behind the last.
fn end_line(alloc: Global, lines: &[Vec<u8>]) -> Result<u64, OutOfMemory> {
    let count = lines.len();
    let ended = match lines.last() {
        Some(line) => is_end(alloc, line)?,
        None => false,
    };
    Ok(if ended {
        count as u64
    } else {
        count.saturating_add(1) as u64
    })
}

/// The cards, and the lines with `+` that stand before all cards.
fn cards_of(alloc: Global, lines: &[Vec<u8>]) -> Result<(Vec<Card>, Vec<u64>), OutOfMemory> {
    let mut cards: Vec<Card> = Vec::new(alloc);
    let mut stray = Vec::new(alloc);
    for (index, line) in lines.iter().enumerate() {
        let number = index.saturating_add(1) as u64;
        match line.as_slice() {
            [] | [b'*', ..] => (),
            [b'+', more @ ..] => match cards.last_mut() {
                Some(card) => card.words.extend(words(alloc, more)?)?,
                None => stray.push(number)?,
            },
            _ => cards.push(Card {
                number,
                words: words(alloc, line)?,
            })?,
        }
    }
    Ok((cards, stray))
}

fn is_known(card: &Card) -> bool {
    is_device(card)
        || is_call(card)
        || has_one_of(&card.words, 0, &[".subckt", ".ends", ".end", ".model"])
}

/// Whether a known card has the words that it takes.
fn has_form(card: &Card) -> bool {
    let count = card.words.len();
    let equals = card
        .words
        .iter()
        .any(|word| word.iter().any(|b| *b == b'='));
    if is_device(card) {
        count >= 6
    } else if is_call(card) || is_subckt(card) {
        count >= 2 && !equals
    } else {
        !is_ends(card) || count <= 2
    }
}

fn names_twice(names: &[Vec<u8>]) -> bool {
    names
        .iter()
        .enumerate()
        .any(|(index, name)| index_in(names, name) != Some(index))
}

/// A subcircuit is open behind these cards.
fn is_open(before: &[Card]) -> bool {
    let nearest = before
        .iter()
        .rev()
        .find(|card| is_subckt(card) || is_ends(card));
    match nearest {
        Some(card) => is_subckt(card),
        None => false,
    }
}

/// The smallest number of a fault of a card behind these.
fn card_fault(alloc: Global, before: &[Card], card: &Card) -> Result<Option<u8>, OutOfMemory> {
    let device = is_device(card);
    let call = is_call(card);
    let subckt = is_subckt(card);
    let kind_named = has_one_of(&card.words, 5, &["nch", "pch", "pkeep"]);
    let all = subckts_of(alloc, before)?;
    let unit = called(&all.closed, card);
    let (added, depth, ports) = match unit {
        Some(unit) => (
            unit.devices.len(),
            unit.depth.saturating_add(1),
            unit.ports.len(),
        ),
        None => (0, 0, passed_by(card).len()),
    };
    let count = all.open.devices.len();
    let again = match card.words.get(1) {
        Some(name) => named(&all.closed, name).is_some(),
        None => false,
    };
    let faults = [
        (have_control(&card.words), 1),
        (!is_known(card), 2),
        (is_known(card) && !has_form(card), 3),
        (device && card.words.len() >= 6 && !kind_named, 4),
        ((device || call || is_ends(card)) && !is_open(before), 5),
        (subckt && (is_open(before) || again), 6),
        (subckt && names_twice(ports_of(card)), 8),
        (device && count >= MOST_DEVICES, 9),
        (call && count.saturating_add(added) > MOST_DEVICES, 9),
        (call && depth > MOST_DEPTH, 9),
        (subckt && ports_of(card).len() > MOST_PORTS, 9),
        (call && unit.is_none(), 10),
        (call && ports != passed_by(card).len(), 11),
    ];
    Ok(faults.iter().find(|fault| fault.0).map(|fault| fault.1))
}

/// The first line with a fault, and the smallest number of its faults.
fn first_fault(
    alloc: Global,
    cards: &[Card],
    stray: &[u64],
    end: u64,
) -> Result<Option<(u64, u8)>, OutOfMemory> {
    let mut faults = Vec::new(alloc);
    for line in stray {
        faults.push((*line, 3))?;
    }
    for (index, card) in cards.iter().enumerate() {
        let before = cards.get(..index).unwrap_or(&[]);
        if let Some(kind) = card_fault(alloc, before, card)? {
            faults.push((card.number, kind))?;
        }
    }
    if !cards.iter().any(is_subckt) {
        faults.push((end, 5))?;
    }
    if is_open(cards) {
        faults.push((end, 7))?;
    }
    Ok(faults.iter().copied().min())
}

/// The phases that the comments give.
fn phases_of(alloc: Global, lines: &[Vec<u8>]) -> Result<Vec<(Vec<u8>, bool)>, OutOfMemory> {
    let mut phases = Vec::new(alloc);
    for line in lines {
        let parts = words(alloc, line)?;
        let phase = parts.len() == 4 && has_word(&parts, 0, "*") && has_word(&parts, 1, "phase");
        if let (true, Some(name)) = (phase, parts.get(2)) {
            if !has_control(name) && has_one_of(&parts, 3, &["+", "-"]) {
                phases.push((name.to_vec(alloc)?, has_word(&parts, 3, "+")))?;
            }
        }
    }
    Ok(phases)
}

/// The number of the net of this name, which is added where it is new.
fn net_at(alloc: Global, nets: &mut Vec<Vec<u8>>, name: &[u8]) -> Result<usize, OutOfMemory> {
    match index_in(nets, name) {
        Some(found) => Ok(found),
        None => {
            nets.push(name.to_vec(alloc)?)?;
            Ok(nets.len().saturating_sub(1))
        }
    }
}

/// What cards without a fault say: the last subcircuit.
fn deck_of(alloc: Global, lines: &[Vec<u8>], cards: &[Card]) -> Result<PlainDeck, OutOfMemory> {
    let mut name = Vec::new(alloc);
    let mut nets = Vec::new(alloc);
    let mut ports = 0;
    let mut devices = Vec::new(alloc);
    let all = subckts_of(alloc, cards)?;
    if let Some(last) = all.closed.last() {
        name.extend_from_slice(&last.name)?;
        for port in last.ports.iter() {
            nets.push(port.to_vec(alloc)?)?;
        }
        ports = nets.len();
        for device in last.devices.iter() {
            let drain = net_at(alloc, &mut nets, &device.drain)?;
            let gate = net_at(alloc, &mut nets, &device.gate)?;
            let source = net_at(alloc, &mut nets, &device.source)?;
            devices.push(PlainDevice {
                kind: device.kind,
                drain,
                gate,
                source,
            })?;
        }
    }
    let phases = phases_of(alloc, lines)?;
    Ok(PlainDeck {
        name,
        phases,
        ports,
        nets,
        devices,
    })
}

//! What a text with calls says, card by card.
use dom_base::{Kind, OutOfMemory};
use std::alloc::Global;

/// A card of a subcircuit: a device with its drain, gate and source, or a call with its name, its nets and the name
/// of what it calls.
#[derive(Drop)]
pub enum CallCard {
    Device(Kind, Vec<Vec<u8>>),
    Call(Vec<u8>, Vec<Vec<u8>>, Vec<u8>),
}

/// A subcircuit.
#[derive(Drop)]
pub struct Subckt {
    pub name: Vec<u8>,
    pub ports: Vec<Vec<u8>>,
    pub cards: Vec<CallCard>,
}

impl Subckt {
    /// The place of a port.
    pub fn port(&self, name: &[u8]) -> Option<usize> {
        self.ports.iter().position(|port| port.as_slice() == name)
    }
}

/// The number of the subcircuit of this name.
pub fn subckt_called(subckts: &[Subckt], name: &[u8]) -> Option<usize> {
    subckts
        .iter()
        .position(|subckt| subckt.name.as_slice() == name)
}

fn words_of(alloc: Global, line: &[u8]) -> Result<Vec<Vec<u8>>, OutOfMemory> {
    let mut all = Vec::new(alloc);
    for piece in line.split(|byte| *byte == b' ') {
        if !piece.is_empty() {
            all.push(piece.to_vec(alloc)?)?;
        }
    }
    Ok(all)
}

/// The words of the cards of a text: a line that begins with `+` goes on with the card before it, and one that
/// begins with `*` is none.
fn cards_of(alloc: Global, text: &[u8]) -> Result<Vec<Vec<Vec<u8>>>, OutOfMemory> {
    let mut cards: Vec<Vec<Vec<u8>>> = Vec::new(alloc);
    for line in text.split(|byte| *byte == b'\n') {
        match line {
            [b'+', rest @ ..] => {
                let more = words_of(alloc, rest)?;
                if let Some(card) = cards.last_mut() {
                    card.extend(more)?;
                }
            }
            [] | [b'*', ..] => {}
            _ => cards.push(words_of(alloc, line)?)?,
        }
    }
    Ok(cards)
}

fn tail_of(alloc: Global, words: &[Vec<u8>], start: usize) -> Result<Vec<Vec<u8>>, OutOfMemory> {
    let mut all = Vec::new(alloc);
    for word in words.iter().skip(start) {
        all.push(word.to_vec(alloc)?)?;
    }
    Ok(all)
}

fn kind_of(words: &[Vec<u8>]) -> Kind {
    match words.last().map(|word| word.as_slice()) {
        Some(b"nch") => Kind::N,
        Some(b"pch") => Kind::P,
        _ => Kind::Keep,
    }
}

/// The card of a subcircuit that these words are.
fn call_card(alloc: Global, words: &[Vec<u8>]) -> Result<Option<CallCard>, OutOfMemory> {
    let Some((first, rest)) = words.split_first() else {
        return Ok(None);
    };
    match first.first() {
        Some(b'm') => {
            let mut nets = tail_of(alloc, rest, 0)?;
            nets.truncate(3);
            Ok(Some(CallCard::Device(kind_of(words), nets)))
        }
        Some(b'x') => {
            let mut nets = tail_of(alloc, rest, 0)?;
            match nets.pop() {
                Some(called) => Ok(Some(CallCard::Call(first.to_vec(alloc)?, nets, called))),
                None => Ok(None),
            }
        }
        _ => Ok(None),
    }
}

/// The subcircuits of a text without a fault, in order.
pub fn read_subckts(alloc: Global, text: &[u8]) -> Result<Vec<Subckt>, OutOfMemory> {
    let mut all: Vec<Subckt> = Vec::new(alloc);
    for words in cards_of(alloc, text)?.iter() {
        match (words.first().map(|word| word.as_slice()), words.get(1)) {
            (Some(b".subckt"), Some(name)) => all.push(Subckt {
                name: name.to_vec(alloc)?,
                ports: tail_of(alloc, words, 2)?,
                cards: Vec::new(alloc),
            })?,
            _ => {
                let card = call_card(alloc, words)?;
                if let (Some(card), Some(subckt)) = (card, all.last_mut()) {
                    subckt.cards.push(card)?;
                }
            }
        }
    }
    Ok(all)
}

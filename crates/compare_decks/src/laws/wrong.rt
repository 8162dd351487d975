//! Decks that are changed so that they break a law.
use crate::laws::cases::DeckKind;
use dom_base::Kind;
use legal_runs::Clocking;
use plain_synthesis::{Card, PlainCell, PlainGate, TreeItem};
use std::alloc::{AllocError, Global};

/// What is changed in a deck.
#[derive(Clone, Copy, PartialEq, Eq)]
pub enum Wrong {
    /// Each keeper is a `pch`.
    StrongKeepers,
    /// No cell has its foot: the trees end at `vss`.
    NoFeet,
    /// A leaf of a tree hangs on the dynamic net of the cell whose output it should read.
    LeafOnDynamicNet,
    /// The first two sinks drive each other's nets.
    SinksExchanged,
    /// The first inner net of a cell of style precharge isn't precharged.
    InnerNetNotPrecharged,
    /// The first inner net of a cell of style precharge is precharged by another clock.
    InnerNetOnOtherClock,
    /// A cell reads the cell two clocks back instead of the buffer between.
    ReadsTwoBack,
    /// The last buffer hangs on the clock before its own.
    BufferOnEarlierClock,
    /// A clock falls before the next has risen.
    FallsBeforeNext,
    /// A clock falls at a moment that is no rest.
    FallsWithoutRest,
    /// The two sides of a compound cell share an inner net, or an inner net of one is the dynamic net of the other.
    SharedNet,
    /// The static pairs of a compound cell read its left side twice.
    OneSidedPair,
}

impl Wrong {
    /// What is changed, in words.
    pub fn words(self) -> &'static str {
        match self {
            Wrong::StrongKeepers => "keepers of the kind pch",
            Wrong::NoFeet => "cells without a foot",
            Wrong::LeafOnDynamicNet => "a leaf on a dynamic net",
            Wrong::SinksExchanged => "two sinks exchanged",
            Wrong::InnerNetNotPrecharged => "an inner net that isn't precharged",
            Wrong::InnerNetOnOtherClock => "an inner net on another clock",
            Wrong::ReadsTwoBack => "a cell that reads two clocks back",
            Wrong::BufferOnEarlierClock => "a buffer on the clock before its own",
            Wrong::FallsBeforeNext => "clocks that fall before the next has risen",
            Wrong::FallsWithoutRest => "clocks that fall at no rest",
            Wrong::SharedNet => "a net that the sides of a cell share",
            Wrong::OneSidedPair => "a pair that reads one side",
        }
    }

    /// The kind of the decks that are changed.
    pub fn kind(self) -> DeckKind {
        match self {
            Wrong::StrongKeepers
            | Wrong::NoFeet
            | Wrong::LeafOnDynamicNet
            | Wrong::SinksExchanged => DeckKind::Keepers,
            Wrong::InnerNetNotPrecharged | Wrong::InnerNetOnOtherClock => DeckKind::Precharge,
            Wrong::ReadsTwoBack
            | Wrong::BufferOnEarlierClock
            | Wrong::FallsBeforeNext
            | Wrong::FallsWithoutRest => DeckKind::Buffers,
            Wrong::SharedNet | Wrong::OneSidedPair => DeckKind::Compound,
        }
    }

    /// How clocks move where that is what is changed.
    pub fn clocking(self) -> Option<Clocking> {
        match self {
            Wrong::FallsBeforeNext => Some(Clocking::BeforeNext),
            Wrong::FallsWithoutRest => Some(Clocking::WithoutRest),
            _ => None,
        }
    }

    /// Changes these cells where it is cells that are changed, and tells whether there was something to change.
    pub fn change_cells(self, cells: &mut [PlainCell]) -> bool {
        match self {
            Wrong::ReadsTwoBack => pass_buffer(cells),
            Wrong::BufferOnEarlierClock => hurry_buffer(cells),
            _ => false,
        }
    }

    /// Changes these cards, and tells whether there was something to change.
    pub fn change(self, alloc: Global, cards: &mut Vec<Card>) -> Result<bool, AllocError> {
        match self {
            Wrong::StrongKeepers => Ok(make_strong(cards)),
            Wrong::NoFeet => remove_feet(alloc, cards),
            Wrong::LeafOnDynamicNet => move_leaf(alloc, cards),
            Wrong::SinksExchanged => exchange_sinks(alloc, cards),
            Wrong::InnerNetNotPrecharged => Ok(remove_precharge(cards)),
            Wrong::InnerNetOnOtherClock => exchange_clock(alloc, cards),
            Wrong::SharedNet => share_net(alloc, cards),
            Wrong::OneSidedPair => read_one_side(alloc, cards),
            Wrong::ReadsTwoBack
            | Wrong::BufferOnEarlierClock
            | Wrong::FallsBeforeNext
            | Wrong::FallsWithoutRest => Ok(false),
        }
    }
}

fn make_strong(cards: &mut [Card]) -> bool {
    let mut found = false;
    for card in cards.iter_mut() {
        if card.kind == Kind::Keep {
            card.kind = Kind::P;
            found = true;
        }
    }
    found
}

/// Whether a name begins with this letter.
fn begins(name: &str, letter: u8) -> bool {
    name.as_bytes().first() == Some(&letter)
}

/// A name with another first letter.
fn with_letter(alloc: Global, letter: &str, name: &str) -> Result<String, AllocError> {
    let rest = name.get(1..).unwrap_or("");
    format!(in alloc; "{letter}{rest}")
}

fn remove_feet(alloc: Global, cards: &mut Vec<Card>) -> Result<bool, AllocError> {
    let before = cards.len();
    cards.retain(|card| !begins(card.drain.as_str(), b'f'));
    for card in cards.iter_mut() {
        if begins(card.source.as_str(), b'f') {
            card.source = String::from_str(alloc, "vss")?;
        }
    }
    Ok(cards.len() < before)
}

/// Whether a card is a device of a tree that the output of a cell gates.
fn reads_cell(card: &Card) -> bool {
    let drain = card.drain.as_str();
    card.kind == Kind::N
        && begins(card.gate.as_str(), b'z')
        && (begins(drain, b'd') || begins(drain, b't'))
}

fn move_leaf(alloc: Global, cards: &mut [Card]) -> Result<bool, AllocError> {
    for card in cards.iter_mut() {
        if reads_cell(card) {
            card.gate = with_letter(alloc, "d", card.gate.as_str())?;
            return Ok(true);
        }
    }
    Ok(false)
}

/// Whether a card drives the net of a sink.
fn drives_sink(card: &Card) -> bool {
    let drain = card.drain.as_str();
    begins(drain, b'x') || drain.as_bytes().starts_with(b"o_")
}

fn exchange_sinks(alloc: Global, cards: &mut [Card]) -> Result<bool, AllocError> {
    let mut names = Vec::new(alloc);
    for card in cards.iter() {
        if drives_sink(card) && card.kind == Kind::N {
            names.push(String::from_str(alloc, card.drain.as_str())?)?;
        }
    }
    let [first, second, ..] = names.as_slice() else {
        return Ok(false);
    };
    for card in cards.iter_mut() {
        if drives_sink(card) {
            if card.drain.as_str() == first.as_str() {
                card.drain = String::from_str(alloc, second.as_str())?;
            } else if card.drain.as_str() == second.as_str() {
                card.drain = String::from_str(alloc, first.as_str())?;
            }
        }
    }
    Ok(true)
}

/// What a buffer reads: the cell before it in its chain.
fn read_by_buffer(cells: &[PlainCell], number: usize) -> Option<usize> {
    match cells.get(number).map(|cell| cell.tree.as_slice()) {
        Some([TreeItem::Device(PlainGate::Output(before))]) => Some(*before),
        _ => None,
    }
}

/// The first cell that reads a buffer, with the place in its tree and what the buffer reads.
fn reader_of_buffer(cells: &[PlainCell]) -> Option<(usize, usize, usize)> {
    for (number, cell) in cells.iter().enumerate() {
        for (place, item) in cell.tree.iter().enumerate() {
            if let TreeItem::Device(PlainGate::Output(read)) = item {
                let clock = cells.get(*read).map_or(0, |other| other.clock);
                if let Some(before) = read_by_buffer(cells, *read) {
                    if clock < cell.clock {
                        return Some((number, place, before));
                    }
                }
            }
        }
    }
    None
}

fn pass_buffer(cells: &mut [PlainCell]) -> bool {
    let Some((number, place, before)) = reader_of_buffer(cells) else {
        return false;
    };
    if let Some(cell) = cells.get_mut(number) {
        if let Some(item) = cell.tree.get_mut(place) {
            *item = TreeItem::Device(PlainGate::Output(before));
            return true;
        }
    }
    false
}

/// The last buffer takes the clock before its own.
fn hurry_buffer(cells: &mut [PlainCell]) -> bool {
    for number in (0..cells.len()).rev() {
        if read_by_buffer(cells, number).is_some() {
            if let Some(cell) = cells.get_mut(number) {
                cell.clock = cell.clock.saturating_sub(1);
                return true;
            }
        }
    }
    false
}

/// Whether a card precharges an inner net.
fn precharges_inner(card: &Card) -> bool {
    let drain = card.drain.as_str();
    card.kind == Kind::P
        && card.gate.as_str().as_bytes().starts_with(b"ck")
        && (begins(drain, b't') || begins(drain, b'u'))
}

fn remove_precharge(cards: &mut Vec<Card>) -> bool {
    match cards.iter().position(precharges_inner) {
        Some(place) => {
            cards.remove(place);
            true
        }
        None => false,
    }
}

/// The first inner net is precharged by the first clock of another cell that isn't its own.
fn exchange_clock(alloc: Global, cards: &mut [Card]) -> Result<bool, AllocError> {
    let Some(place) = cards.iter().position(precharges_inner) else {
        return Ok(false);
    };
    let own = match cards.get(place) {
        Some(card) => String::from_str(alloc, card.gate.as_str())?,
        None => return Ok(false),
    };
    let other = cards.iter().find(|card| {
        card.gate.as_str().as_bytes().starts_with(b"ck") && card.gate.as_str() != own.as_str()
    });
    let clock = match other {
        Some(card) => String::from_str(alloc, card.gate.as_str())?,
        None => return Ok(false),
    };
    if let Some(card) = cards.get_mut(place) {
        card.gate = clock;
    }
    Ok(true)
}

/// Gives a net another name in all cards.
fn rename(alloc: Global, cards: &mut [Card], old: &str, new: &str) -> Result<(), AllocError> {
    for card in cards.iter_mut() {
        if card.drain.as_str() == old {
            card.drain = String::from_str(alloc, new)?;
        }
        if card.gate.as_str() == old {
            card.gate = String::from_str(alloc, new)?;
        }
        if card.source.as_str() == old {
            card.source = String::from_str(alloc, new)?;
        }
    }
    Ok(())
}

/// The first inner net of a right side becomes that of its left side with the same number, or the dynamic net there.
fn share_net(alloc: Global, cards: &mut Vec<Card>) -> Result<bool, AllocError> {
    let found = cards.iter().find(|card| begins(card.drain.as_str(), b'u'));
    let right = match found {
        Some(card) => String::from_str(alloc, card.drain.as_str())?,
        None => return Ok(false),
    };
    let inner = with_letter(alloc, "t", right.as_str())?;
    let number = right.as_str().split('_').next().unwrap_or("");
    let dynamic = with_letter(alloc, "d", number)?;
    let has_inner = cards
        .iter()
        .any(|card| card.drain.as_str() == inner.as_str());
    let left = if has_inner { inner } else { dynamic };
    rename(alloc, cards, right.as_str(), left.as_str())?;
    Ok(true)
}

/// The static pairs of the first compound cell take its left dynamic net in place of its right one.
fn read_one_side(alloc: Global, cards: &mut [Card]) -> Result<bool, AllocError> {
    let found = cards.iter().find(|card| begins(card.gate.as_str(), b'e'));
    let right = match found {
        Some(card) => String::from_str(alloc, card.gate.as_str())?,
        None => return Ok(false),
    };
    let left = with_letter(alloc, "d", right.as_str())?;
    for card in cards.iter_mut() {
        if card.gate.as_str() == right.as_str() {
            card.gate = String::from_str(alloc, left.as_str())?;
        }
    }
    Ok(true)
}

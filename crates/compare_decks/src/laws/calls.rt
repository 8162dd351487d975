//! Decks with calls: what they stand for by two ways is the deck whose groups they were made of; and what comes of
//! it where a port of a call is taken for an inner net.
use crate::laws::cases::{Case, DeckKind, drawn_case};
use crate::laws::laws::{Kept, Tally, breaks_law};
use comparison::Trouble;
use plain_circuits::{
    NamedDevice, Subckt, by_stack, by_substitution, numbered, read_subckts, same_devices,
    write_calls,
};
use plain_texts::PlainDeck;
use std::alloc::Global;

/// The most steps of an expansion.
const STEPS: usize = 100_000;

/// The deck of the devices of a text's last subcircuit.
fn deck_of(
    alloc: Global,
    subckts: &[Subckt],
    devices: &[NamedDevice],
) -> Result<PlainDeck, Trouble> {
    match subckts.last() {
        Some(last) => Ok(numbered(alloc, &last.name, &last.ports, devices)?),
        None => Err(Trouble::Refused),
    }
}

/// Whether two decks have the same name, ports, nets and devices.
fn are_same(deck: &PlainDeck, other: &PlainDeck) -> bool {
    let mut nets = deck.nets.iter().zip(other.nets.iter());
    let mut devices = deck.devices.iter().zip(other.devices.iter());
    deck.name.as_slice() == other.name.as_slice()
        && deck.ports == other.ports
        && deck.nets.len() == other.nets.len()
        && deck.devices.len() == other.devices.len()
        && nets.all(|(net, own)| net.as_slice() == own.as_slice())
        && devices.all(|(device, own)| {
            device.kind == own.kind
                && (device.drain, device.gate, device.source) == (own.drain, own.gate, own.source)
        })
}

/// The subcircuits of the text of a case with calls.
fn subckts_of(alloc: Global, case: &Case, deck: &PlainDeck) -> Result<Vec<Subckt>, Trouble> {
    let text = write_calls(alloc, deck, &case.ends)?;
    Ok(read_subckts(alloc, &text)?)
}

/// Expands the decks of so many cases of a kind by both ways, and compares them with the decks.
pub fn calls_kept(alloc: Global, kind: DeckKind, cases: u64) -> Result<Kept, Trouble> {
    let mut count = 0u64;
    for number in 0..cases {
        let case = drawn_case(alloc, kind, number)?;
        let deck = case.deck(alloc)?;
        let subckts = subckts_of(alloc, &case, &deck)?;
        let devices = by_substitution(alloc, &subckts)?;
        let is_kept = match by_stack(alloc, &subckts, None, STEPS)? {
            Some(found) => {
                same_devices(&found, &devices)
                    && are_same(&deck, &deck_of(alloc, &subckts, &devices)?)
            }
            None => false,
        };
        if !is_kept {
            return Ok(Kept::Broken(number));
        }
        count = count.saturating_add(devices.len() as u64);
    }
    Ok(Kept::Events(count))
}

/// Takes a port of each call for an inner net, and runs what comes of it.
pub fn lost_ports_found(alloc: Global, cases: u64) -> Result<Tally, Trouble> {
    let mut all = Tally {
        decks: 0,
        broken: 0,
    };
    for number in 0..cases {
        let case = drawn_case(alloc, DeckKind::Keepers, number)?;
        let deck = case.deck(alloc)?;
        let subckts = subckts_of(alloc, &case, &deck)?;
        let lost = number.checked_rem(2).unwrap_or(0).saturating_add(2);
        if let Some(devices) = by_stack(alloc, &subckts, Some(lost as usize), STEPS)? {
            let wrong = deck_of(alloc, &subckts, &devices)?;
            all.decks = all.decks.saturating_add(1);
            if breaks_law(alloc, &case, &wrong, number)? {
                all.broken = all.broken.saturating_add(1);
            }
        }
    }
    Ok(all)
}

//! Decks, read twice.
use crate::runs::texts::deck_texts::{
    ENDS, LINES, PARTS, PATTERNS, WORDS, WORKED, change, framed, nested,
};
use comparison::AND_DECK;
use deck::{Circuit, Device, Phase};
use dom_base::{NetName, OutOfMemory};
use plain_texts::{DeckReading, Draws, PlainDeck, Tally, listed, read_deck, write_deck};
use spice_read::{DeckFault, read};
use spice_text::write;
use std::alloc::Global;

fn same_nets(nets: &[NetName], plain: &[Vec<u8>]) -> bool {
    nets.len() == plain.len()
        && nets
            .iter()
            .zip(plain.iter())
            .all(|(net, name)| net.as_bytes() == name.as_slice())
}

fn same_phases(phases: &[Phase], plain: &[(Vec<u8>, bool)]) -> bool {
    phases.len() == plain.len()
        && phases.iter().zip(plain.iter()).all(|(phase, other)| {
            phase.net.as_bytes() == other.0.as_slice() && phase.plus == other.1
        })
}

fn same_devices(devices: &[Device], plain: &PlainDeck) -> bool {
    devices.len() == plain.devices.len()
        && devices.iter().zip(plain.devices.iter()).all(|(device, other)| {
            device.kind == other.kind
                && device.drain as usize == other.drain
                && device.gate as usize == other.gate
                && device.source as usize == other.source
        })
}

fn same_deck(circuit: &Circuit, plain: &PlainDeck) -> bool {
    circuit.name.as_bytes() == plain.name.as_slice()
        && circuit.ports as usize == plain.ports
        && same_nets(circuit.nets.as_slice(), &plain.nets)
        && same_phases(&circuit.phases, &plain.phases)
        && same_devices(&circuit.devices, plain)
}

/// Reads a text twice.
fn compare(alloc: Global, tally: &mut Tally, text: &[u8]) -> Result<(), OutOfMemory> {
    let plain = read_deck(alloc, text)?;
    match read(alloc, text) {
        Ok(circuit) => {
            let alike = match &plain {
                DeckReading::Deck(deck) => {
                    let written = write(alloc, &circuit)?;
                    same_deck(&circuit, deck) && written == write_deck(alloc, deck)?
                }
                DeckReading::Fault(_, _) => false,
            };
            tally.count(false, alike);
            Ok(())
        }
        Err(DeckFault::At { line, kind }) => {
            let alike = match &plain {
                DeckReading::Deck(_) => false,
                DeckReading::Fault(other, number) => line == *other
                    && kind.number() == *number as u64,
            };
            tally.count(true, alike);
            Ok(())
        }
        Err(DeckFault::Memory) => Err(OutOfMemory),
    }
}

/// Reads the worked texts, one of them cut short at each byte, patterns with each byte, texts of drawn
/// pieces, and subcircuits that call one another, each too with a byte changed.
pub fn compare_decks(alloc: Global) -> Result<Tally, OutOfMemory> {
    let mut tally = Tally::new();
    for text in listed(alloc, WORKED, AND_DECK, PATTERNS)? {
        compare(alloc, &mut tally, &text)?;
    }
    let mut draws = Draws::new(1);
    for _ in 0..120u32 {
        compare(alloc, &mut tally, &draws.text(alloc, 8, LINES, ENDS)?)?;
        compare(alloc, &mut tally, &draws.text(alloc, 16, WORDS, PARTS)?)?;
    }
    for _ in 0..360u32 {
        compare(alloc, &mut tally, &framed(alloc, &mut draws)?)?;
    }
    for _ in 0..720u32 {
        let mut text = nested(alloc, &mut draws)?;
        compare(alloc, &mut tally, &text)?;
        change(&mut draws, &mut text);
        compare(alloc, &mut tally, &text)?;
    }
    Ok(tally)
}

//! Stimuli, read twice.
use crate::runs::texts::stim_texts::{WORKED, of_letters, of_lines};
use dom_base::OutOfMemory;
use plain_texts::{Draws, StimReading, Tally};
use std::alloc::Global;
use stim_text::{StimFault, StimKind, Stimulus, read_stim};

/// The word of a kind in the table of refusals.
fn word_of(kind: StimKind) -> &'static str {
    match kind {
        StimKind::BadLetter => "BadLetter",
        StimKind::BadLength => "BadLength",
    }
}

/// The bits of a cycle beside its letters, which are `-` where there are no pins.
fn same_cycle(bits: &[bool], letters: &[u8]) -> bool {
    match letters {
        [b'-'] => bits.is_empty(),
        _ => {
            bits.len() == letters.len()
                && bits
                    .iter()
                    .zip(letters.iter())
                    .all(|(bit, letter)| *bit == (*letter == b'1'))
        }
    }
}

fn same_cycles(cycles: &Stimulus, plain: &[Vec<u8>]) -> bool {
    if cycles.len() != plain.len() {
        return false;
    }
    for index in 0..cycles.len() {
        if !same_cycle(cycles.cycle(index), plain[index].as_slice()) {
            return false;
        }
    }
    true
}

/// Reads a text twice, for so many pins.
fn compare(alloc: Global, tally: &mut Tally, text: &[u8], width: u32) -> Result<(), OutOfMemory> {
    let plain = plain_texts::read_stim(alloc, text, width as usize)?;
    match read_stim(alloc, text, width) {
        Ok(cycles) => {
            let alike = match &plain {
                StimReading::Cycles(letters) => same_cycles(&cycles, letters),
                StimReading::Fault(_, _) => false,
            };
            tally.count(false, alike);
            Ok(())
        }
        Err(StimFault::At { line, kind }) => {
            let alike = match &plain {
                StimReading::Cycles(_) => false,
                StimReading::Fault(other, wanted) => line == *other && word_of(kind) == *wanted,
            };
            tally.count(true, alike);
            Ok(())
        }
        Err(StimFault::Memory) => Err(OutOfMemory),
    }
}

fn compare_widths(alloc: Global, tally: &mut Tally, text: &[u8]) -> Result<(), OutOfMemory> {
    for width in 0..4u32 {
        compare(alloc, tally, text, width)?;
    }
    Ok(())
}

/// Reads the worked texts and texts of drawn pieces, each for none to three pins.
pub fn compare_stimuli(alloc: Global) -> Result<Tally, OutOfMemory> {
    let mut tally = Tally::new();
    for text in WORKED {
        compare_widths(alloc, &mut tally, text.as_bytes())?;
    }
    let mut draws = Draws::new(4);
    for _ in 0..100u32 {
        compare_widths(alloc, &mut tally, &of_letters(alloc, &mut draws)?)?;
        compare_widths(alloc, &mut tally, &of_lines(alloc, &mut draws)?)?;
    }
    Ok(tally)
}

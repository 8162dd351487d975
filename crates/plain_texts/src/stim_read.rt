//! A plain reader of stimuli.
use crate::cut::lines;
use dom_base::OutOfMemory;
use std::alloc::Global;

/// The letters of each cycle, or the line and the word of its fault.
#[derive(Drop)]
pub enum StimReading {
    Cycles(Vec<Vec<u8>>),
    Fault(u64, &'static str),
}

fn without_comment(line: &[u8]) -> &[u8] {
    line.split(|b| *b == b'#').next().unwrap_or(line)
}

fn letters_of(alloc: Global, line: &[u8]) -> Result<Vec<u8>, OutOfMemory> {
    let mut letters = Vec::new(alloc);
    for byte in without_comment(line) {
        if *byte != b' ' && *byte != b'\t' {
            letters.push(*byte)?;
        }
    }
    Ok(letters)
}

/// The fault of the letters of a line that has some, for so many pins.
fn fault_of(letters: &[u8], width: usize) -> Option<&'static str> {
    let allowed: &[u8] = if width == 0 { b"01-" } else { b"01" };
    let is_known = letters
        .iter()
        .all(|letter| allowed.iter().any(|other| other == letter));
    let is_cycle = if width == 0 {
        letters == b"-".as_slice()
    } else {
        letters.len() == width
    };
    match (is_known, is_cycle) {
        (false, _) => Some("BadLetter"),
        (true, false) => Some("BadLength"),
        (true, true) => None,
    }
}

/// Reads a text for so many pins.
pub fn read_stim(alloc: Global, text: &[u8], width: usize) -> Result<StimReading, OutOfMemory> {
    let mut cycles = Vec::new(alloc);
    for (index, line) in lines(alloc, text)?.iter().enumerate() {
        let letters = letters_of(alloc, line)?;
        if !letters.is_empty() {
            if let Some(kind) = fault_of(&letters, width) {
                let number = index.saturating_add(1) as u64;
                return Ok(StimReading::Fault(number, kind));
            }
            cycles.push(letters)?;
        }
    }
    Ok(StimReading::Cycles(cycles))
}

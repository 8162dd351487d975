//! What is printed of an accepted text, out of its logical lines.
use crate::blif_read::{Logical, is_card, is_model, is_names};
use crate::cut::has_word;
use dom_base::OutOfMemory;
use std::alloc::Global;

/// Appends these words as a line. A `\` at its end would join the next line.
fn append_line(text: &mut Vec<u8>, words: &[Vec<u8>]) -> Result<(), OutOfMemory> {
    for (index, word) in words.iter().enumerate() {
        if index > 0 {
            text.push(b' ')?;
        }
        text.extend_from_slice(word)?;
    }
    if let Some(b'\\') = text.last() {
        text.push(b' ')?;
    }
    text.push(b'\n')?;
    Ok(())
}

/// Appends all names on the cards of this word as one card, if there are any.
fn append_ports(
    alloc: Global,
    text: &mut Vec<u8>,
    lines: &[Logical],
    card: &str,
) -> Result<(), OutOfMemory> {
    let mut all: Vec<Vec<u8>> = Vec::new(alloc);
    for line in lines {
        if has_word(&line.words, 0, card) {
            let known = if all.is_empty() { 0 } else { 1 };
            for word in line.words.iter().skip(known) {
                all.push(Vec::from_slice(alloc, word)?)?;
            }
        }
    }
    if all.len() > 1 {
        append_line(text, &all)?;
    }
    Ok(())
}

/// Appends the tables: their cards, each with the rows behind it.
fn append_tables(text: &mut Vec<u8>, lines: &[Logical]) -> Result<(), OutOfMemory> {
    let mut is_open = false;
    for line in lines {
        if is_card(line) {
            is_open = is_names(line);
        }
        if is_open {
            append_line(text, &line.words)?;
        }
    }
    Ok(())
}

/// Appends the latches, each with its start value, which is 3 where it has none.
fn append_latches(alloc: Global, text: &mut Vec<u8>, lines: &[Logical]) -> Result<(), OutOfMemory> {
    for line in lines {
        if has_word(&line.words, 0, ".latch") {
            let mut words: Vec<Vec<u8>> = Vec::new(alloc);
            for word in line.words.iter() {
                words.push(Vec::from_slice(alloc, word)?)?;
            }
            if words.len() % 2 == 1 {
                words.push(Vec::from_slice(alloc, b"3")?)?;
            }
            append_line(text, &words)?;
        }
    }
    Ok(())
}

fn append_instances(text: &mut Vec<u8>, lines: &[Logical]) -> Result<(), OutOfMemory> {
    for line in lines {
        if has_word(&line.words, 0, ".subckt") {
            append_line(text, &line.words)?;
        }
    }
    Ok(())
}

/// Appends a model: its card, and what stands behind it up to the next one.
fn append_model(
    alloc: Global,
    text: &mut Vec<u8>,
    card: &Logical,
    behind: &[Logical],
) -> Result<(), OutOfMemory> {
    let count = behind.iter().take_while(|line| !is_model(line)).count();
    let lines = behind.get(..count).unwrap_or(&[]);
    append_line(text, &card.words)?;
    append_ports(alloc, text, lines, ".inputs")?;
    append_ports(alloc, text, lines, ".outputs")?;
    append_tables(text, lines)?;
    append_latches(alloc, text, lines)?;
    append_instances(text, lines)?;
    text.extend_from_slice(b".end\n")?;
    Ok(())
}

/// Prints an accepted text.
pub fn print_blif(alloc: Global, lines: &[Logical]) -> Result<Vec<u8>, OutOfMemory> {
    let mut text = Vec::new(alloc);
    for (index, line) in lines.iter().enumerate() {
        if is_model(line) {
            let behind = lines.get(index.saturating_add(1)..).unwrap_or(&[]);
            append_model(alloc, &mut text, line, behind)?;
        }
    }
    Ok(text)
}

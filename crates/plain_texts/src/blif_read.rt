//! A plain reader of BLIF (the Berkeley Logic Interchange Format), over the whole list of logical
//! lines.
use crate::cut::{begins_with, has_one_of, has_word, have_control, lines, words};
use dom_base::OutOfMemory;
use std::alloc::Global;

const MOST_INPUTS: usize = 4_096;

const CARDS: &[&str] = &[
    ".model", ".inputs", ".outputs", ".names", ".latch", ".subckt", ".clock", ".end",
];

/// A line that others may have been joined to, with the number of the first of them.
#[derive(Drop)]
struct Joined {
    number: u64,
    bytes: Vec<u8>,
}

/// A logical line that has words, with the number of its first line, from 1.
#[derive(Drop)]
pub struct Logical {
    pub number: u64,
    pub words: Vec<Vec<u8>>,
}

/// The logical lines of an accepted text, or the line and the number of its fault.
#[derive(Drop)]
pub enum BlifReading {
    Lines(Vec<Logical>),
    Fault(u64, u8),
}

/// Reads a text.
pub fn read_blif(alloc: Global, text: &[u8]) -> Result<BlifReading, OutOfMemory> {
    let lines = lines(alloc, text)?;
    let logical = logical_lines(alloc, &join_lines(alloc, &lines)?)?;
    let behind = lines.len().saturating_add(1) as u64;
    match first_fault(alloc, &logical, behind)? {
        Some((line, kind)) => Ok(BlifReading::Fault(line, kind)),
        None => Ok(BlifReading::Lines(logical)),
    }
}

fn without_comment(line: &[u8]) -> &[u8] {
    line.split(|b| *b == b'#').next().unwrap_or(line)
}

/// What stands before a `\` at the end of a line.
fn before_join(line: &[u8]) -> Option<&[u8]> {
    match line {
        [front @ .., b'\\'] => Some(front),
        _ => None,
    }
}

fn join_lines(alloc: Global, lines: &[Vec<u8>]) -> Result<Vec<Joined>, OutOfMemory> {
    let mut all: Vec<Joined> = Vec::new(alloc);
    let mut goes_on = false;
    for (index, line) in lines.iter().enumerate() {
        let line = without_comment(line);
        let front = before_join(line);
        let mut bytes = front.unwrap_or(line).to_vec(alloc)?;
        if front.is_some() {
            bytes.push(b' ')?;
        }
        match (goes_on, all.last_mut()) {
            (true, Some(before)) => before.bytes.extend_from_slice(&bytes)?,
            _ => all.push(Joined {
                number: index.saturating_add(1) as u64,
                bytes,
            })?,
        }
        goes_on = front.is_some();
    }
    Ok(all)
}

fn logical_lines(alloc: Global, joined: &[Joined]) -> Result<Vec<Logical>, OutOfMemory> {
    let mut all = Vec::new(alloc);
    for line in joined {
        let words = words(alloc, &line.bytes)?;
        if !words.is_empty() {
            all.push(Logical {
                number: line.number,
                words,
            })?;
        }
    }
    Ok(all)
}

/// Whether a line is a card.
pub fn is_card(line: &Logical) -> bool {
    begins_with(&line.words, b'.')
}

/// Whether a line opens a model.
pub fn is_model(line: &Logical) -> bool {
    has_word(&line.words, 0, ".model")
}

/// Whether a line opens a table.
pub fn is_names(line: &Logical) -> bool {
    has_word(&line.words, 0, ".names")
}

fn is_end(line: &Logical) -> bool {
    has_word(&line.words, 0, ".end")
}

/// A word with something on both sides of its first `=`.
fn is_binding(word: &[u8]) -> bool {
    match word.iter().position(|b| *b == b'=') {
        Some(index) => index > 0 && index.saturating_add(1) < word.len(),
        None => false,
    }
}

fn is_init(words: &[Vec<u8>], index: usize) -> bool {
    has_one_of(words, index, &["0", "1", "2", "3"])
}

fn is_level(words: &[Vec<u8>]) -> bool {
    has_one_of(words, 3, &["ah", "al", "as"])
}

fn has_latch_form(words: &[Vec<u8>]) -> bool {
    let has_type = has_one_of(words, 3, &["re", "fe"]) || is_level(words);
    match words.len() {
        3 => true,
        4 => is_init(words, 3),
        5 => has_type,
        6 => has_type && is_init(words, 5),
        _ => false,
    }
}

/// Whether a known card has the words that it takes.
fn has_form(words: &[Vec<u8>]) -> bool {
    let count = words.len();
    if has_word(words, 0, ".model") {
        count == 2
    } else if has_word(words, 0, ".names") {
        count >= 2
    } else if has_word(words, 0, ".latch") {
        has_latch_form(words)
    } else if has_word(words, 0, ".subckt") {
        count >= 2 && words.iter().skip(2).all(|word| is_binding(word))
    } else {
        !has_word(words, 0, ".end") || count == 1
    }
}

/// The number of inputs of a table.
pub fn width_of(line: &Logical) -> usize {
    line.words.len().saturating_sub(2)
}

/// The table that is open behind these lines.
fn open_table(before: &[Logical]) -> Option<&Logical> {
    before
        .iter()
        .rev()
        .find(|line| is_card(line))
        .filter(|line| is_names(line))
}

/// A model is open behind these lines.
fn is_model_open(before: &[Logical]) -> bool {
    let nearest = before
        .iter()
        .rev()
        .find(|line| is_model(line) || is_end(line));
    match nearest {
        Some(line) => is_model(line),
        None => false,
    }
}

/// The first row behind the nearest card.
fn first_row(before: &[Logical]) -> Option<&Logical> {
    before.iter().rev().take_while(|line| !is_card(line)).last()
}

fn has_row_form(width: usize, words: &[Vec<u8>]) -> bool {
    match words {
        [_] => width == 0 && has_one_of(words, 0, &["0", "1"]),
        [letters, _] => {
            let known = letters
                .iter()
                .all(|b| *b == b'0' || *b == b'1' || *b == b'-');
            width > 0 && letters.len() == width && known && has_one_of(words, 1, &["0", "1"])
        }
        _ => false,
    }
}

/// Whether the last words of two rows differ.
fn ends_differ(row: &Logical, other: &Logical) -> bool {
    match (row.words.last(), other.words.last()) {
        (Some(last), Some(first)) => last.as_slice() != first.as_slice(),
        _ => false,
    }
}

/// The smallest number of a fault of a row behind these lines.
fn row_fault(before: &[Logical], line: &Logical) -> Option<u8> {
    match open_table(before) {
        None => Some(4),
        Some(table) => {
            if !has_row_form(width_of(table), &line.words) {
                return Some(5);
            }
            match first_row(before) {
                Some(row) if ends_differ(line, row) => Some(6),
                _ => None,
            }
        }
    }
}

/// The smallest number of a fault of a card behind these lines.
fn card_fault(before: &[Logical], line: &Logical) -> Option<u8> {
    let known = has_one_of(&line.words, 0, CARDS);
    let latch = has_word(&line.words, 0, ".latch") && has_latch_form(&line.words);
    let faults = [
        (!known, 2),
        (known && !has_form(&line.words), 3),
        (is_names(line) && width_of(line) > MOST_INPUTS, 7),
        (!is_model(line) && !is_model_open(before), 8),
        (latch && line.words.len() >= 5 && is_level(&line.words), 9),
    ];
    faults.iter().find(|fault| fault.0).map(|fault| fault.1)
}

fn line_fault(before: &[Logical], line: &Logical) -> Option<u8> {
    if have_control(&line.words) {
        Some(1)
    } else if is_card(line) {
        card_fault(before, line)
    } else {
        row_fault(before, line)
    }
}

/// The first line with a fault, and the smallest number of its faults.
fn first_fault(
    alloc: Global,
    logical: &[Logical],
    behind: u64,
) -> Result<Option<(u64, u8)>, OutOfMemory> {
    let mut faults = Vec::new(alloc);
    if logical.is_empty() {
        faults.push((behind, 8))?;
    }
    for (index, line) in logical.iter().enumerate() {
        let before = logical.get(..index).unwrap_or(&[]);
        if let Some(kind) = line_fault(before, line) {
            faults.push((line.number, kind))?;
        }
    }
    Ok(faults.iter().copied().min())
}

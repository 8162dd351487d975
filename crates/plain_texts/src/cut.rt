//! Lines and words, as the formats have them.
use dom_base::OutOfMemory;
use std::alloc::Global;

/// The lines of a text: it is cut at LF, a last piece that is empty is no line, and a CR that ends a
/// line is dropped.
pub fn lines(alloc: Global, text: &[u8]) -> Result<Vec<Vec<u8>>, OutOfMemory> {
    let mut all = Vec::new(alloc);
    for piece in text.split(|b| *b == b'\n') {
        all.push(without_return(piece).to_vec(alloc)?)?;
    }
    // The last piece is empty exactly where the text is, or where it ends with LF.
    if text.is_empty() || text.ends_with(b"\n") {
        all.pop();
    }
    Ok(all)
}

fn without_return(line: &[u8]) -> &[u8] {
    match line {
        [front @ .., b'\r'] => front,
        _ => line,
    }
}

/// The words of a line, which blanks and tabs part.
pub fn words(alloc: Global, line: &[u8]) -> Result<Vec<Vec<u8>>, OutOfMemory> {
    let mut all = Vec::new(alloc);
    for piece in line.split(|b| *b == b' ' || *b == b'\t') {
        if !piece.is_empty() {
            all.push(piece.to_vec(alloc)?)?;
        }
    }
    Ok(all)
}

/// Whether this word stands at an index of some words, from 0.
pub fn has_word(words: &[Vec<u8>], index: usize, wanted: &str) -> bool {
    match words.get(index) {
        Some(word) => word.as_slice() == wanted.as_bytes(),
        None => false,
    }
}

/// Whether the first word begins with this byte.
pub fn begins_with(words: &[Vec<u8>], byte: u8) -> bool {
    match words.first() {
        Some(word) => word.first() == Some(&byte),
        None => false,
    }
}

/// Whether one of these words is at an index.
pub fn has_one_of(words: &[Vec<u8>], index: usize, wanted: &[&str]) -> bool {
    wanted.iter().any(|word| has_word(words, index, word))
}

/// Whether some word has a byte below 32 other than a tab, or 127.
pub fn have_control(words: &[Vec<u8>]) -> bool {
    words.iter().any(|word| has_control(word.as_slice()))
}

pub fn has_control(word: &[u8]) -> bool {
    word.iter().any(|b| (*b < 32 && *b != b'\t') || *b == 127)
}

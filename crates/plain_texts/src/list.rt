//! Texts that are listed: worked ones, one of them cut short at each byte, and patterns with each byte.
use dom_base::OutOfMemory;
use std::alloc::Global;

/// A pattern with this byte in place of each `?`.
fn with_byte(alloc: Global, pattern: &str, byte: u8) -> Result<Vec<u8>, OutOfMemory> {
    let mut text = Vec::new(alloc);
    for other in pattern.as_bytes() {
        text.push(if *other == b'?' { byte } else { *other })?;
    }
    Ok(text)
}

/// These texts, a whole one and what is left of it cut short at each byte, and these patterns with each
/// byte in place of `?`.
pub fn listed(
    alloc: Global,
    worked: &[&str],
    whole: &[u8],
    patterns: &[&str],
) -> Result<Vec<Vec<u8>>, OutOfMemory> {
    let mut texts = Vec::new(alloc);
    for text in worked {
        texts.push(Vec::from_slice(alloc, text.as_bytes())?)?;
    }
    for end in 0..whole.len().saturating_add(1) {
        texts.push(Vec::from_slice(alloc, whole.get(..end).unwrap_or(&[]))?)?;
    }
    for pattern in patterns {
        for byte in 0..=255u8 {
            texts.push(with_byte(alloc, pattern, byte)?)?;
        }
    }
    Ok(texts)
}

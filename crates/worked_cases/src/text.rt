//! Lines that are written once for many numbers, lines that give text, and the words of the other lines.
use crate::reader::{Kind, Line};
use std::alloc::Global;

/// The number that a formula such as `k`, `k+1`, `16k` or `8k+7` gives.
fn value_of(formula: &str, letter: char, value: u64) -> Option<u64> {
    let (times, rest) = formula.split_once(letter)?;
    let product = match times {
        "" => value,
        _ => value.saturating_mul(times.parse::<u64>().ok()?),
    };
    match rest {
        "" => Some(product),
        _ => Some(product.saturating_add(rest.parse::<u64>().ok()?)),
    }
}

/// A line with the values of its formulas in this letter, which stand in braces.
pub fn filled(alloc: Global, line: &str, letter: char, value: u64) -> Option<String> {
    let mut text = String::new(alloc);
    for (index, piece) in line.split('{').enumerate() {
        let (formula, behind) = piece.split_once('}').unwrap_or(("", ""));
        if let Some(number) = value_of(formula, letter, value) {
            text.push_str(format!(in alloc; "{number}{behind}").ok()?.as_str())
                .ok()?;
        } else {
            text.push_str(if index == 0 { "" } else { "{" }).ok()?;
            text.push_str(piece).ok()?;
        }
    }
    Some(text)
}

/// The value of a digit of base 16.
fn digit(byte: u8) -> Option<u8> {
    match byte {
        b'0'..=b'9' => Some(byte - b'0'),
        b'a'..=b'f' => Some(byte - b'a' + 10),
        _ => None,
    }
}

/// Appends what stands in quotes: `\n` is the end of a line, and `\xHH` the byte with these digits.
fn append(bytes: &mut Vec<u8>, quoted: &str) -> Option<()> {
    for (index, piece) in quoted.split('\\').enumerate() {
        let rest = match piece.as_bytes() {
            all if index == 0 => all,
            [b'n', rest @ ..] => {
                bytes.push(b'\n').ok()?;
                rest
            }
            [b'x', high, low, rest @ ..] => {
                let byte = digit(*high)?.wrapping_mul(16) | digit(*low)?;
                bytes.push(byte).ok()?;
                rest
            }
            _ => return None,
        };
        bytes.extend_from_slice(rest).ok()?;
    }
    Some(())
}

/// The words of a line: parted by blanks, or in quotes.
pub fn words(alloc: Global, line: &str) -> Option<Vec<String>> {
    let mut all = Vec::new(alloc);
    for (index, part) in line.split('"').enumerate() {
        if index % 2 == 1 {
            let mut word = Vec::new(alloc);
            append(&mut word, part)?;
            all.push(String::from_utf8(word).ok()?).ok()?;
        } else {
            for word in part.split(' ').filter(|word| !word.is_empty()) {
                all.push(String::from_str(alloc, word).ok()?).ok()?;
            }
        }
    }
    Some(all)
}

/// What `@ NAME`, `@ NAME COUNT` and `@ NAME COUNT lines` give: a text, its first bytes, or its first lines.
fn cited(alloc: Global, lines: &[Line], line: &str) -> Option<Vec<u8>> {
    let words = words(alloc, line)?;
    let name = words.get(1)?.as_str();
    let mut below = lines.iter().rev();
    let text = below.find(|line| line.kind == Kind::Text && line.name() == name)?;
    let whole = text.text.as_slice();
    let count = match words.get(2) {
        None => whole.len(),
        Some(count) => count.as_str().parse::<usize>().ok()?,
    };
    if words.len() < 4 {
        return whole.get(..count)?.to_vec(alloc).ok();
    }
    let mut text = Vec::new(alloc);
    for line in whole.split_inclusive(|byte| *byte == b'\n').take(count) {
        text.extend_from_slice(line).ok()?;
    }
    Some(text)
}

/// What `COUNT * "TEXT"` gives: the text as often, in which `{n}` is how often it stands before.
fn repeated(alloc: Global, count: u64, quoted: &str) -> Option<Vec<u8>> {
    let mut text = Vec::new(alloc);
    if !quoted.contains('{') {
        append(&mut text, quoted)?;
        return text.as_slice().repeat(alloc, count as usize).ok();
    }
    for time in 0..count {
        append(&mut text, filled(alloc, quoted, 'n', time)?.as_str())?;
    }
    Some(text)
}

/// Whether a line gives text: it begins with `|`, `@`, quotes or a count.
pub fn gives_text(line: &str) -> bool {
    matches!(line.as_bytes(), [b'|' | b'@' | b'"' | b'0'..=b'9', ..])
}

/// The text that a line gives.
pub fn text_of(alloc: Global, lines: &[Line], line: &str) -> Option<Vec<u8>> {
    if let Some(rest) = line.strip_prefix('|') {
        let rest = rest.strip_prefix(' ').unwrap_or(rest);
        return Some(format!(in alloc; "{rest}\n").ok()?.into_bytes());
    }
    if line.starts_with('@') {
        return cited(alloc, lines, line);
    }
    let (front, quoted) = line.strip_suffix('"')?.split_once('"')?;
    let count = match front {
        "" => 1,
        _ => front.strip_suffix(" * ")?.parse::<u64>().ok()?,
    };
    repeated(alloc, count, quoted)
}

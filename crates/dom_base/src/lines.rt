//! Lines of a text.
ghost use Rattle.std.specs.Prelude.{◌≡◌, ◌++◌, ◌∷◌, ℕ, List, [], MatchOption};
ghost use Rattle.dom_base.specs.Lines.{without_comment, without_return};
ghost use Rattle.dom_base.specs.Cuts.{IsCut};

use memchr::memchr;

/// The first line, without the LF that ends it and a CR before that, and the text behind it.
pub fn cut_line(text: &[u8]) -> Option<(&[u8], &[u8])>
    ensures { MatchOption result (text.now ≡ []) (λ p. IsCut text.now p.0.now p.1.now) }
{
    if text.is_empty() {
        return None;
    }
    match memchr(b'\n', text) {
        Some(end) => Some((strip_return(&text[..end]), &text[end + 1..])),
        None => Some((strip_return(text), &text[text.len()..])),
    }
}

/// What stands before the last byte, where that is this byte.
pub fn strip_last(line: &[u8], byte: u8) -> Option<&[u8]>
    ensures { MatchOption result ((front : List ℕ) → line.now ≡ front ++ byte ∷ [] → ⊥) (λ front. line.now ≡ front.now ++ byte ∷ []) }
{
    match line.split_last() {
        Some((last, front)) => { if *last == byte { Some(front) } else { None } }
        None => None,
    }
}

fn strip_return(line: &[u8]) -> &[u8]
    ensures { result.now ≡ without_return line.now }
{
    match strip_last(line, b'\r') {
        Some(front) => front,
        None => line,
    }
}

/// The part of a line before the first `#`.
pub fn strip_comment(line: &[u8]) -> &[u8]
    ensures { result.now ≡ without_comment line.now }
{
    match memchr(b'#', line) {
        Some(end) => &line[..end],
        None => line,
    }
}

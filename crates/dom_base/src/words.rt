//! Words of a line.
ghost use Rattle.std.specs.Prelude.{◌≡◌, IfOk, map, nat_eq};
ghost use Rattle.std.specs.Cmp.Lexicographic.{pointwise};
ghost use Rattle.std.specs.List.{list_any};
ghost use Rattle.dom_base.specs.Lines.{first_word, is_control, words};

use std::alloc::{AllocError, Global};

/// The words of a line, which blanks and tabs part.
pub fn cut_words(alloc: Global, line: &[u8]) -> Result<Vec<&[u8]>, AllocError>
    ensures { IfOk result (λ v. map (λ w. w.now) v.items ≡ words line.now) }
{
    line.split(|b| *b == b' ' || *b == b'\t')
        .filter(|word| !word.is_empty())
        .collect(alloc)
}

/// The first of some words, or no bytes where there is none.
pub fn first_word<'a>(words: &[&'a [u8]]) -> &'a [u8]
    ensures { result.now ≡ first_word (map (λ w. w.now) words.now) }
{
    match words.first() {
        Some(word) => word,
        None => &[],
    }
}

/// Whether two words have the same bytes, which are compared one by one: most words are short.
#[inline(always)]
pub fn is_same(word: &[u8], other: &[u8]) -> bool
    ensures { result ≡ pointwise nat_eq word.now other.now }
{
    if word.len() != other.len() {
        return false;
    }
    for index in 0..word.len() {
        if word[index] != other[index] {
            return false;
        }
    }
    true
}

fn is_control(b: u8) -> bool
    ensures { result ≡ is_control b }
{
    if b' ' <= b && b < 0x7f {
        return false;
    }
    b < b' ' && b != b'\t' || b == 0x7f
}

/// Whether a word has a control byte.
pub fn has_control(word: &[u8]) -> bool
    ensures { result ≡ list_any is_control word.now }
{
    word.iter().any(|b| is_control(*b))
}

/// Whether one of the words has a control byte.
pub fn have_control(words: &[&[u8]]) -> bool
    ensures { result ≡ list_any (list_any is_control) (map (λ w. w.now) words.now) }
{
    words.iter().any(|word| has_control(word))
}

//! The forms of cards and rows, by their words.
ghost use Rattle.std.specs.Prelude.{◌≡◌, ◌&&◌, map, []};
ghost use Rattle.std.specs.List.{list_all};
ghost use Rattle.blif_ast.specs.Cards.{
  is_form,
  is_init,
  is_edge,
  is_type,
  is_latch_form,
  is_level_form,
  is_level,
  is_binding,
  is_subckt_form,
  formal_of,
  actual_of,
  is_value,
  is_letter,
  is_row_form,
};

use blif_ast::Card;
use memchr::memchr;

/// Whether these are the words of this card in its form.
pub fn is_form(card: Card, words: &[&[u8]]) -> bool
    ensures { result ≡ is_form card (map (λ w. w.now) words.now) }
{
    match card {
        Card::Model => words.len() == 2,
        Card::Names => 1 < words.len(),
        Card::Latch => is_latch_form(words),
        Card::Subckt => is_subckt_form(words),
        Card::End => words.len() == 1,
        Card::Inputs | Card::Outputs | Card::Clock => true,
    }
}

fn is_init(word: &[u8]) -> bool
    ensures { result ≡ is_init word.now }
{
    word == b"0".as_slice()
        || word == b"1".as_slice()
        || word == b"2".as_slice()
        || word == b"3".as_slice()
}

fn is_edge(word: &[u8]) -> bool
    ensures { result ≡ is_edge word.now }
{
    word == b"re".as_slice() || word == b"fe".as_slice()
}

/// Whether the word is the type of a latch that takes its input at a level of its control.
fn is_level(word: &[u8]) -> bool
    ensures { result ≡ is_level word.now }
{
    word == b"ah".as_slice() || word == b"al".as_slice() || word == b"as".as_slice()
}

fn is_type(word: &[u8]) -> bool
    ensures { result ≡ is_type word.now }
{
    is_edge(word) || is_level(word)
}

fn is_latch_form(words: &[&[u8]]) -> bool
    ensures { result ≡ is_latch_form (map (λ w. w.now) words.now) }
{
    match words {
        [_, _, _] => true,
        [_, _, _, init] => is_init(init),
        [_, _, _, kind, _] => is_type(kind),
        [_, _, _, kind, _, init] => is_type(kind) && is_init(init),
        _ => false,
    }
}

/// Whether these are the words of a card `.latch` in its form that has a type of a level.
pub fn is_level_form(words: &[&[u8]]) -> bool
    ensures { result ≡ is_level_form (map (λ w. w.now) words.now) }
{
    is_latch_form(words) && 4 < words.len() && is_level(words[3])
}

/// The sides of a word at its first `=`; without one the second is empty.
pub fn sides(word: &[u8]) -> (&[u8], &[u8])
    ensures formal { result.0.now ≡ formal_of word.now }
    ensures actual { result.1.now ≡ actual_of word.now }
{
    match memchr(b'=', word) {
        Some(place) => (&word[..place], &word[place + 1..]),
        None => (word, &[]),
    }
}

fn is_binding(word: &[u8]) -> bool
    ensures { result ≡ is_binding word.now }
{
    let (formal, actual) = sides(word);
    !formal.is_empty() && !actual.is_empty()
}

fn are_bindings(words: &[&[u8]]) -> bool
    ensures { result ≡ list_all is_binding (map (λ w. w.now) words.now) }
{
    words.iter().all(|word| is_binding(word))
}

fn is_subckt_form(words: &[&[u8]]) -> bool
    ensures { result ≡ is_subckt_form (map (λ w. w.now) words.now) }
{
    match words {
        [_, _, bindings @ ..] => are_bindings(bindings),
        _ => false,
    }
}

fn is_value(word: &[u8]) -> bool
    ensures { result ≡ is_value word.now }
{
    match word {
        [b'0' | b'1'] => true,
        _ => false,
    }
}

fn are_letters(word: &[u8]) -> bool
    ensures { result ≡ list_all is_letter word.now }
{
    word.iter().all(|b| *b == b'0' || *b == b'1' || *b == b'-')
}

/// Whether these are the words of a row of a table with so many inputs.
pub fn is_row_form(width: usize, words: &[&[u8]]) -> bool
    ensures { result ≡ is_row_form width (map (λ w. w.now) words.now) }
{
    match words {
        [value] => width == 0 && is_value(value),
        [letters, value] => {
            0 < width && letters.len() == width && are_letters(letters) && is_value(value)
        }
        _ => false,
    }
}

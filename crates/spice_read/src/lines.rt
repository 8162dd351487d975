//! The lines of a text, and what their first bytes say.
ghost use Rattle.std.specs.Prelude.{◌≡◌, ◌∷◌, [], MatchOption, false, nat_eq};
ghost use Rattle.std.specs.Cmp.Lexicographic.{pointwise};
ghost use Rattle.std.specs.List.{before_first};
ghost use Rattle.std.specs.Str.{str_to_ascii_lowercase};
ghost use Rattle.dom_base.specs.Lines.{is_blank, unindented};
ghost use Rattle.deck.specs.DeckText.{continues, is_end};
ghost use Rattle.spice_read.specs.Readers.{begins_card, begins_dotted, ReadsLine};

use dom_base::cut_line;
use memchr::memchr2;
use std::marker::Model;

/// The lines of a text that aren't read yet, and the number of the first of them. Once the line
/// `.end` is read nothing is left, and the number is that of this line.
#[derive(Drop)]
pub struct Lines<'a> {
    pub rest: &'a [u8],
    pub number: u64,
}

impl<'a> Model for Lines<'a> {
    ghost use Rattle.dom_base.specs.Cuts.{NumbersFit};
    ghost use Rattle.spice_read.specs.Readers.{LinesLeft};

    ghost Value = { LinesLeft };

    ghost view = { λ l. record { number = l.number; rest = l.rest.now } };

    ghost invariant = { λ l. NumbersFit l.number l.rest.now };
}

impl<'a> Lines<'a> {
    /// The next line with its number, without the blanks and tabs at its start.
    pub fn next(&mut self) -> Option<(u64, &'a [u8])>
        ensures number { MatchOption result (self.new ≡ self.old) (λ p. p.0 ≡ self.old.number) }
        ensures line { MatchOption result (self.old.rest ≡ []) (λ p. ReadsLine self.old (str_to_ascii_lowercase p.1.now) self.new) }
    {
        let number = self.number;
        let (line, rest) = cut_line(self.rest)?;
        let line = unindent(line);
        if is_end(line) {
            self.rest = &[];
        } else {
            self.rest = rest;
            self.number += 1;
        }
        Some((number, line))
    }
}

/// Whether the byte parts words.
pub fn is_blank(byte: u8) -> bool
    ensures { result ≡ is_blank byte }
{
    byte == b' ' || byte == b'\t'
}

/// The line without the blanks and tabs at its start.
pub fn unindent(line: &[u8]) -> &[u8]
    ensures { result.now ≡ unindented line.now }
{
    let mut rest = line;
    'blanks: while let [first, more @ ..] = rest {
        if !is_blank(*first) {
            return rest;
        }
        rest = more;
    }
    rest
}

/// The bytes before the first blank or tab.
pub fn front_word(line: &[u8]) -> &[u8]
    ensures { result.now ≡ before_first is_blank line.now }
{
    match memchr2(b' ', b'\t', line) {
        Some(end) => &line[..end],
        None => line,
    }
}

/// Whether these are the same letters, of upper or of lower case, and the same other bytes.
pub fn same_letters(word: &[u8], other: &[u8]) -> bool
    ensures { result ≡ pointwise nat_eq (str_to_ascii_lowercase word.now) (str_to_ascii_lowercase other.now) }
{
    word.eq_ignore_ascii_case(other)
}

/// Whether the first byte is `.`.
fn begins_dotted(line: &[u8]) -> bool
    ensures { result ≡ begins_dotted line.now }
{
    match line {
        [first, ..] => *first == b'.',
        [] => false,
    }
}

/// Whether the line begins the card `.end`.
fn is_end(line: &[u8]) -> bool
    requires { unindented line.now ≡ line.now }
    ensures { result ≡ is_end (str_to_ascii_lowercase line.now) }
{
    if !begins_dotted(line) {
        return false;
    }
    same_letters(front_word(line), b".end")
}

/// Whether a card begins with the line: it isn't empty, and its first byte is neither `*` nor `+`.
pub fn begins_card(line: &[u8]) -> bool
    ensures { result ≡ begins_card (str_to_ascii_lowercase line.now) }
{
    match line {
        [first, ..] => *first != b'*' && *first != b'+',
        [] => false,
    }
}

/// What stands behind the `+` of a line that continues the card before it.
pub fn strip_plus(line: &[u8]) -> Option<&[u8]>
    ensures { MatchOption result (continues (str_to_ascii_lowercase line.now) ≡ false) (λ rest. line.now ≡ 43 ∷ rest.now) }
{
    match line {
        [b'+', rest @ ..] => Some(rest),
        _ => None,
    }
}

//! Words, cut off a text where each ends.
ghost use Rattle.std.specs.Prelude.{◌≡◌, ℕ, List, MatchOption, true, false};
ghost use Rattle.std.specs.List.{list_any, position, position_or_len};
ghost use Rattle.dom_base.specs.Lines.{is_control, without_return};
ghost use Rattle.blif_ast.specs.LogicalLines.{but_last, is_joined};
ghost use Rattle.blif_lines.specs.Pieces.{behind_line, ends_word, has_blank_at, has_hash_at, is_special, IsLast, IsWordEnd};
ghost use Rattle.blif_lines.specs.TextPlaces.{IsFrontOf};
ghost use Rattle.blif_lines.specs.Cuts.{own_part};

use dom_base::{has_control, strip_last};
use memchr::memchr;

/// What stands behind the first LF, which most often is the first byte.
pub fn behind_line(text: &[u8]) -> &[u8]
    ensures { result.now ≡ behind_line text.now }
{
    match text {
        [b'\n', rest @ ..] => rest,
        _ => behind_feed(text),
    }
}

/// What stands behind the first LF.
fn behind_feed(text: &[u8]) -> &[u8]
    ensures { result.now ≡ behind_line text.now }
{
    match memchr(b'\n', text) {
        Some(end) => &text[end + 1..],
        None => &text[text.len()..],
    }
}

/// The line without the CR at its end, where it has one.
fn strip_return(line: &[u8]) -> &[u8]
    ensures { result.now ≡ without_return line.now }
{
    match strip_last(line, b'\r') {
        Some(front) => front,
        None => line,
    }
}

/// The line without the `\` at its end, where it has one.
pub fn own_part(line: &[u8]) -> &[u8]
    ensures { result.now ≡ own_part line.now }
{
    match strip_join(line) {
        Some(front) => front,
        None => line,
    }
}

/// Whether the line ends in the `\` that joins it with the next.
pub fn is_joined(line: &[u8]) -> bool
    ensures { result ≡ is_joined line.now }
{
    match strip_join(line) {
        Some(_) => true,
        None => false,
    }
}

fn strip_join(line: &[u8]) -> Option<&[u8]>
    ensures { MatchOption result (is_joined line.now ≡ false) (λ front. (is_joined line.now ≡ true) × (front.now ≡ but_last line.now)) }
{
    strip_last(line, b'\\')
}

/// A byte that ends a word.
fn ends_word(b: u8) -> bool
    ensures { result ≡ ends_word b }
{
    b == b' ' || b == b'\t' || b == b'\n' || b == b'#'
}

/// An `x` at the place of each byte that ends a word or is a control byte, and a `-` at that of any other.
static SPECIAL: [u8; 256] = *b"\
    xxxxxxxxxxxxxxxxxxxxxxxxxxxxxxxx\
    x--x----------------------------\
    --------------------------------\
    -------------------------------x\
    --------------------------------\
    --------------------------------\
    --------------------------------\
    --------------------------------";

/// A byte that ends a word or is a control byte.
fn is_special(b: u8) -> bool
    ensures { result ≡ is_special b }
{
    SPECIAL[b as usize] != b'-'
}

/// The place of the first byte that ends a word or is a control byte.
fn special_place(text: &[u8]) -> Option<usize>
    ensures { result ≡ position is_special text.now }
{
    text.iter().position(|b| is_special(*b))
}

/// The place of the first byte that ends a word.
fn ending_place(text: &[u8]) -> Option<usize>
    ensures { result ≡ position ends_word text.now }
{
    text.iter().position(|b| ends_word(*b))
}

/// How many bytes stand before the first that ends a word.
fn parting_place(text: &[u8]) -> usize
    ensures { result ≡ position_or_len ends_word text.now }
{
    match ending_place(text) {
        None => text.len(),
        Some(end) => end,
    }
}

/// Where the first word of a text ends: how many bytes stand before the first that ends a word, and whether there is a
/// control byte among them.
#[derive(Clone, Copy, Debug)]
pub struct WordEnd {
    pub end: usize,
    pub has_control: bool,
}

/// Where the first word of a text ends.
pub fn word_end(text: &[u8]) -> WordEnd
    ensures { IsWordEnd text.now result.end result.has_control }
{
    match special_place(text) {
        None => WordEnd {
            end: text.len(),
            has_control: false,
        },
        Some(end) => {
            if ends_word(text[end]) {
                WordEnd {
                    end,
                    has_control: false,
                }
            } else {
                WordEnd {
                    end: parting_place(text),
                    has_control: true,
                }
            }
        }
    }
}

/// Whether a front has a control byte, where it is known whether the whole has.
pub fn has_control_in(whole: bool, front: &[u8]) -> bool
    ensures { (all : List ℕ) → IsFrontOf front.now all → whole ≡ list_any is_control all → result ≡ list_any is_control front.now }
{
    if whole { has_control(front) } else { false }
}

/// Whether a blank or a tab stands at this place.
pub fn has_blank_at(text: &[u8], place: usize) -> bool
    ensures { result ≡ has_blank_at text.now place }
{
    match text.get(place) {
        Some(b' ' | b'\t') => true,
        _ => false,
    }
}

/// Whether a `#` stands at this place.
fn has_hash_at(text: &[u8], place: usize) -> bool
    ensures { result ≡ has_hash_at text.now place }
{
    match text.get(place) {
        Some(b'#') => true,
        _ => false,
    }
}

/// The last word of the first line of a text with the `\` at its end, before so many bytes.
pub fn last_line(text: &[u8], end: usize) -> &[u8]
    requires end { end ≡ position_or_len ends_word text.now }
    requires no_blank { has_blank_at text.now end ≡ false }
    ensures { IsLast text.now result.now end }
{
    let word = &text[..end];
    if has_hash_at(text, end) {
        word
    } else {
        strip_return(word)
    }
}

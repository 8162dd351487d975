//! Words of lines, names out of words, and phases out of comments.
ghost use Rattle.std.specs.Prelude.{◌≡◌, ◌++◌, IfOk, OnOk, map};
ghost use Rattle.std.specs.List.{AllByRecursion, before_first, list_any, position};
ghost use Rattle.std.specs.Option.{option_to_list};
ghost use Rattle.std.specs.Str.{str_to_ascii_lowercase};
ghost use Rattle.dom_base.specs.Lines.{is_blank, is_control, words, IsLowerWord};
ghost use Rattle.dom_base.specs.Names.{IsNetName};
ghost use Rattle.deck.specs.DeckText.{phase_of, signed_phase};
ghost use Rattle.spice_read.specs.Readers.{begins_phase, is_unplain, sign_given};

use crate::lines::{front_word, is_blank, same_letters};
use deck::Phase;
use dom_base::{NetName, OutOfMemory, cut_words, has_control, name_in_lower_case};
use std::alloc::Global;

/// Whether the byte is no letter, digit or sign of ASCII: each byte that parts words is one, and each control byte.
fn is_unplain(byte: u8) -> bool
    ensures { result ≡ is_unplain byte }
{
    byte < b'!' || b'~' < byte
}

/// The place of the first such byte.
fn unplain_place(line: &[u8]) -> Option<usize>
    ensures { result ≡ position is_unplain line.now }
{
    line.iter().position(|byte| is_unplain(*byte))
}

/// The bytes before the first blank or tab, and whether there is a control byte among them.
pub fn front_piece(line: &[u8]) -> (&[u8], bool)
    ensures word { result.0.now ≡ before_first is_blank line.now }
    ensures control { result.1 ≡ list_any is_control result.0.now }
{
    match unplain_place(line) {
        None => (line, false),
        Some(end) => {
            if is_blank(line[end]) {
                return (&line[..end], false);
            }
            let word = front_word(line);
            (word, has_control(word))
        }
    }
}

/// The word in lower case, as the name of a net.
pub fn net_name(alloc: Global, word: &[u8]) -> Result<NetName, OutOfMemory>
    requires { IsNetName (str_to_ascii_lowercase word.now) }
    ensures { IfOk result (λ name. name ≡ str_to_ascii_lowercase word.now) }
{
    Ok(NetName(name_in_lower_case(alloc, word)?))
}

/// Whether the sign is `+`, where it is `+` or `-`.
fn sign_given(sign: &[u8]) -> Option<bool>
    ensures { result ≡ sign_given (str_to_ascii_lowercase sign.now) }
{
    if same_letters(sign, b"+") {
        Some(true)
    } else if same_letters(sign, b"-") {
        Some(false)
    } else {
        None
    }
}

fn signed_phase(alloc: Global, name: &[u8], sign: &[u8]) -> Result<Option<Phase>, OutOfMemory>
    requires { IsNetName (str_to_ascii_lowercase name.now) }
    ensures { IfOk result (λ phase. phase ≡ signed_phase (str_to_ascii_lowercase name.now) (str_to_ascii_lowercase sign.now)) }
{
    match sign_given(sign) {
        Some(plus) => {
            let net = net_name(alloc, name)?;
            Ok(Some(Phase { net, plus }))
        }
        None => Ok(None),
    }
}

/// Whether these are the words before the sign of a phase.
fn is_phase(star: &[u8], word: &[u8], name: &[u8]) -> bool
    ensures { result ≡ begins_phase (str_to_ascii_lowercase star.now) (str_to_ascii_lowercase word.now) (str_to_ascii_lowercase name.now) }
{
    same_letters(star, b"*") && same_letters(word, b"phase") && !has_control(name)
}

/// The phase that the words of a comment give.
fn phase_of(alloc: Global, words: &[&[u8]]) -> Result<Option<Phase>, OutOfMemory>
    requires { AllByRecursion IsLowerWord (map (λ w. str_to_ascii_lowercase w.now) words.now) }
    ensures { IfOk result (λ phase. phase ≡ phase_of (map (λ w. str_to_ascii_lowercase w.now) words.now)) }
{
    match words {
        [star, word, name, sign] => {
            if is_phase(star, word, name) {
                signed_phase(alloc, name, sign)
            } else {
                Ok(None)
            }
        }
        _ => Ok(None),
    }
}

/// Appends the phase of a line, where it gives one.
pub fn push_phase(alloc: Global, phases: &mut Vec<Phase>, line: &[u8]) -> Result<(), OutOfMemory>
    ensures { OnOk result (phases.new.items ≡ phases.old.items ++ option_to_list (phase_of (words (str_to_ascii_lowercase line.now)))) }
{
    let words = cut_words(alloc, line)?;
    match phase_of(alloc, &words)? {
        Some(phase) => Ok(phases.push(phase)?),
        None => Ok(()),
    }
}

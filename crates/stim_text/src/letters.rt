//! The letters of a line.
ghost use Rattle.std.specs.Prelude.{◌≡◌, ◌==◌, ◌++◌, OnOk, MatchOption, true, map};
ghost use Rattle.stim_text.specs.Stimuli.{letters_of, is_pin_letter, are_letters, has_width, has_stim_fault, is_dash};
ghost use Rattle.stim_text.specs.LinesRead.{ArePinsPushed, is_good};

use crate::StimKind;
use dom_base::strip_comment;
use std::alloc::AllocError;

/// Makes a list that of the bytes of a line outside its comment, without blanks and tabs.
pub fn take_letters(letters: &mut Vec<u8>, line: &[u8]) -> Result<(), AllocError>
    ensures { OnOk result (letters.new.items ≡ letters_of line.now) }
{
    letters.clear();
    let kept = strip_comment(line);
    for byte in kept {
        if *byte != b' ' && *byte != b'\t' {
            letters.push(*byte)?;
        }
    }
    Ok(())
}

/// The fault of letters for this number of pins, if they have one.
pub fn fault_of(letters: &[u8], width: u32) -> Option<StimKind>
    ensures { MatchOption result (is_good width letters.now ≡ true) (λ kind. has_stim_fault width kind letters.now ≡ true) }
{
    if !are_letters(letters, width) {
        Some(StimKind::BadLetter)
    } else if !has_width(letters, width) {
        Some(StimKind::BadLength)
    } else {
        None
    }
}

/// Whether bytes are letters without fault for this number of pins, and no others.
pub fn is_good(letters: &[u8], width: u32) -> bool
    ensures { result ≡ is_good width letters.now }
{
    are_letters(letters, width) && has_width(letters, width)
}

fn are_letters(letters: &[u8], width: u32) -> bool
    ensures { result ≡ are_letters width letters.now }
{
    for letter in letters {
        if !is_pin_letter(*letter, width) {
            return false;
        }
    }
    true
}

fn is_pin_letter(letter: u8, width: u32) -> bool
    ensures { result ≡ is_pin_letter width letter }
{
    letter == b'0' || letter == b'1' || (width == 0 && letter == b'-')
}

fn has_width(letters: &[u8], width: u32) -> bool
    ensures { result ≡ has_width width letters.now }
{
    if width == 0 {
        is_dash(letters)
    } else {
        letters.len() as u64 == width as u64
    }
}

fn is_dash(letters: &[u8]) -> bool
    ensures { result ≡ is_dash letters.now }
{
    letters.len() == 1 && letters[0] == b'-'
}

/// Appends the bits of letters that have no fault.
pub fn push_pins(bits: &mut Vec<bool>, letters: &[u8], width: u32) -> Result<(), AllocError>
    requires { is_good width letters.now ≡ true }
    ensures { OnOk result (ArePinsPushed width letters.now bits.old.items bits.new.items) }
{
    if width == 0 {
        return Ok(());
    }
    push_bits(bits, letters)?;
    Ok(())
}

/// Appends a bit for each letter.
fn push_bits(bits: &mut Vec<bool>, letters: &[u8]) -> Result<(), AllocError>
    ensures { OnOk result (bits.new.items ≡ bits.old.items ++ map (λ b. b == 49) letters.now) }
{
    for letter in letters {
        bits.push(*letter == b'1')?;
    }
    Ok(())
}

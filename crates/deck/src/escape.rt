//! Names of any bytes as parts of the names of nets.
ghost use Rattle.std.specs.Prelude.{◌≡◌, ◌<◌, ◌++◌, IfOk, OnOk};
ghost use Rattle.deck.specs.Escapes.{escaped, escaped_byte, hexadecimal_digit as digit_of, EscapesDiffer};

use dom_base::OutOfMemory;
use std::alloc::Global;

/// The escape of a name: lower-case letters and digits stay, and each other byte becomes `_` and
/// two lower-case hexadecimal digits.
pub fn esc(alloc: Global, name: &[u8]) -> Result<Vec<u8>, OutOfMemory>
    ensures { IfOk result (λ text. text.items ≡ escaped name.now) }
{
    let mut text = Vec::new(alloc);
    for &byte in name {
        push_escaped(&mut text, byte)?;
    }
    Ok(text)
}

fn push_escaped(text: &mut Vec<u8>, byte: u8) -> Result<(), OutOfMemory>
    ensures { OnOk result (text.new.items ≡ text.old.items ++ escaped_byte byte) }
{
    if byte.is_ascii_lowercase() || byte.is_ascii_digit() {
        text.push(byte)?;
    } else {
        text.push(b'_')?;
        text.push(hexadecimal_digit(byte / 16))?;
        text.push(hexadecimal_digit(byte % 16))?;
    }
    Ok(())
}

fn hexadecimal_digit(number: u8) -> u8
    requires { number < 16 }
    ensures { result ≡ digit_of number }
{
    if number < 10 {
        b'0' + number
    } else {
        b'a' - 10 + number
    }
}

/// Different names have different escapes.
pub fn escapes_differ()
    ensures { EscapesDiffer }
{}

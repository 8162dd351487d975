//! Bytes and numbers, appended to a text or a name. Each call fails only where it runs out of memory, and then that is as it was.
ghost use Rattle.std.specs.Prelude.{◌≡◌, ◌++◌, ◌∷◌, OnErr, OnOk};
ghost use Rattle.std.specs.Fmt.{decimal};

use crate::{NameBytes, OutOfMemory};
use itoa::Buffer;

/// Appends bytes.
pub fn append(text: &mut Vec<u8>, bytes: &[u8]) -> Result<(), OutOfMemory>
    ensures bytes { OnOk result (text.new.items ≡ text.old.items ++ bytes.now) }
    ensures unchanged { OnErr result (text.new.items ≡ text.old.items) }
{
    text.extend_from_slice(bytes)?;
    Ok(())
}

/// Appends a number in decimal digits.
pub fn append_number(text: &mut Vec<u8>, number: u64) -> Result<(), OutOfMemory>
    ensures digits { OnOk result (text.new.items ≡ text.old.items ++ decimal number) }
    ensures unchanged { OnErr result (text.new.items ≡ text.old.items) }
{
    let mut buffer = Buffer::new();
    append(text, buffer.format(number).as_bytes())
}

/// Appends a blank and a word.
pub fn append_word(text: &mut Vec<u8>, word: &[u8]) -> Result<(), OutOfMemory>
    ensures word { OnOk result (text.new.items ≡ text.old.items ++ 32 ∷ word.now) }
    ensures unchanged { OnErr result (text.new.items ≡ text.old.items) }
{
    let before = text.len();
    text.push(b' ')?;
    match append(text, word) {
        Ok(()) => Ok(()),
        Err(failed) => {
            text.truncate(before);
            Err(failed)
        }
    }
}

/// Appends bytes to those of a name.
pub fn append_to_name(name: &mut NameBytes, bytes: &[u8]) -> Result<(), OutOfMemory>
    ensures bytes { OnOk result (name.new.items ≡ name.old.items ++ bytes.now) }
    ensures unchanged { OnErr result (name.new.items ≡ name.old.items) }
{
    name.extend_from_slice(bytes)?;
    Ok(())
}

/// Appends a number in decimal digits to the bytes of a name.
pub fn append_number_to_name(name: &mut NameBytes, number: u64) -> Result<(), OutOfMemory>
    ensures digits { OnOk result (name.new.items ≡ name.old.items ++ decimal number) }
    ensures unchanged { OnErr result (name.new.items ≡ name.old.items) }
{
    let mut buffer = Buffer::new();
    append_to_name(name, buffer.format(number).as_bytes())
}

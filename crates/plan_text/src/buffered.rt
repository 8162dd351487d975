//! A text that grows by short pieces.
ghost use Rattle.std.specs.Prelude.{◌≡◌, ◌≤◌, ◌++◌, ◌∷◌, [], IfOk, OnErr, OnOk, length};
ghost use Rattle.std.specs.Fmt.{decimal};
ghost use Rattle.plan_text.specs.ShortTexts.{short_bytes};

use crate::held::HeldBytes;
use crate::short::{MOST_SHORT, ShortText};
use dom_base::{OutOfMemory, append};
use itoa::Buffer;
use std::marker::Model;

/// A text, and bytes behind it that are held until there is no room for more.
#[derive(Drop)]
pub struct BufferedText {
    text: Vec<u8>,
    held: HeldBytes,
}

impl Model for BufferedText {
    ghost use Rattle.std.specs.Prelude.{ℕ, List, ◌++◌};

    ghost Value = { List ℕ };

    ghost view = { λ t. t.text.items ++ t.held };
}

impl BufferedText {
    /// A text to which nothing is appended yet.
    pub fn new(text: Vec<u8>) -> BufferedText
        ensures { result ≡ text.items }
    {
        BufferedText {
            text,
            held: HeldBytes::new(),
        }
    }

    /// The bytes.
    pub fn into_text(self) -> Result<Vec<u8>, OutOfMemory>
        ensures { IfOk result (λ text. text.items ≡ self) }
    {
        let BufferedText { text, held } = self;
        let mut text = text;
        append(&mut text, held.as_slice())?;
        Ok(text)
    }

    /// How many bytes there are.
    pub fn len(&self) -> u64
        ensures { result ≡ length self.now }
    {
        let held = self.held.as_slice().len();
        self.text.len() as u64 + held as u64
    }

    /// Appends bytes.
    #[inline(always)]
    pub fn put(&mut self, bytes: &[u8]) -> Result<(), OutOfMemory>
        ensures bytes { OnOk result (self.new ≡ self.old ++ bytes.now) }
        ensures unchanged { OnErr result (self.new ≡ self.old) }
    {
        if bytes.len() > self.held.room() {
            return put_behind(&mut self.text, &mut self.held, bytes);
        }
        self.held.extend(bytes);
        Ok(())
    }

    /// Appends a byte.
    #[inline(always)]
    pub fn push(&mut self, byte: u8) -> Result<(), OutOfMemory>
        ensures bytes { OnOk result (self.new ≡ self.old ++ byte ∷ []) }
        ensures unchanged { OnErr result (self.new ≡ self.old) }
    {
        if self.held.room() == 0 {
            return put_behind(&mut self.text, &mut self.held, &[byte]);
        }
        self.held.push(byte);
        Ok(())
    }

    /// Appends the bytes of a short text.
    #[inline(always)]
    pub fn put_short(&mut self, short: &ShortText) -> Result<(), OutOfMemory>
        ensures bytes { OnOk result (self.new ≡ self.old ++ short_bytes short.now) }
        ensures unchanged { OnErr result (self.new ≡ self.old) }
    {
        if short.count > MOST_SHORT {
            return put_behind(&mut self.text, &mut self.held, &short.bytes);
        }
        if short.count > self.held.room() {
            return put_behind(&mut self.text, &mut self.held, &short.bytes[..short.count]);
        }
        self.held.extend_short(short);
        Ok(())
    }

    /// Appends a blank and a short word.
    #[inline(always)]
    pub fn put_short_word(&mut self, word: &ShortText) -> Result<(), OutOfMemory>
        ensures word { OnOk result (self.new ≡ self.old ++ 32 ∷ short_bytes word.now) }
        ensures longer { length self.old ≤ length self.new }
    {
        self.push(b' ')?;
        self.put_short(word)
    }

    /// Appends a number in decimal digits.
    #[inline(always)]
    pub fn put_number(&mut self, number: u64) -> Result<(), OutOfMemory>
        ensures digits { OnOk result (self.new ≡ self.old ++ decimal number) }
        ensures unchanged { OnErr result (self.new ≡ self.old) }
    {
        let mut buffer = Buffer::new();
        self.put(buffer.format(number).as_bytes())
    }

    /// Appends a blank and a word.
    #[inline(always)]
    pub fn put_word(&mut self, word: &[u8]) -> Result<(), OutOfMemory>
        ensures word { OnOk result (self.new ≡ self.old ++ 32 ∷ word.now) }
        ensures longer { length self.old ≤ length self.new }
    {
        self.push(b' ')?;
        self.put(word)
    }
}

/// Appends what is held to a text, and then bytes.
#[inline(never)]
fn put_behind(text: &mut Vec<u8>, held: &mut HeldBytes, bytes: &[u8]) -> Result<(), OutOfMemory>
    ensures bytes { OnOk result (text.new.items ++ held.new ≡ (text.old.items ++ held.old) ++ bytes.now) }
    ensures unchanged { OnErr result (text.new.items ++ held.new ≡ text.old.items ++ held.old) }
{
    append(text, held.as_slice())?;
    held.clear();
    append(text, bytes)
}

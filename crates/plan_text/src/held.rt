//! Bytes that are held in an array.
ghost use Rattle.std.specs.Prelude.{◌≡◌, ◌≤◌, ◌<◌, ◌+◌, ◌++◌, ◌∷◌, [], length};
ghost use Rattle.plan_text.specs.ShortTexts.{short_bytes};

use crate::short::{MOST_SHORT, ShortText};
use std::marker::Model;

/// How many bytes are held at most.
pub const MOST_HELD: usize = 2048;

/// How many bytes the array has: a short text is written into it as a whole array.
const HELD_ROOM: usize = 2064;

/// Bytes in an array.
#[derive(Drop)]
pub struct HeldBytes {
    bytes: [u8; HELD_ROOM],
    count: usize,
}

impl Model for HeldBytes {
    ghost use Rattle.std.specs.Prelude.{ℕ, ◌≤◌, List, take};

    ghost Value = { List ℕ };

    ghost view = { λ h. take h.count h.bytes };

    ghost invariant = { λ h. h.count ≤ 2048 };
}

impl HeldBytes {
    /// None.
    pub fn new() -> HeldBytes
        ensures { result ≡ [] }
    {
        HeldBytes {
            bytes: [0; HELD_ROOM],
            count: 0,
        }
    }

    /// How many more may be held.
    #[inline(always)]
    pub fn room(&self) -> usize
        ensures { result + length self.now ≡ 2048 }
    {
        MOST_HELD - self.count
    }

    /// The bytes.
    pub fn as_slice(&self) -> &[u8]
        ensures { result.now ≡ self.now }
    {
        &self.bytes[..self.count]
    }

    /// Drops them.
    pub fn clear(&mut self)
        ensures { self.new ≡ [] }
    {
        self.count = 0;
    }

    /// Holds one more byte.
    #[inline(always)]
    pub fn push(&mut self, byte: u8)
        requires { length self.old < 2048 }
        ensures { self.new ≡ self.old ++ byte ∷ [] }
    {
        let count = self.count;
        self.bytes[count] = byte;
        self.count = count + 1;
    }

    /// Holds more bytes.
    #[inline(always)]
    pub fn extend(&mut self, more: &[u8])
        requires { length self.old + length more.now ≤ 2048 }
        ensures { self.new ≡ self.old ++ more.now }
    {
        let mut count = self.count;
        'bytes: for byte in more {
            self.bytes[count] = *byte;
            count += 1;
        }
        self.count = count;
    }
    /// Holds the bytes of a short text.
    #[inline(always)]
    pub fn extend_short(&mut self, short: &ShortText)
        requires few { short.now.count ≤ 16 }
        requires room { length self.old + short.now.count ≤ 2048 }
        ensures { self.new ≡ self.old ++ short_bytes short.now }
    {
        let count = self.count;
        self.bytes[count..count + MOST_SHORT].copy_from_slice(&short.bytes);
        self.count = count + short.count;
    }
}

//! Short texts, which are copied as whole arrays.
ghost use Rattle.std.specs.Prelude.{◌≡◌, ◌≤◌, ◌<◌, ◌+◌, ◌++◌, ◌∷◌, [], IfSome, length};
ghost use Rattle.plan_text.specs.ShortTexts.{short_bytes};

/// How many bytes a short text has at most.
pub const MOST_SHORT: usize = 16;

/// So many bytes, at the front of an array.
#[derive(Clone, Copy)]
pub struct ShortText {
    pub bytes: [u8; MOST_SHORT],
    pub count: usize,
}

impl ShortText {
    /// No bytes.
    #[inline(always)]
    pub fn new() -> ShortText
        ensures none { short_bytes result ≡ [] }
        ensures count { result.count ≡ 0 }
    {
        ShortText {
            bytes: [0; MOST_SHORT],
            count: 0,
        }
    }

    /// These bytes, which are few.
    #[inline(always)]
    pub fn of(bytes: &[u8]) -> ShortText
        requires { length bytes.now ≤ 16 }
        ensures bytes { short_bytes result ≡ bytes.now }
        ensures count { result.count ≡ length bytes.now }
    {
        let mut short = ShortText::new();
        short.extend(bytes);
        short
    }

    /// These bytes with others behind them, where they are few.
    pub fn joined(front: &[u8], back: &[u8]) -> Option<ShortText>
        ensures { IfSome result (λ short. short_bytes short ≡ front.now ++ back.now) }
    {
        if front.len() > MOST_SHORT || back.len() > MOST_SHORT - front.len() {
            return None;
        }
        let mut short = ShortText::of(front);
        short.extend(back);
        Some(short)
    }

    /// Adds one more byte.
    #[inline(always)]
    pub fn push(&mut self, byte: u8)
        requires { self.old.count < 16 }
        ensures bytes { short_bytes self.new ≡ short_bytes self.old ++ byte ∷ [] }
        ensures count { self.new.count ≡ self.old.count + 1 }
    {
        let count = self.count;
        self.bytes[count] = byte;
        self.count = count + 1;
    }

    /// Adds more bytes.
    #[inline(always)]
    pub fn extend(&mut self, more: &[u8])
        requires { self.old.count + length more.now ≤ 16 }
        ensures bytes { short_bytes self.new ≡ short_bytes self.old ++ more.now }
        ensures count { self.new.count ≡ self.old.count + length more.now }
    {
        let mut count = self.count;
        'bytes: for byte in more {
            self.bytes[count] = *byte;
            count += 1;
        }
        self.count = count;
    }
}

/// The bytes of a short text.
#[inline(always)]
pub fn short_slice(short: &ShortText) -> &[u8]
    ensures { result.now ≡ short_bytes short.now }
{
    &short.bytes[..short.count.min(MOST_SHORT)]
}

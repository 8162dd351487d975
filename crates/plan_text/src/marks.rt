//! The marks of cards: `m` and the number of the card.
ghost use Rattle.std.specs.Prelude.{ℕ, ◌≡◌, ◌≤◌, ◌<◌, ◌+◌, ◌^◌, ◌++◌, ◌∷◌, [], IfSome, List, OnOk, codes, length, true};
ghost use Rattle.std.specs.Fmt.{decimal};
ghost use Rattle.plan_text.specs.ShortTexts.{short_bytes};

use crate::buffered::BufferedText;
use crate::short::{MOST_SHORT, ShortText};
use dom_base::OutOfMemory;
use itoa::Buffer;

/// The mark of the card of this number, where it is short.
fn mark_of(number: u64) -> Option<ShortText>
    ensures { IfSome result (λ mark. short_bytes mark ≡ codes "m" ++ decimal number) }
{
    let mut buffer = Buffer::new();
    ShortText::joined(b"m", buffer.format(number).as_bytes())
}

/// Puts the next digit in the place of the last byte, where that is a digit below 9, and says whether it was.
#[inline(always)]
fn raise_last_digit(short: &mut ShortText) -> bool
    ensures { result ≡ true → (front : List ℕ) × (digit : ℕ) × (short_bytes short.old ≡ front ++ digit ∷ []) × (digit < 57)
        × (short_bytes short.new ≡ front ++ (digit + 1) ∷ []) }
{
    let count = short.count;
    if count == 0 || count > MOST_SHORT {
        return false;
    }
    let digit = short.bytes[count - 1];
    if digit >= b'9' {
        return false;
    }
    short.bytes[count - 1] = digit + 1;
    true
}

/// Makes the mark of the card of this number, where it is there, that of the next card, which may be there.
#[inline(always)]
pub fn next_mark(mark: &mut Option<ShortText>, number: u64)
    requires room { number + 1 < 2 ^ 64 }
    requires mark { IfSome mark.old (λ mark. short_bytes mark ≡ codes "m" ++ decimal number) }
    ensures { IfSome mark.new (λ mark. short_bytes mark ≡ codes "m" ++ decimal (number + 1)) }
{
    if let Some(short) = mark {
        if raise_last_digit(short) {
            return;
        }
    }
    *mark = mark_of(number + 1);
}

/// Appends the mark of the card of this number, which may be there.
#[inline(always)]
pub fn put_mark(
    text: &mut BufferedText,
    mark: &Option<ShortText>,
    number: u64,
) -> Result<(), OutOfMemory>
    requires mark { IfSome mark.now (λ mark. short_bytes mark ≡ codes "m" ++ decimal number) }
    ensures mark { OnOk result (text.new ≡ text.old ++ codes "m" ++ decimal number) }
    ensures longer { length text.old ≤ length text.new }
{
    match mark {
        Some(short) => text.put_short(short),
        None => {
            text.put(b"m")?;
            text.put_number(number)
        }
    }
}

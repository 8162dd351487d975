//! Nets of a deck by the parts of their names.
ghost use Rattle.std.specs.Prelude.{◌≡◌, ◌≤◌, ◌++◌, ◌∷◌, IfSome, OnOk, codes, length};
ghost use Rattle.std.specs.Fmt.{decimal};
ghost use Rattle.deck_form.specs.DeckNets.{own_net, rail_net};
ghost use Rattle.domino_cell.specs.NamedTrees.{inner_net};
ghost use Rattle.plan_text.specs.Nets.{listed_net, net_text, tree_front};
ghost use Rattle.plan_text.specs.ShortTexts.{short_bytes};

use crate::buffered::BufferedText;
use crate::short::{ShortText, short_slice};
use dom_base::{NetName, OutOfMemory, append, append_number};
use dual_rail::Rail;
use itoa::Buffer;

/// A net by its name: these bytes; bytes with a number behind them; bytes with the digits of the number of a cell behind them;
/// the inner net of the cell whose number has these digits, by its own number; or few bytes.
#[derive(Clone, Copy)]
pub enum Net<'a> {
    Named(&'a [u8]),
    Numbered(&'a [u8], u32),
    OfCell(&'a [u8], &'a [u8]),
    Inner(&'a [u8], u32),
    Short(ShortText),
}

impl<'a> Net<'a> {
    /// The net of this name.
    pub fn named(name: &'a [u8]) -> Net<'a>
        ensures { net_text result ≡ name.now }
    {
        Net::Named(name)
    }

    /// The net of this name, which is short.
    #[inline(always)]
    pub fn fixed(name: &'a [u8]) -> Net<'a>
        requires { length name.now ≤ 16 }
        ensures { net_text result ≡ name.now }
    {
        Net::Short(ShortText::of(name))
    }

    /// The net whose name is this with a number behind.
    pub fn numbered(front: &'a [u8], number: u32) -> Net<'a>
        ensures { net_text result ≡ front.now ++ decimal number }
    {
        Net::Numbered(front, number)
    }

    /// The net whose name is this with the digits of a cell's number behind.
    pub fn of_cell(front: &'a [u8], digits: &'a [u8]) -> Net<'a>
        ensures { net_text result ≡ front.now ++ digits.now }
    {
        match ShortText::joined(front, digits) {
            Some(short) => Net::Short(short),
            None => Net::OfCell(front, digits),
        }
    }

    /// The inner net of this number of the cell whose number has these digits.
    pub fn inner(digits: &'a [u8], number: u32) -> Net<'a>
        ensures { net_text result ≡ inner_net (tree_front digits.now) number }
    {
        match short_inner(digits, number) {
            Some(short) => Net::Short(short),
            None => Net::Inner(digits, number),
        }
    }
}

/// The name of the inner net of this number of the cell whose number has these digits, where it is short.
fn short_inner(digits: &[u8], number: u32) -> Option<ShortText>
    ensures { IfSome result (λ short. short_bytes short ≡ inner_net (tree_front digits.now) number) }
{
    let mut buffer = Buffer::new();
    let last = buffer.format(number).as_bytes();
    if digits.len() > 8 || last.len() > 6 {
        return None;
    }
    let mut short = ShortText::of(b"t");
    short.extend(digits);
    short.push(b'_');
    short.extend(last);
    Some(short)
}

/// Appends a blank and the name of a net.
#[inline(always)]
pub fn put_net(text: &mut BufferedText, net: &Net<'_>) -> Result<(), OutOfMemory>
    ensures name { OnOk result (text.new ≡ text.old ++ 32 ∷ net_text net.now) }
    ensures longer { length text.old ≤ length text.new }
{
    if let Net::Short(name) = net {
        return text.put_short_word(name);
    }
    put_any_net(text, net)
}

/// The same, by a call: most nets are short, and none is made for them.
#[inline(never)]
fn put_any_net(text: &mut BufferedText, net: &Net<'_>) -> Result<(), OutOfMemory>
    ensures name { OnOk result (text.new ≡ text.old ++ 32 ∷ net_text net.now) }
    ensures longer { length text.old ≤ length text.new }
{
    match net {
        Net::Short(name) => text.put_short_word(name),
        Net::Named(name) => text.put_word(name),
        Net::Numbered(front, number) => {
            text.put_word(front)?;
            text.put_number(u64::from(*number))
        }
        Net::OfCell(front, digits) => {
            text.put_word(front)?;
            text.put(digits)
        }
        Net::Inner(digits, number) => {
            text.put_word(b"t")?;
            put_inner(text, digits, *number)
        }
    }
}

/// Appends the digits of the number of a cell, `_`, and the number of an inner net.
fn put_inner(text: &mut BufferedText, digits: &[u8], number: u32) -> Result<(), OutOfMemory>
    ensures name { OnOk result (text.new ≡ ((text.old ++ digits.now) ++ codes "_") ++ decimal number) }
    ensures longer { length text.old ≤ length text.new }
{
    text.put(digits)?;
    text.push(b'_')?;
    text.put_number(u64::from(number))
}

/// The net at a place: one of these names, or behind them this one with a number from 0 on.
pub fn listed_net<'a>(names: &'a [NetName], front: &'a [u8], place: u32) -> Net<'a>
    ensures { net_text result ≡ listed_net names.now front.now place }
{
    if (place as usize) < names.len() {
        Net::named(names[place as usize].as_bytes())
    } else {
        Net::numbered(front, place - names.len() as u32)
    }
}

/// The own net of a leaf: a pin, or the output of a latch.
fn own_net<'a>(pins: &'a [NetName], leaf: u32) -> Net<'a>
    ensures { net_text result ≡ own_net pins.now leaf }
{
    listed_net(pins, b"q", leaf)
}

/// The net of a leaf as it is, or of its opposite.
pub fn rail_net<'a>(pins: &'a [NetName], rail: Rail) -> Net<'a>
    ensures { net_text result ≡ rail_net pins.now rail.leaf rail.plus }
{
    if rail.plus {
        own_net(pins, rail.leaf)
    } else {
        Net::numbered(b"c", rail.leaf)
    }
}

/// Appends the name of a net to bytes.
pub fn append_net(bytes: &mut Vec<u8>, net: &Net<'_>) -> Result<(), OutOfMemory>
    ensures { OnOk result (bytes.new.items ≡ bytes.old.items ++ net_text net.now) }
{
    match net {
        Net::Short(name) => append(bytes, short_slice(name)),
        Net::Named(name) => append(bytes, name),
        Net::Numbered(front, number) => {
            append(bytes, front)?;
            append_number(bytes, u64::from(*number))
        }
        Net::OfCell(front, digits) => {
            append(bytes, front)?;
            append(bytes, digits)
        }
        Net::Inner(digits, number) => {
            append(bytes, b"t")?;
            append(bytes, digits)?;
            append(bytes, b"_")?;
            append_number(bytes, u64::from(*number))
        }
    }
}

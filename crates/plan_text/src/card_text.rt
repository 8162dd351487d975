//! Texts to which the cards of devices are appended.
ghost use Rattle.std.specs.Prelude.{◌≡◌, ◌≤◌, ◌<◌, ◌+◌, ◌++◌, ◌∷◌, [], IfSome, OnOk, codes, length};
ghost use Rattle.std.specs.Fmt.{decimal};
ghost use Rattle.deck.specs.DeckText.{model_word};
ghost use Rattle.plan_text.specs.CardTexts.{named_card, with_named_cards};
ghost use Rattle.plan_text.specs.Nets.{net_text};
ghost use Rattle.plan_text.specs.ShortTexts.{short_bytes};
ghost use Rattle.spice_text.specs.Text.{bulk_of};

use crate::buffered::BufferedText;
use crate::marks::{next_mark, put_mark};
use crate::net::{Net, put_net};
use crate::short::ShortText;
use dom_base::{Kind, OutOfMemory};
use std::marker::Model;

/// A text, the number of its next card, and the mark of that card where it is there.
#[derive(Drop)]
pub struct CardText {
    text: BufferedText,
    next: u64,
    mark: Option<ShortText>,
}

impl Model for CardText {
    ghost use Rattle.std.specs.Prelude.{◌≡◌, ◌≤◌, ◌++◌, IfSome, codes, length};
    ghost use Rattle.std.specs.Fmt.{decimal};
    ghost use Rattle.plan_text.specs.CardTexts.{CardTextData};
    ghost use Rattle.plan_text.specs.ShortTexts.{short_bytes};

    ghost Value = { CardTextData };

    ghost view = { λ t. record { text = t.text; next = t.next } };

    // each card has a byte
    ghost invariant = { λ t.
        (t.next ≤ length t.text) × IfSome t.mark (λ mark. short_bytes mark ≡ codes "m" ++ decimal t.next) };
}

impl CardText {
    /// A text without cards.
    pub fn new(text: BufferedText) -> CardText
        ensures { result ≡ record { text = text; next = 0 } }
    {
        CardText {
            text,
            next: 0,
            mark: None,
        }
    }

    /// The text.
    pub fn into_text(self) -> BufferedText
        ensures { result ≡ self.text }
    {
        let CardText {
            text,
            next: _,
            mark: _,
        } = self;
        text
    }

    /// Appends the card of a device. The one error is out of memory, and then a part of the card may stand at the end.
    pub fn put(
        &mut self,
        kind: Kind,
        drain: Net<'_>,
        gate: Net<'_>,
        source: Net<'_>,
    ) -> Result<(), OutOfMemory>
        ensures { OnOk result (self.new ≡ with_named_cards self.old
            (record { kind = kind; drain = net_text drain.entry; gate = net_text gate.entry; source = net_text source.entry } ∷ [])) }
    {
        put_card(
            &mut self.text,
            &self.mark,
            self.next,
            kind,
            &drain,
            &gate,
            &source,
        )?;
        let _length = self.text.len();
        next_mark(&mut self.mark, self.next);
        self.next += 1;
        Ok(())
    }
}

/// The bulk and the model of a device as its card has them, with the end of the line.
#[inline(always)]
fn short_end(kind: Kind) -> ShortText
    ensures { short_bytes result ≡ 32 ∷ bulk_of kind ++ 32 ∷ model_word kind ++ 10 ∷ [] }
{
    match kind {
        Kind::N => ShortText::of(b" vss nch\n"),
        Kind::P => ShortText::of(b" vdd pch\n"),
        Kind::Keep => ShortText::of(b" vdd pkeep\n"),
    }
}

/// Appends the card of a device with its number, whose mark may be there.
#[inline(always)]
fn put_card(
    text: &mut BufferedText,
    mark: &Option<ShortText>,
    number: u64,
    kind: Kind,
    drain: &Net<'_>,
    gate: &Net<'_>,
    source: &Net<'_>,
) -> Result<(), OutOfMemory>
    requires mark { IfSome mark.now (λ mark. short_bytes mark ≡ codes "m" ++ decimal number) }
    ensures card { OnOk result (text.new ≡ text.old ++ named_card
        (number, record { kind = kind; drain = net_text drain.now; gate = net_text gate.now; source = net_text source.now })) }
    ensures longer { OnOk result (length text.old < length text.new) }
    ensures no_shorter { length text.old ≤ length text.new }
{
    put_mark(text, mark, number)?;
    put_net(text, drain)?;
    put_net(text, gate)?;
    put_net(text, source)?;
    text.put_short(&short_end(kind))?;
    Ok(())
}

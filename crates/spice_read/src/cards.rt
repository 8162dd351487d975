//! The cards of a text, each with its words cut once, and what a card is.
ghost use Rattle.std.specs.Prelude.{◌≡◌, ◌<◌, ◌++◌, ◌∷◌, ◌||◌, [], ℕ, IfOk, IsErrOf, OnOk, length, map};
ghost use Rattle.std.specs.List.{list_any};
ghost use Rattle.std.specs.Option.{option_to_list};
ghost use Rattle.std.specs.Str.{str_to_ascii_lowercase};
ghost use Rattle.dom_base.specs.Lines.{is_control, words};
ghost use Rattle.deck.specs.declared.fault.DeckKind.{DeckKind};
ghost use Rattle.deck.specs.declared.fault.DeckKind.TheVariants.{BadCard};
ghost use Rattle.deck.specs.DeckText.{phase_of};
ghost use Rattle.deck.specs.DeckCards.{has_first_word, has_equals, is_call, is_device, numbered_lines, passed_nets, port_names, unit_word, word_at};
ghost use Rattle.spice_read.specs.Forms.{card_form, device_form, known_kind, named_form};
ghost use Rattle.spice_read.specs.Readers.{continued_words, IsAtFirstCard, IsNextRead, IsStrayAt};

use crate::DeckFault;
use crate::lines::{Lines, begins_card, same_letters, strip_plus, unindent};
use crate::words::{front_piece, push_phase};
use deck::{DeckKind, Phase};
use dom_base::{Kind, OutOfMemory};
use std::alloc::Global;
use std::marker::Model;

/// What a card is: a device of this kind, the call of a subcircuit, a `.subckt`, a `.ends`, or a card
/// that adds nothing, `.model` or `.end`.
#[derive(Clone, Copy, Debug)]
pub enum Form {
    Device(Kind),
    Call,
    Subckt,
    Ends,
    Skipped,
}

/// A card: the number of its first line, from 1, its words, which are parts of the text, and whether
/// one of them has a control byte. Letters of upper case count as those of lower case.
#[derive(Drop)]
pub struct Card<'a> {
    pub number: u64,
    pub words: Vec<&'a [u8]>,
    pub unclean: bool,
}

impl<'a> Model for Card<'a> {
    ghost use Rattle.std.specs.Prelude.{◌≡◌, map};
    ghost use Rattle.std.specs.List.{list_any};
    ghost use Rattle.std.specs.Str.{str_to_ascii_lowercase};
    ghost use Rattle.dom_base.specs.Lines.{is_control};
    ghost use Rattle.deck.specs.DeckCards.{NumberedCard, word_at};

    ghost Value = { NumberedCard };

    ghost view = { λ c. record { number = c.number; words = map (λ w. str_to_ascii_lowercase w.now) c.words.items } };

    ghost invariant = { λ c. c.unclean ≡ list_any (list_any is_control) (map (λ w. str_to_ascii_lowercase w.now) c.words.items) };
}

/// The kind of device of its word.
fn kind_of(word: &[u8]) -> Option<Kind>
    ensures { result ≡ known_kind (str_to_ascii_lowercase word.now) }
{
    if same_letters(word, b"nch") {
        Some(Kind::N)
    } else if same_letters(word, b"pch") {
        Some(Kind::P)
    } else if same_letters(word, b"pkeep") {
        Some(Kind::Keep)
    } else {
        None
    }
}

fn has_equals(word: &[u8]) -> bool
    ensures { result ≡ has_equals (str_to_ascii_lowercase word.now) }
{
    word.iter().any(|b| *b == b'=')
}

/// Whether one of the two is true.
fn either(one: bool, other: bool) -> bool
    ensures { result ≡ (one || other) }
{
    one || other
}

impl<'a> Card<'a> {
    /// A card without words.
    pub fn new(alloc: Global) -> Card<'a> {
        Card {
            number: 0,
            words: Vec::new(alloc),
            unclean: false,
        }
    }

    /// Begins a card at the line of this number, without words.
    fn begin(&mut self, number: u64)
        ensures number { self.new.number ≡ number }
        ensures words { self.new.words ≡ [] }
    {
        self.number = number;
        self.words.clear();
        self.unclean = false;
    }

    /// Appends a word, of which it is known whether it has a control byte.
    fn push_word(&mut self, word: &'a [u8], unclean: bool) -> Result<(), OutOfMemory>
        requires { unclean ≡ list_any is_control word.now }
        ensures number { self.new.number ≡ self.old.number }
        ensures words { OnOk result (self.new.words ≡ self.old.words ++ str_to_ascii_lowercase word.now ∷ []) }
    {
        self.words.push(word)?;
        self.unclean = either(self.unclean, unclean);
        Ok(())
    }

    /// Appends the words of a line, which blanks and tabs part.
    fn push_words(&mut self, line: &'a [u8]) -> Result<(), OutOfMemory>
        ensures number { self.new.number ≡ self.old.number }
        ensures words { OnOk result (self.new.words ≡ self.old.words ++ words (str_to_ascii_lowercase line.now)) }
    {
        let mut rest = unindent(line);
        'words: while !rest.is_empty() {
            let (word, unclean) = front_piece(rest);
            self.push_word(word, unclean)?;
            rest = unindent(&rest[word.len()..]);
        }
        Ok(())
    }

    /// The word of this index, from 0, or no bytes where there is none.
    pub fn word(&self, index: usize) -> &[u8]
        ensures { str_to_ascii_lowercase result.now ≡ word_at self.now index }
    {
        match self.words.get(index) {
            Some(word) => word,
            None => &[],
        }
    }

    /// The ports that a `.subckt` names, behind the name of the subcircuit.
    pub fn ports(&self) -> &[&'a [u8]]
        ensures { map (λ w. str_to_ascii_lowercase w.now) result.now ≡ port_names self.now }
    {
        match self.words.as_slice() {
            [_, _, ports @ ..] => ports,
            _ => &[],
        }
    }

    /// The nets that a call passes, between its name and the name of the subcircuit.
    pub fn passed(&self) -> &[&'a [u8]]
        requires { 1 < length self.now.words }
        ensures { map (λ w. str_to_ascii_lowercase w.now) result.now ≡ passed_nets self.now }
    {
        let last = self.words.len() - 1;
        &self.words[1..last]
    }

    /// The subcircuit that a call names: the last word.
    pub fn unit(&self) -> &[u8]
        requires { 1 < length self.now.words }
        ensures { str_to_ascii_lowercase result.now ≡ unit_word self.now }
    {
        let last = self.words.len() - 1;
        self.word(last)
    }

    /// The fault of this kind at the card.
    pub fn fault(&self, kind: DeckKind) -> DeckFault
        ensures { result ≡ DeckFault.At self.now.number kind }
    {
        DeckFault::At {
            line: self.number,
            kind,
        }
    }

    fn has_first_word(&self, word: &[u8]) -> bool
        ensures { result ≡ has_first_word (str_to_ascii_lowercase word.now) self.now }
    {
        same_letters(self.word(0), word)
    }

    fn has_control(&self) -> bool
        ensures { result ≡ list_any (list_any is_control) self.now.words }
    {
        self.unclean
    }

    fn has_equals(&self) -> bool
        ensures { result ≡ list_any has_equals self.now.words }
    {
        self.words.iter().any(|word| has_equals(word))
    }

    /// Whether the card is that of a device: its first letter is `m`.
    fn is_device(&self) -> bool
        ensures { result ≡ is_device self.now }
    {
        match self.word(0) {
            [first, ..] => *first == b'm' || *first == b'M',
            [] => false,
        }
    }

    /// Whether the card is that of a call: its first letter is `x`.
    fn is_call(&self) -> bool
        ensures { result ≡ is_call self.now }
    {
        match self.word(0) {
            [first, ..] => *first == b'x' || *first == b'X',
            [] => false,
        }
    }

    /// The form, where the card has a name behind its first word and no word with `=`.
    fn named_form(&self, form: Form) -> Result<Form, DeckKind>
        ensures { result ≡ named_form form self.now }
    {
        if 1 < self.words.len() && !self.has_equals() {
            Ok(form)
        } else {
            Err(DeckKind::BadCard)
        }
    }

    /// What a card of a device is, or its fault.
    fn device_form(&self) -> Result<Form, DeckKind>
        ensures { result ≡ device_form self.now }
    {
        if self.words.len() <= 5 {
            return Err(DeckKind::BadCard);
        }
        match kind_of(self.word(5)) {
            Some(kind) => Ok(Form::Device(kind)),
            None => Err(DeckKind::UnknownDevice),
        }
    }

    /// What the card is, or the fault of the smallest number that it has whatever stands before it.
    pub fn form(&self) -> Result<Form, DeckKind>
        ensures { result ≡ card_form self.now }
    {
        if self.has_control() {
            return Err(DeckKind::ControlByte);
        }
        if self.is_device() {
            return self.device_form();
        }
        if self.is_call() {
            return self.named_form(Form::Call);
        }
        if self.has_first_word(b".subckt") {
            return self.named_form(Form::Subckt);
        }
        if self.has_first_word(b".ends") {
            if self.words.len() < 3 {
                return Ok(Form::Ends);
            }
            return Err(DeckKind::BadCard);
        }
        if self.has_first_word(b".end") || self.has_first_word(b".model") {
            Ok(Form::Skipped)
        } else {
            Err(DeckKind::UnknownCard)
        }
    }
}

/// The cards of a text that aren't read yet, and the phases of the lines that are. A line that begins
/// the next card is held, with its number.
#[derive(Drop)]
pub struct Cards<'a> {
    pub held: Option<(u64, &'a [u8])>,
    pub lines: Lines<'a>,
    pub phases: Vec<Phase>,
}

impl<'a> Model for Cards<'a> {
    ghost use Rattle.std.specs.Prelude.{option_map};
    ghost use Rattle.std.specs.Str.{str_to_ascii_lowercase};
    ghost use Rattle.spice_read.specs.Readers.{Reader};

    ghost Value = { Reader };

    ghost view = { λ c. record {
      held = option_map (λ p. (p.0, str_to_ascii_lowercase p.1.now)) c.held;
      left = c.lines;
      phases = c.phases.items;
    } };
}

impl<'a> Cards<'a> {
    /// The cards of a text. Where the first of its lines of cards begins with `+`, no card stands
    /// before it, and it is a fault.
    pub fn new(alloc: Global, text: &'a [u8]) -> Result<Cards<'a>, DeckFault>
        ensures first { IfOk result (λ cards. IsAtFirstCard text.now cards) }
        ensures stray { (line : ℕ) (kind : DeckKind) → IsErrOf result (DeckFault.At line kind)
            → IsStrayAt (numbered_lines text.now) line × (kind ≡ BadCard) }
    {
        let mut lines = Lines {
            rest: text,
            number: 1,
        };
        let mut phases = Vec::new(alloc);
        'lines: while let Some((line, bytes)) = lines.next() {
            if begins_card(bytes) {
                let held = Some((line, bytes));
                return Ok(Cards {
                    held,
                    lines,
                    phases,
                });
            }
            if strip_plus(bytes).is_some() {
                let kind = DeckKind::BadCard;
                return Err(DeckFault::At { line, kind });
            }
            push_phase(alloc, &mut phases, bytes)?;
        }
        Ok(Cards {
            held: None,
            lines,
            phases,
        })
    }

    /// Reads the next card in place of this one, whether there is one.
    pub fn next(&mut self, alloc: Global, card: &mut Card<'a>) -> Result<bool, OutOfMemory>
        ensures { IfOk result (λ some. IsNextRead some self.old card.new self.new) }
    {
        let Some((number, line)) = self.held.take() else {
            return Ok(false);
        };
        card.begin(number);
        card.push_words(line)?;
        'lines: while let Some((number, line)) = self.lines.next() {
            if begins_card(line) {
                self.held = Some((number, line));
                return Ok(true);
            }
            self.push_line(alloc, card, line)?;
        }
        Ok(true)
    }

    /// Appends the words of a line that continues a card, or the phase of another line.
    fn push_line(
        &mut self,
        alloc: Global,
        card: &mut Card<'a>,
        line: &'a [u8],
    ) -> Result<(), OutOfMemory>
        ensures held { self.new.held ≡ self.old.held }
        ensures left { self.new.left ≡ self.old.left }
        ensures number { card.new.number ≡ card.old.number }
        ensures words { OnOk result (card.new.words ≡ card.old.words ++ continued_words (str_to_ascii_lowercase line.now)) }
        ensures phases { OnOk result
            (self.new.phases ≡ self.old.phases ++ option_to_list (phase_of (words (str_to_ascii_lowercase line.now)))) }
    {
        match strip_plus(line) {
            Some(rest) => card.push_words(rest),
            None => push_phase(alloc, &mut self.phases, line),
        }
    }
}

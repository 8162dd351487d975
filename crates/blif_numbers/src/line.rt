//! A logical line by its words.
ghost use Rattle.std.specs.Prelude.{◌≡◌, ◌-◌, map, length, slice_index};
ghost use Rattle.std.specs.List.{list_any};
ghost use Rattle.blif_ast.specs.Cards.{card_of, is_card, last_letter};
ghost use Rattle.dom_base.specs.Lines.{is_control};

use blif_ast::Card;
use dom_base::first_word;
use std::marker::Model;

/// A logical line: the number of its first line, from 1, its words, which are parts of the text, whether they have a
/// control byte, and the card of its first word, if that is known.
#[derive(Drop)]
pub struct Line<'w, 't> {
    pub number: u64,
    pub words: &'w [&'t [u8]],
    pub has_control: bool,
    pub card: Option<Card>,
}

impl<'w, 't> Model for Line<'w, 't> {
    ghost use Rattle.std.specs.Prelude.{◌≡◌, map};
    ghost use Rattle.std.specs.List.{list_any};
    ghost use Rattle.blif_ast.specs.LogicalLines.{LogicalLine};
    ghost use Rattle.blif_ast.specs.Cards.{card_named};
    ghost use Rattle.dom_base.specs.Lines.{first_word, is_control};

    ghost Value = { LogicalLine };

    ghost view = { λ l. record { number = l.number; words = map (λ w. w.now) l.words.now } };

    ghost invariant = { λ l. (l.card ≡ card_named (first_word (map (λ w. w.now) l.words.now)))
        × (l.has_control ≡ list_any (list_any is_control) (map (λ w. w.now) l.words.now)) };
}

impl<'w, 't> Line<'w, 't> {
    /// The line of these words, of which it is known whether they have a control byte.
    pub fn new(number: u64, words: &'w [&'t [u8]], has_control: bool) -> Line<'w, 't>
        requires { has_control ≡ list_any (list_any is_control) (map (λ w. w.now) words.now) }
        ensures { result ≡ record { number = number; words = map (λ w. w.now) words.now } }
    {
        let card = Card::named(first_word(words));
        Line {
            number,
            words,
            has_control,
            card,
        }
    }

    /// Whether its words have a control byte.
    pub fn has_control(&self) -> bool
        ensures { result ≡ list_any (list_any is_control) self.now.words }
    {
        self.has_control
    }

    /// The card of its first word, if that is known.
    pub fn card(&self) -> Option<Card>
        ensures { result ≡ card_of self.now }
    {
        self.card
    }

    /// Whether the line is a card; any other is a row.
    pub fn is_card(&self) -> bool
        ensures { result ≡ is_card self.now }
    {
        first_byte(first_word(self.words)) == b'.'
    }
}

/// The last byte of the last word, or 0 where there is none.
pub fn last_letter(words: &[&[u8]]) -> u8
    ensures { result ≡ last_letter (map (λ w. w.now) words.now) }
{
    match words.last() {
        Some(word) => last_byte(word),
        None => 0,
    }
}

fn first_byte(word: &[u8]) -> u8
    ensures { result ≡ slice_index word.now 0 }
{
    if word.is_empty() { 0 } else { word[0] }
}

fn last_byte(word: &[u8]) -> u8
    ensures { result ≡ slice_index word.now (length word.now - 1) }
{
    if word.is_empty() {
        0
    } else {
        word[word.len() - 1]
    }
}

//! The cards of BLIF that are known.
ghost use Rattle.std.specs.Prelude.{◌≡◌};
ghost use Rattle.blif_ast.specs.Cards.{card_named};

use dom_base::is_same;

/// A card that is known, by the first word of its line.
#[derive(Clone, Copy, Debug, PartialEq, Eq)]
pub enum Card {
    Model,
    Inputs,
    Outputs,
    Names,
    Latch,
    Subckt,
    Clock,
    End,
}

impl Card {
    /// The card of a line with this first word.
    pub fn named(word: &[u8]) -> Option<Card>
        ensures { result ≡ card_named word.now }
    {
        match word.first() {
            Some(b'.') => Card::dotted(word),
            _ => None,
        }
    }

    /// The card of a word that begins with `.`, the most frequent card first.
    fn dotted(word: &[u8]) -> Option<Card>
        ensures { result ≡ card_named word.now }
    {
        if is_same(word, b".names") {
            Some(Card::Names)
        } else if is_same(word, b".model") {
            Some(Card::Model)
        } else if is_same(word, b".inputs") {
            Some(Card::Inputs)
        } else if is_same(word, b".outputs") {
            Some(Card::Outputs)
        } else if is_same(word, b".latch") {
            Some(Card::Latch)
        } else if is_same(word, b".subckt") {
            Some(Card::Subckt)
        } else if is_same(word, b".clock") {
            Some(Card::Clock)
        } else if is_same(word, b".end") {
            Some(Card::End)
        } else {
            None
        }
    }
}

//! Kinds of faults of deck text.
ghost use Rattle.std.specs.Prelude.{◌≡◌};
ghost use Rattle.deck.specs.DeckKinds.{deck_kind_number, deck_kind_word};

/// The kind of a fault of a deck. A card may go on over several lines; a subcircuit is open by what
/// the nearest `.subckt` or `.ends` before the card is.
#[derive(Clone, Copy, Debug, PartialEq, Eq)]
pub enum DeckKind {
    /// 1: a control byte other than a tab in a card.
    ControlByte,
    /// 2: a card that isn't known.
    UnknownCard,
    /// 3: a known card that isn't in its form, or a line with `+` that continues no card.
    BadCard,
    /// 4: a device whose model is none of `nch`, `pch` and `pkeep`.
    UnknownDevice,
    /// 5: a device, a call or `.ends` where no subcircuit is open, or a deck without `.subckt`.
    NoSubckt,
    /// 6: a `.subckt` while another is open, or with the name of an earlier one.
    SecondSubckt,
    /// 7: a deck that ends with a subcircuit open.
    NotClosed,
    /// 8: a `.subckt` that names a port twice.
    DuplicatePort,
    /// 9: a device or a call with which a subcircuit stands for more than 16,777,216 devices, a call with
    /// which it is deeper than 64, or more than 1,048,576 ports.
    TooMany,
    /// 10: a call of no subcircuit that was closed before.
    UnknownSubckt,
    /// 11: a call with another number of nets than the subcircuit has ports.
    WrongCount,
}

impl DeckKind {
    /// The number of the kind, from 1 to 11. Of two faults of a line the one with the smaller number
    /// is reported.
    pub fn number(self) -> u64
        ensures { result ≡ deck_kind_number self }
    {
        match self {
            DeckKind::ControlByte => 1,
            DeckKind::UnknownCard => 2,
            DeckKind::BadCard => 3,
            DeckKind::UnknownDevice => 4,
            DeckKind::NoSubckt => 5,
            DeckKind::SecondSubckt => 6,
            DeckKind::NotClosed => 7,
            DeckKind::DuplicatePort => 8,
            DeckKind::TooMany => 9,
            DeckKind::UnknownSubckt => 10,
            DeckKind::WrongCount => 11,
        }
    }

    /// The word for the kind, as it is printed.
    pub fn word(self) -> &'static str
        ensures { result.now ≡ deck_kind_word self }
    {
        match self {
            DeckKind::ControlByte => "ControlByte",
            DeckKind::UnknownCard => "UnknownCard",
            DeckKind::BadCard => "BadCard",
            DeckKind::UnknownDevice => "UnknownDevice",
            DeckKind::NoSubckt => "NoSubckt",
            DeckKind::SecondSubckt => "SecondSubckt",
            DeckKind::NotClosed => "NotClosed",
            DeckKind::DuplicatePort => "DuplicatePort",
            DeckKind::TooMany => "TooMany",
            DeckKind::UnknownSubckt => "UnknownSubckt",
            DeckKind::WrongCount => "WrongCount",
        }
    }
}

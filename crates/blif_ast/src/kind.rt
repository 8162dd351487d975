//! Faults of BLIF text.
ghost use Rattle.std.specs.Prelude.{◌≡◌};
ghost use Rattle.blif_ast.specs.Faults.{blif_kind_number, blif_kind_word};

/// The kind of a fault of BLIF text. A line is a logical line, and a model or a table is open by
/// what the nearest cards before the line are.
#[derive(Clone, Copy, Debug, PartialEq, Eq)]
pub enum BlifKind {
    /// 1: a control byte other than a tab, outside comments. A CR before the LF that ends a line, or
    /// at the end of the text, isn't part of the line.
    ControlByte,
    /// 2: a card that isn't known.
    UnknownCard,
    /// 3: a known card that isn't in its form.
    BadCard,
    /// 4: a row where no table is open.
    RowOutsideTable,
    /// 5: a row of a table that isn't in its form.
    BadRow,
    /// 6: a row that ends in another value than the first row of its table.
    MixedCover,
    /// 7: a table of more than 4,096 inputs.
    TooWide,
    /// 8: a card other than `.model` where no model is open, or a text without cards and rows.
    NoModel,
    /// 9: a latch of the type `ah`, `al` or `as`.
    LatchKind,
}

impl BlifKind {
    /// The number of the kind: of the faults of a line the one with the smallest number is reported.
    pub fn number(self) -> u64
        ensures { result ≡ blif_kind_number self }
    {
        match self {
            BlifKind::ControlByte => 1,
            BlifKind::UnknownCard => 2,
            BlifKind::BadCard => 3,
            BlifKind::RowOutsideTable => 4,
            BlifKind::BadRow => 5,
            BlifKind::MixedCover => 6,
            BlifKind::TooWide => 7,
            BlifKind::NoModel => 8,
            BlifKind::LatchKind => 9,
        }
    }

    /// The word of the kind, as it is printed.
    pub fn word(self) -> &'static str
        ensures { result.now ≡ blif_kind_word self }
    {
        match self {
            BlifKind::ControlByte => "ControlByte",
            BlifKind::UnknownCard => "UnknownCard",
            BlifKind::BadCard => "BadCard",
            BlifKind::RowOutsideTable => "RowOutsideTable",
            BlifKind::BadRow => "BadRow",
            BlifKind::MixedCover => "MixedCover",
            BlifKind::TooWide => "TooWide",
            BlifKind::NoModel => "NoModel",
            BlifKind::LatchKind => "LatchKind",
        }
    }
}

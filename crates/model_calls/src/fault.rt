//! What a file is refused for.
ghost use Rattle.std.specs.Prelude.{◌≡◌};
ghost use Rattle.model_calls.specs.Kinds.{flat_kind_number, flat_kind_word, limit_word, too_many_number};

use dom_base::{Name, OutOfMemory};

/// The kind of a refusal of a file, over its whole text.
#[derive(Clone, Copy, Debug, PartialEq, Eq)]
pub enum FlatKind {
    /// 10: a model has an earlier model's name.
    DuplicateModel,
    /// 11: a model lists a name twice among its inputs, or twice among its outputs.
    DuplicatePort,
    /// 12: an instance names no model of the file.
    UnknownModel,
    /// 13: a formal is no port of the model or is bound twice, or an input of the model isn't bound.
    BadFormal,
    /// 14: an instance's model is the model that it stands in or reaches it through instances.
    Recursion,
    /// 15: a signal has two drivers.
    DrivenTwice,
    /// 16: a reader's signal has no driver.
    Undriven,
    /// 17: a signal depends on itself through tables.
    Cycle,
    /// 18: two latches differ in their edge or in the signal that controls them.
    TwoControls,
    /// 19: the signal that controls the latches has a reader, or a driver other than a main input.
    ControlUsed,
}

impl FlatKind {
    /// The number of the kind, from 10 on: faults of a line of text have smaller ones.
    pub fn number(self) -> u64
        ensures { result ≡ flat_kind_number self }
    {
        match self {
            FlatKind::DuplicateModel => 10,
            FlatKind::DuplicatePort => 11,
            FlatKind::UnknownModel => 12,
            FlatKind::BadFormal => 13,
            FlatKind::Recursion => 14,
            FlatKind::DrivenTwice => 15,
            FlatKind::Undriven => 16,
            FlatKind::Cycle => 17,
            FlatKind::TwoControls => 18,
            FlatKind::ControlUsed => 19,
        }
    }

    /// The word of the kind, as it is printed.
    pub fn word(self) -> &'static str
        ensures { result.now ≡ flat_kind_word self }
    {
        match self {
            FlatKind::DuplicateModel => "DuplicateModel",
            FlatKind::DuplicatePort => "DuplicatePort",
            FlatKind::UnknownModel => "UnknownModel",
            FlatKind::BadFormal => "BadFormal",
            FlatKind::Recursion => "Recursion",
            FlatKind::DrivenTwice => "DrivenTwice",
            FlatKind::Undriven => "Undriven",
            FlatKind::Cycle => "Cycle",
            FlatKind::TwoControls => "TwoControls",
            FlatKind::ControlUsed => "ControlUsed",
        }
    }
}

/// What a file can have too many of: signals, counted as pairs of a path of instances and a name of
/// its model; paths of instances, the main model's own among them; letters of tables over all paths,
/// `(inputs + 1) * (rows + 1)` for each; and sinks, the main outputs and the latches over all paths.
#[derive(Clone, Copy, Debug, PartialEq, Eq)]
pub enum Limit {
    /// At most 200,000.
    Signals,
    /// At most 200,000.
    Instances,
    /// At most 400,000.
    Letters,
    /// At most 8,192.
    Sinks,
}

impl Limit {
    /// The number of a refusal for too many of this: 20, whatever it is.
    pub fn number(self) -> u64
        ensures { result ≡ too_many_number }
    {
        20
    }

    /// What there is too many of in a word, as it is printed.
    pub fn word(self) -> &'static str
        ensures { result.now ≡ limit_word self }
    {
        match self {
            Limit::Signals => "signals",
            Limit::Instances => "instances",
            Limit::Letters => "letters",
            Limit::Sinks => "sinks",
        }
    }
}

/// Why a file has no network.
#[derive(Debug, Drop)]
pub enum FlatFault {
    /// A refusal of this kind, with the line of the card and the name that are reported.
    At {
        line: u64,
        kind: FlatKind,
        name: Name,
    },
    /// More than the limit: how many, or 2^64 - 1 where there are more than that.
    TooMany {
        limit: Limit,
        count: u64,
    },
    /// Out of memory.
    Memory,
}

impl From<OutOfMemory> for FlatFault {
    ghost use Rattle.std.specs.Prelude.{◌≡◌};
    ghost use Rattle.model_calls.specs.declared.fault.FlatFault.TheVariants.{Memory};

    ghost from_gives = { λ _ e. e ≡ Memory };

    fn from(_: OutOfMemory) -> Self {
        FlatFault::Memory
    }
}

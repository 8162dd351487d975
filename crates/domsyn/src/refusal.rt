//! Files that are refused.
ghost use Rattle.std.specs.Prelude.{◌≡◌, ◌++◌, IfOk, OnOk, codes};
ghost use Rattle.std.specs.Fmt.{decimal};
ghost use Rattle.domsyn.specs.Refusals.{count_text, named_text, refusal_text, subject};
ghost use Rattle.stim_text.specs.Stimuli.{stim_kind_word};

use blif_read::BlifKind;
use deck::DeckKind;
use dom_base::{Name, NetName, OutOfMemory, append, append_number};
use net_flatten::{FlatKind, Limit};
use std::alloc::Global;
use stim_text::StimKind;

/// Why a file is refused.
#[derive(Debug, Drop)]
pub enum Refusal {
    /// It has more bytes than a file may have.
    TooLong,
    /// Its text, read as BLIF, has this fault at this line, from 1.
    Blif {
        line: u64,
        kind: BlifKind,
    },
    /// Its hierarchy has no network, for this kind, with the line of the card and the name that are reported.
    Flat {
        line: u64,
        kind: FlatKind,
        name: Name,
    },
    /// Its hierarchy has too many of something: how many, or 2^64 - 1 where there are more than that.
    TooMany {
        limit: Limit,
        count: u64,
    },
    /// Its network has so many sinks, and exact signs aren't sought of so many.
    TooManySinks {
        count: u64,
    },
    /// Its text, read as a deck, has this fault at this line, from 1.
    Deck {
        line: u64,
        kind: DeckKind,
    },
    /// The ports of its deck leave the order of roles at this place, from 0.
    Ports {
        place: u32,
    },
    /// Its deck has no net of this name, which is that of the first such probe word.
    NoNet {
        name: NetName,
    },
    /// Its text, read as a stimulus, has this fault at this line, from 1.
    Stim {
        line: u64,
        kind: StimKind,
    },
}

impl Refusal {
    /// The subject of the line: the file's name, but where the line names a net.
    pub fn subject<'a>(&self, file: &'a str) -> &'a str
        ensures { result.now ≡ subject file.now self.now }
    {
        match self {
            Refusal::NoNet { .. } => "",
            _ => file,
        }
    }

    /// What the line says behind its subject.
    pub fn text(&self, alloc: Global) -> Result<Vec<u8>, OutOfMemory>
        ensures { IfOk result (λ text. text.items ≡ refusal_text self.now) }
    {
        let mut text = Vec::new(alloc);
        self.put(&mut text)?;
        Ok(text)
    }

    fn put(&self, text: &mut Vec<u8>) -> Result<(), OutOfMemory>
        ensures { OnOk result (text.new.items ≡ text.old.items ++ refusal_text self.now) }
    {
        match self {
            Refusal::TooLong => append(text, b": too long\n"),
            Refusal::Blif { line, kind } => {
                put_fault(text, *line, b": blif ", kind.number(), kind.word())
            }
            Refusal::Flat { line, kind, name } => put_named(text, *line, *kind, name.as_bytes()),
            Refusal::TooMany { limit, count } => put_count(text, *limit, *count),
            Refusal::TooManySinks { count } => put_sinks(text, *count),
            Refusal::Deck { line, kind } => {
                put_fault(text, *line, b": deck ", kind.number(), kind.word())
            }
            Refusal::Ports { place } => put_port(text, *place),
            Refusal::NoNet { name } => put_net(text, name.as_bytes()),
            Refusal::Stim { line, kind } => put_stim(text, *line, *kind),
        }
    }
}

/// Appends a line's number and a fault there, by its number and its word.
fn put_fault(
    text: &mut Vec<u8>,
    line: u64,
    what: &[u8],
    number: u64,
    word: &str,
) -> Result<(), OutOfMemory>
    ensures { OnOk result (text.new.items
        ≡ text.old.items ++ codes ":" ++ decimal line ++ what.now ++ decimal number ++ codes " " ++ word.now ++ codes "\n") }
{
    append(text, b":")?;
    append_number(text, line)?;
    append(text, what)?;
    append_number(text, number)?;
    append(text, b" ")?;
    append(text, word.as_bytes())?;
    append(text, b"\n")
}

/// Appends a line's number, the kind of a refusal there and a name.
fn put_named(text: &mut Vec<u8>, line: u64, kind: FlatKind, name: &[u8]) -> Result<(), OutOfMemory>
    ensures { OnOk result (text.new.items ≡ text.old.items ++ named_text line kind name.now) }
{
    append(text, b":")?;
    append_number(text, line)?;
    append(text, b": blif ")?;
    append_number(text, kind.number())?;
    append(text, b" ")?;
    append(text, kind.word().as_bytes())?;
    append(text, b" ")?;
    append(text, name)?;
    append(text, b"\n")
}

/// Appends what there is too many of.
fn put_count(text: &mut Vec<u8>, limit: Limit, count: u64) -> Result<(), OutOfMemory>
    ensures { OnOk result (text.new.items ≡ text.old.items ++ count_text limit count) }
{
    append(text, b": blif ")?;
    append_number(text, limit.number())?;
    append(text, b" TooMany ")?;
    append(text, limit.word().as_bytes())?;
    append(text, b" ")?;
    append_number(text, count)?;
    append(text, b"\n")
}

/// Appends how many sinks there are.
fn put_sinks(text: &mut Vec<u8>, count: u64) -> Result<(), OutOfMemory>
    ensures { OnOk result (text.new.items ≡ text.old.items ++ codes ": too many sinks " ++ decimal count ++ codes "\n") }
{
    append(text, b": too many sinks ")?;
    append_number(text, count)?;
    append(text, b"\n")
}

/// Appends the place of a port.
fn put_port(text: &mut Vec<u8>, place: u32) -> Result<(), OutOfMemory>
    ensures { OnOk result (text.new.items ≡ text.old.items ++ codes ": deck port " ++ decimal place ++ codes "\n") }
{
    append(text, b": deck port ")?;
    append_number(text, place as u64)?;
    append(text, b"\n")
}

/// Appends the name of a net that there is none of.
fn put_net(text: &mut Vec<u8>, net: &[u8]) -> Result<(), OutOfMemory>
    ensures { OnOk result (text.new.items ≡ text.old.items ++ codes "no net " ++ net.now ++ codes "\n") }
{
    append(text, b"no net ")?;
    append(text, net)?;
    append(text, b"\n")
}

/// Appends a line's number and the kind of a fault of a stimulus there.
fn put_stim(text: &mut Vec<u8>, line: u64, kind: StimKind) -> Result<(), OutOfMemory>
    ensures { OnOk result (text.new.items
        ≡ text.old.items ++ codes ":" ++ decimal line ++ codes ": stim " ++ stim_kind_word kind ++ codes "\n") }
{
    append(text, b":")?;
    append_number(text, line)?;
    append(text, b": stim ")?;
    append(text, kind.word().as_bytes())?;
    append(text, b"\n")
}

//! What comes of a deck beside a file of BLIF.
ghost use Rattle.std.specs.Prelude.{◌≡◌, ◌++◌, IfOk, OnOk};
ghost use Rattle.stim_text.specs.CycleLines.{bit_letter};
ghost use Rattle.trace_tool.specs.VerdictLines.{difference_line, place_line, same_line, verdict_line};

use crate::lines::append_unsettled;
use dom_base::{NetName, OutOfMemory, Tri, append, append_number};
use std::alloc::Global;

/// What comes of a deck that runs beside a network.
#[derive(Debug, Drop)]
pub enum Verdict {
    /// All outputs are the network's in so many cycles; so many events, those of power among them,
    /// modulo 2^64.
    Same {
        cycles: u64,
        events: u64,
    },
    /// In this cycle, from 0, this output is the first that isn't the network's; in no earlier cycle
    /// one differs.
    Differ {
        cycle: u64,
        pin: NetName,
        wanted: bool,
        found: Tri,
    },
    /// The first place, from 0 over all ports, at which the ports from the first pin on aren't those
    /// of the network's inputs and then outputs, or one of the two has ended.
    PortsDiffer {
        place: u32,
    },
    /// A settling in this cycle, 0 in power, ended without rest after so many events.
    Unsettled {
        cycle: u64,
        events: u64,
    },
}

impl Verdict {
    /// The line of the verdict: `same N cycles`, `differ cycle C pin NET wanted B found T`,
    /// `ports differ at place P` or `unsettled cycle C events K`.
    pub fn text(&self, alloc: Global) -> Result<Vec<u8>, OutOfMemory>
        ensures { IfOk result (λ text. text.items ≡ verdict_line self.now) }
    {
        let mut text = Vec::new(alloc);
        self.put(&mut text)?;
        Ok(text)
    }

    fn put(&self, text: &mut Vec<u8>) -> Result<(), OutOfMemory>
        ensures { OnOk result (text.new.items ≡ text.old.items ++ verdict_line self.now) }
    {
        match self {
            Verdict::Same { cycles, .. } => put_same(text, *cycles),
            Verdict::Differ {
                cycle,
                pin,
                wanted,
                found,
            } => put_difference(text, *cycle, pin.as_bytes(), *wanted, *found),
            Verdict::PortsDiffer { place } => put_place(text, *place),
            Verdict::Unsettled { cycle, events } => append_unsettled(text, *cycle, *events),
        }
    }
}

/// Appends the line of so many cycles whose outputs are all the network's.
fn put_same(text: &mut Vec<u8>, cycles: u64) -> Result<(), OutOfMemory>
    ensures { OnOk result (text.new.items ≡ text.old.items ++ same_line cycles) }
{
    append(text, b"same ")?;
    append_number(text, cycles)?;
    append(text, b" cycles\n")
}

/// Appends the line of an output that differs in a cycle.
fn put_difference(
    text: &mut Vec<u8>,
    cycle: u64,
    pin: &[u8],
    wanted: bool,
    found: Tri,
) -> Result<(), OutOfMemory>
    ensures { OnOk result (text.new.items ≡ text.old.items ++ difference_line cycle pin.now wanted found) }
{
    append(text, b"differ cycle ")?;
    append_number(text, cycle)?;
    append(text, b" pin ")?;
    append(text, pin)?;
    append(text, b" wanted ")?;
    append(text, &[letter_of(wanted)])?;
    append(text, b" found ")?;
    append(text, &[found.letter(), b'\n'])?;
    Ok(())
}

/// `0` or `1`, as an ASCII byte.
fn letter_of(bit: bool) -> u8
    ensures { result ≡ bit_letter bit }
{
    if bit { b'1' } else { b'0' }
}

/// Appends the line of the place at which the ports differ.
fn put_place(text: &mut Vec<u8>, place: u32) -> Result<(), OutOfMemory>
    ensures { OnOk result (text.new.items ≡ text.old.items ++ place_line place) }
{
    append(text, b"ports differ at place ")?;
    append_number(text, place as u64)?;
    append(text, b"\n")?;
    Ok(())
}

//! The lines of a deck before and behind the cards of its devices.
ghost use Rattle.std.specs.Prelude.{◌≡◌, ◌≤◌, ◌<◌, ◌+◌, ◌^◌, ◌++◌, ◌∷◌, Bool, IfOk, List, OnOk, [], codes, length, take};
ghost use Rattle.std.specs.List.{flat_map};
ghost use Rattle.deck.specs.Ports.{clock_ports, leading_ports};
ghost use Rattle.spice_text.specs.Parts.{subckt_with};
ghost use Rattle.spice_text.specs.Text.{deck_line, phase_line, plus_lines};
ghost use Rattle.plan_text.specs.DeckTexts.{deck_head};
ghost use Rattle.plan_text.specs.PutGroups.{nth_sink, signed_phases};

use crate::buffered::BufferedText;
use crate::groups::sink_net;
use crate::net::put_net;
use dom_base::{NetName, OutOfMemory};
use std::alloc::Global;

/// The greatest number of names on a line that begins with `+`.
const NAMES_ON_A_LINE: usize = 8;

/// The lines of a deck before the cards of its devices: a comment, the phases of its sinks, which have these signs, and the
/// line of `.subckt` with the name and the ports. There is room for so many bytes.
pub fn begin_deck(
    alloc: Global,
    room: usize,
    name: &[u8],
    clocks: u8,
    signs: &[bool],
    pins: &[NetName],
    outs: &[NetName],
) -> Result<BufferedText, OutOfMemory>
    requires some_clock { 1 ≤ clocks }
    requires few_clocks { clocks ≤ 4 }
    requires few_signs { length signs.now < 2 ^ 32 }
    ensures { IfOk result (λ text. (starts : List Bool) → length signs.now ≡ length outs.now + length starts
        → text ≡ deck_head name.now (signed_phases outs.now starts signs.now) clocks pins.now outs.now) }
{
    let mut text = BufferedText::new(Vec::with_capacity(alloc, room)?);
    text.put(b"* domsyn deck 1\n")?;
    put_phases(&mut text, outs, signs)?;
    put_subckt(&mut text, name, clocks, pins, outs)?;
    Ok(text)
}

/// The first lines of a deck by cells: a comment and the phases of its sinks, which have these signs. There
/// is room for so many bytes.
pub fn begin_cells(
    alloc: Global,
    room: usize,
    outs: &[NetName],
    signs: &[bool],
) -> Result<BufferedText, OutOfMemory>
    requires { length signs.now < 2 ^ 32 }
    ensures { IfOk result (λ text. (starts : List Bool) → length signs.now ≡ length outs.now + length starts
        → text ≡ codes "* domsyn deck 2" ++ 10 ∷ [] ++ flat_map phase_line (signed_phases outs.now starts signs.now)) }
{
    let mut text = BufferedText::new(Vec::with_capacity(alloc, room)?);
    text.put(b"* domsyn deck 2\n")?;
    put_phases(&mut text, outs, signs)?;
    Ok(text)
}

/// Appends the last line of a deck.
pub fn end_deck(text: &mut BufferedText, name: &[u8]) -> Result<(), OutOfMemory>
    ensures { OnOk result (text.new ≡ text.old ++ deck_line (codes ".ends") (name.now ∷ [])) }
{
    text.put(b".ends")?;
    text.put_word(name)?;
    text.put(b"\n")
}

/// Appends a line for the phase of each sink.
fn put_phases(text: &mut BufferedText, outs: &[NetName], signs: &[bool]) -> Result<(), OutOfMemory>
    requires { length signs.now < 2 ^ 32 }
    ensures { OnOk result ((starts : List Bool) → length signs.now ≡ length outs.now + length starts
        → text.new ≡ text.old ++ flat_map phase_line (signed_phases outs.now starts signs.now)) }
{
    'sinks: for k in 0..signs.len() {
        put_phase(text, outs, k as u32, signs[k])?;
    }
    Ok(())
}

/// Appends the line of the phase of a sink.
fn put_phase(
    text: &mut BufferedText,
    outs: &[NetName],
    k: u32,
    plus: bool,
) -> Result<(), OutOfMemory>
    ensures { OnOk result (text.new ≡ text.old ++ phase_line (record { net = nth_sink outs.now k; plus = plus })) }
{
    text.put(b"* phase")?;
    put_net(text, &sink_net(outs, k))?;
    text.put(if plus { b" +\n" } else { b" -\n" })
}

/// The first so many clocks, each with a blank before it.
fn clock_words(clocks: u8) -> &'static [u8]
    requires some_clock { 1 ≤ clocks }
    requires few_clocks { clocks ≤ 4 }
    ensures { result.now ≡ flat_map (λ word. 32 ∷ word) (take clocks clock_ports) }
{
    match clocks {
        1 => b" ck1",
        2 => b" ck1 ck2",
        3 => b" ck1 ck2 ck3",
        _ => b" ck1 ck2 ck3 ck4",
    }
}

/// Appends `.subckt`, the name, and the ports: the supplies, so many clocks and the clocks and resets of latches on this
/// line, and pins and outputs on lines of their own.
pub fn put_subckt(
    text: &mut BufferedText,
    name: &[u8],
    clocks: u8,
    pins: &[NetName],
    outs: &[NetName],
) -> Result<(), OutOfMemory>
    requires some_clock { 1 ≤ clocks }
    requires few_clocks { clocks ≤ 4 }
    ensures { OnOk result (text.new ≡ text.old ++ subckt_with name.now (leading_ports clocks) (pins.now ∷ outs.now ∷ [])) }
{
    text.put(b".subckt")?;
    text.put_word(name)?;
    text.put(b" vdd vss")?;
    text.put(clock_words(clocks))?;
    text.put(b" lm lmb ls lsb rs rsb\n")?;
    put_port_lines(text, pins)?;
    put_port_lines(text, outs)?;
    Ok(())
}

/// Appends a blank before each name, and the name.
fn put_names(text: &mut BufferedText, names: &[NetName]) -> Result<(), OutOfMemory>
    ensures { OnOk result (text.new ≡ text.old ++ flat_map (λ word. 32 ∷ word) names.now) }
{
    'names: for name in names {
        text.put_word(name.as_bytes())?;
    }
    Ok(())
}

/// Appends a line that begins with `+` and has these names.
fn put_port_line(text: &mut BufferedText, names: &[NetName]) -> Result<(), OutOfMemory>
    ensures { OnOk result (text.new ≡ text.old ++ deck_line (codes "+") names.now) }
{
    text.put(b"+")?;
    put_names(text, names)?;
    text.put(b"\n")
}

/// Appends names on lines that begin with `+`.
fn put_port_lines(text: &mut BufferedText, names: &[NetName]) -> Result<(), OutOfMemory>
    ensures { OnOk result (text.new ≡ text.old ++ plus_lines names.now) }
{
    let mut rest = names;
    'groups: while !rest.is_empty() {
        let group = rest.len().min(NAMES_ON_A_LINE);
        put_port_line(text, &rest[..group])?;
        rest = &rest[group..];
    }
    Ok(())
}

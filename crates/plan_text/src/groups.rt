//! The devices of complements, latches and sinks.
ghost use Rattle.std.specs.Prelude.{◌≡◌, ◌<◌, ◌+◌, ◌^◌, ◌++◌, ◌∷◌, All, Bool, List, OnOk, [], length, map};
ghost use Rattle.std.specs.Fmt.{decimal};
ghost use Rattle.std.specs.List.{enumerate_from, zip};
ghost use Rattle.dom_base.specs.Names.{IsNetByte};
ghost use Rattle.deck_form.specs.ChosenDecks.{end_at_cell};
ghost use Rattle.deck_form.specs.DeckNets.{named_complement, named_latch, named_reset, named_sink, sink_gate, sink_nets};
ghost use Rattle.dual_rail.specs.Uses.{IsEndThere};
ghost use Rattle.tree_map.specs.MappedCover.{root_cell_numbers};
ghost use Rattle.plan_text.specs.DeviceTexts.{with_groups, with_put};
ghost use Rattle.plan_text.specs.Nets.{net_text};
ghost use Rattle.plan_text.specs.PutGroups.{clocked_inverter, nth_sink};

use crate::device_text::DeviceText;
use crate::net::{Net, listed_net, rail_net};
use deck::{joined_name, numbered_name};
use dom_base::{Kind, NetName, OutOfMemory};
use dual_rail::{End, Rail};
use std::alloc::Global;

/// Appends the cards of the inverters of the complements of these leaves.
pub fn put_complements(
    cards: &mut DeviceText,
    pins: &[NetName],
    leaves: &[u32],
) -> Result<(), OutOfMemory>
    ensures { OnOk result (cards.new ≡ with_groups cards.old (map (named_complement pins.now) leaves.now)) }
{
    'leaves: for leaf in leaves {
        put_complement(cards, pins, *leaf)?;
        cards.end_group()?;
    }
    Ok(())
}

/// Appends the cards of the inverter of the complement of a leaf.
fn put_complement(cards: &mut DeviceText, pins: &[NetName], leaf: u32) -> Result<(), OutOfMemory>
    ensures { OnOk result (cards.new ≡ with_put cards.old (named_complement pins.now leaf)) }
{
    let own = rail_net(pins, Rail { leaf, plus: true });
    let opposite = rail_net(pins, Rail { leaf, plus: false });
    cards.put_inverter(Net::named(b"vdd"), Net::named(b"vss"), own, opposite)?;
    Ok(())
}

/// Appends the cards of a clocked inverter: its output begins so and has this number.
fn put_clocked(
    alloc: Global,
    cards: &mut DeviceText,
    front: &[u8],
    number: u32,
    clock: Net<'_>,
    opposite: Net<'_>,
    input: Net<'_>,
) -> Result<(), OutOfMemory>
    requires { All IsNetByte front.now }
    ensures { OnOk result (cards.new ≡ with_put cards.old
        (clocked_inverter (front.now ++ decimal number) (net_text clock.entry) (net_text opposite.entry) (net_text input.entry))) }
{
    let name = numbered_name(alloc, front, number)?;
    let upper = joined_name(alloc, name.as_bytes(), b"p")?;
    let lower = joined_name(alloc, name.as_bytes(), b"n")?;
    let out = Net::named(name.as_bytes());
    let upper = Net::named(upper.as_bytes());
    let lower = Net::named(lower.as_bytes());
    cards.put(Kind::P, out, opposite, upper)?;
    cards.put(Kind::P, upper, input, Net::named(b"vdd"))?;
    cards.put(Kind::N, out, clock, lower)?;
    cards.put(Kind::N, lower, input, Net::named(b"vss"))?;
    Ok(())
}

/// Appends the card of the device that resets the output of latch `j` to its start value.
fn put_reset(cards: &mut DeviceText, j: u32, init: bool) -> Result<(), OutOfMemory>
    ensures { OnOk result (cards.new ≡ with_put cards.old (named_reset j init ∷ [])) }
{
    let out = Net::numbered(b"q", j);
    if init {
        cards.put(Kind::P, out, Net::named(b"rsb"), Net::named(b"vdd"))?;
    } else {
        cards.put(Kind::N, out, Net::named(b"rs"), Net::named(b"vss"))?;
    }
    Ok(())
}

/// Appends the cards of latch `j` with its start value.
fn put_latch(alloc: Global, cards: &mut DeviceText, j: u32, init: bool) -> Result<(), OutOfMemory>
    ensures { OnOk result (cards.new ≡ with_put cards.old (named_latch (j, init))) }
{
    let data = Net::numbered(b"x", j);
    put_clocked(
        alloc,
        cards,
        b"m",
        j,
        Net::named(b"lm"),
        Net::named(b"lmb"),
        data,
    )?;
    let master = Net::numbered(b"m", j);
    put_clocked(
        alloc,
        cards,
        b"q",
        j,
        Net::named(b"ls"),
        Net::named(b"lsb"),
        master,
    )?;
    put_reset(cards, j, init)?;
    Ok(())
}

/// Appends the cards of latches with these start values.
pub fn put_latches(
    alloc: Global,
    cards: &mut DeviceText,
    starts: &[bool],
) -> Result<(), OutOfMemory>
    requires { length starts.now < 2 ^ 32 }
    ensures { OnOk result (cards.new ≡ with_groups cards.old (map named_latch (enumerate_from 0 starts.now))) }
{
    'latches: for j in 0..starts.len() {
        put_latch(alloc, cards, j as u32, starts[j])?;
        cards.end_group()?;
    }
    Ok(())
}

/// The net of a sink: an output, or the data of a latch.
pub fn sink_net<'a>(outs: &'a [NetName], k: u32) -> Net<'a>
    ensures { net_text result ≡ nth_sink outs.now k }
{
    listed_net(outs, b"x", k)
}

/// The net that gates the inverter of a sink.
fn sink_gate<'a>(pins: &'a [NetName], cells: &[u32], end: End) -> Net<'a>
    requires { IsEndThere (length cells.now) end }
    ensures { (kept : List Bool) → cells.now ≡ root_cell_numbers kept → net_text result ≡ sink_gate pins.now (end_at_cell kept end) }
{
    match end {
        End::Const(false) => Net::named(b"vdd"),
        End::Const(true) => Net::named(b"vss"),
        End::Literal(Rail { leaf, plus }) => rail_net(pins, Rail { leaf, plus: !plus }),
        End::FromDynamic(place) => Net::numbered(b"d", cells[place as usize]),
        End::FromOutput(place) => Net::numbered(b"z", cells[place as usize]),
    }
}

/// Appends the cards of the inverters of the sinks.
pub fn put_sinks(
    cards: &mut DeviceText,
    pins: &[NetName],
    outs: &[NetName],
    cells: &[u32],
    ends: &[End],
) -> Result<(), OutOfMemory>
    requires few { length ends.now < 2 ^ 32 }
    requires ends { All (IsEndThere (length cells.now)) ends.now }
    ensures { OnOk result ((kept starts : List Bool) → cells.now ≡ root_cell_numbers kept
        → length ends.now ≡ length outs.now + length starts
        → cards.new ≡ with_groups cards.old
        (map (named_sink pins.now) (zip (sink_nets outs.now starts) (map (end_at_cell kept) ends.now)))) }
{
    'sinks: for k in 0..ends.len() {
        let gate = sink_gate(pins, cells, ends[k]);
        let out = sink_net(outs, k as u32);
        cards.put_inverter(Net::named(b"vdd"), Net::named(b"vss"), gate, out)?;
        cards.end_group()?;
    }
    Ok(())
}

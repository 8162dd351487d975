//! The devices of a deck, group by group.
ghost use Rattle.std.specs.Prelude.{◌≡◌, ◌≤◌, ◌+◌, ◌*◌, OnOk, IfOk, All, ℕ, List, length, map};
ghost use Rattle.deck.specs.Limits.{most_devices};
ghost use Rattle.deck.specs.NamedDevices.{with_devices};
ghost use Rattle.network.specs.declared.network.NetLatch.{NetLatch};
ghost use Rattle.synth_flow.specs.BareDecks.{ArePlans, IsBareDeck, gate_nets, made_devices};
ghost use Rattle.deck_form.specs.DeckNets.{complement_net, own_net};
ghost use Rattle.synth_flow.specs.MadeDecks.{HasRoomForInverters, cells_from, inverters};
ghost use Rattle.dual_rail.specs.Uses.{IsEndThere};

use crate::cells::push_cells;
use crate::complements::named_complements;
use crate::inverters::push_inverters;
use crate::latches::push_latches;
use crate::names::{complement_name, gate_names, own_name};
use crate::sinks::sink_gate_names;
use deck::Circuit;
use dom_base::{NetName, OutOfMemory};
use domino_cell::Style;
use dual_rail::End;
use network::NetLatch;
use sp_network::GatePlan;
use std::alloc::Global;

/// The own nets of leaves.
fn own_names(alloc: Global, pins: &[NetName], leaves: &[u32]) -> Result<Vec<NetName>, OutOfMemory>
    ensures { IfOk result (λ names. names.items ≡ map (own_net pins.now) leaves.now) }
{
    let mut names = Vec::new(alloc);
    'leaves: for leaf in leaves {
        names.push(own_name(alloc, pins, *leaf)?)?;
    }
    Ok(names)
}

/// The nets of the opposites of leaves.
fn complement_names(alloc: Global, leaves: &[u32]) -> Result<Vec<NetName>, OutOfMemory>
    ensures { IfOk result (λ names. names.items ≡ map complement_net leaves.now) }
{
    let mut names = Vec::new(alloc);
    'leaves: for leaf in leaves {
        names.push(complement_name(alloc, *leaf)?)?;
    }
    Ok(names)
}

/// Appends the inverters of the complements of these leaves.
pub fn push_complements(
    alloc: Global,
    circuit: &mut Circuit,
    pins: &[NetName],
    leaves: &[u32],
) -> Result<(), OutOfMemory>
    requires nets { HasRoomForInverters circuit.old (map complement_net leaves.now) }
    requires room { length circuit.old.devices + 2 * length leaves.now ≤ most_devices }
    ensures { OnOk result (circuit.new ≡ with_devices circuit.old (inverters (map (own_net pins.now) leaves.now) (map complement_net leaves.now))) }
{
    let own = own_names(alloc, pins, leaves)?;
    let opposite = complement_names(alloc, leaves)?;
    push_inverters(alloc, circuit, own.as_slice(), opposite.as_slice())
}

/// Appends the cells of these plans to a circuit with the ports of a deck and no devices, over pins
/// and so many latches as leaves.
fn push_deck_cells(
    alloc: Global,
    circuit: &mut Circuit,
    style: Style,
    pins: &[NetName],
    plans: &[GatePlan],
    leaves: u32,
) -> Result<(), OutOfMemory>
    requires bare { (latches : ℕ) × (sinks : List (List ℕ)) × IsBareDeck circuit.old latches pins.now sinks plans.now }
    requires few { leaves ≤ 200000 }
    requires plans { ArePlans style leaves plans.now }
    ensures { OnOk result (circuit.new ≡ with_devices circuit.old
        (cells_from style (gate_nets pins.now leaves (2 * leaves + length plans.now)) 0 plans.now)) }
{
    let gates = gate_names(alloc, pins, leaves, 2 * leaves + plans.len() as u32)?;
    push_cells(alloc, circuit, style, plans, gates.as_slice())?;
    Ok(())
}

/// Appends the devices of a deck to a circuit with its ports and no devices: cells, inverters of the
/// complements that are named, latches, and inverters of sinks. The one error is out of memory.
pub fn push_deck(
    alloc: Global,
    circuit: &mut Circuit,
    style: Style,
    pins: &[NetName],
    sinks: &[NetName],
    latches: &[NetLatch],
    plans: &[GatePlan],
    ends: &[End],
    cells: &[u32],
) -> Result<(), OutOfMemory>
    requires bare { IsBareDeck circuit.old (length latches.now) pins.now sinks.now plans.now }
    requires few { length pins.now + length latches.now ≤ 200000 }
    requires few_sinks { length sinks.now ≤ 8192 }
    requires few_latches { length latches.now ≤ 8192 }
    requires plans { ArePlans style (length pins.now + length latches.now) plans.now }
    requires ends { All (IsEndThere (length cells.now)) ends.now }
    requires one_end { length ends.now ≡ length sinks.now }
    ensures { OnOk result (circuit.new ≡ with_devices circuit.old
        (made_devices style pins.now sinks.now (map (λ (l : NetLatch). l.init) latches.now) plans.now ends.now cells.now)) }
{
    circuit.whole();
    let leaves = pins.len() as u32 + latches.len() as u32;
    push_deck_cells(alloc, circuit, style, pins, plans, leaves)?;
    let named = named_complements(alloc, plans, ends, leaves)?;
    push_complements(alloc, circuit, pins, named.as_slice())?;
    push_latches(alloc, circuit, latches)?;
    let gates = sink_gate_names(alloc, pins, cells, ends)?;
    push_inverters(alloc, circuit, gates.as_slice(), sinks)?;
    Ok(())
}

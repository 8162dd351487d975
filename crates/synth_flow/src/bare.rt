//! The circuit of a deck without its devices.
ghost use Rattle.std.specs.Prelude.{◌≡◌, ◌<◌, ◌≤◌, ◌+◌, All, IfOk, length, map};
ghost use Rattle.std.specs.List.{zip};
ghost use Rattle.deck.specs.Escapes.{escaped};
ghost use Rattle.deck.specs.Pushes.{new_circuit};
ghost use Rattle.deck_form.specs.DominoDecks.{outs_of, pins_of};
ghost use Rattle.gate_decompose.specs.Sinks.{leaf_count};
ghost use Rattle.sp_network.specs.declared.plan.GatePlan.{GatePlan};
ghost use Rattle.synth_flow.specs.BareDecks.{ArePlans};
ghost use Rattle.synth_flow.specs.MadeCircuits.{made_deck, sinks_of};
ghost use Rattle.synth_flow.specs.SinkParts.{phase_of_sink};
ghost use Rattle.dual_rail.specs.Uses.{IsEndThere};

use crate::groups::push_deck;
use crate::names::{escaped_name, out_names, pin_names};
use crate::sinks::{phases, sink_names};
use deck::Circuit;
use dom_base::{NetName, OutOfMemory};
use domino_cell::Style;
use dual_rail::End;
use network::{ListPool, Network};
use sp_network::GatePlan;
use std::alloc::Global;

/// The bytes of names are below 256.
pub fn see_names(names: &ListPool<u8>)
    ensures { All (λ name. All (λ b. b < 256) name) names.now }
{
    'names: for k in 0..names.len() {
        see_bytes(names.list(k));
    }
}

/// Bytes are below 256.
#[tactic(auto, using(crate::proofs::PortNets::port_nets))]
pub fn see_bytes(bytes: &[u8])
    ensures { All (λ b. b < 256) bytes.now }
{}

/// A circuit with the ports and the phases of a deck and no devices, its pins, and the nets of its sinks.
#[derive(Drop)]
pub struct BareDeck {
    pub circuit: Circuit,
    pub pins: Vec<NetName>,
    pub sinks: Vec<NetName>,
}

/// The circuit of a network without devices, on so many clocks, with these signs of its sinks. The one error is out
/// of memory.
pub fn bare_deck(
    alloc: Global,
    network: &Network,
    clocks: u8,
    signs: &[bool],
) -> Result<BareDeck, OutOfMemory>
    requires some_clock { 1 ≤ clocks }
    requires few_clocks { clocks ≤ 4 }
    requires signs { length signs.now ≡ length network.now.outputs + length network.now.latches }
    ensures circuit { IfOk result (λ d. d.circuit ≡ new_circuit (escaped network.now.name)
        (map phase_of_sink (zip (sinks_of network.now) signs.now)) clocks (pins_of network.now) (outs_of network.now)) }
    ensures pins { IfOk result (λ d. d.pins.items ≡ pins_of network.now) }
    ensures sinks { IfOk result (λ d. d.sinks.items ≡ sinks_of network.now) }
    ensures names { IfOk result (λ _. All (λ name. All (λ b. b < 256) name) network.now.names) }
{
    let names = &network.names;
    see_names(names);
    let title = network.name.as_bytes();
    see_bytes(title);
    let pins = pin_names(alloc, names, network.inputs)?;
    let outs = out_names(alloc, names, network.outputs.as_slice())?;
    let sinks = sink_names(alloc, outs.as_slice(), network.latches.len() as u32)?;
    let phases = phases(alloc, sinks.as_slice(), signs)?;
    let name = escaped_name(alloc, b"", title)?;
    let circuit = Circuit::new(
        alloc,
        name,
        phases,
        clocks,
        pins.as_slice(),
        outs.as_slice(),
    )?;
    Ok(BareDeck {
        circuit,
        pins,
        sinks,
    })
}

/// The circuit of a network in cells of this style, with these plans of cells, ends of sinks and numbers of cells: its ports,
/// its phases, and the devices of the deck. The one error is out of memory.
pub fn deck_of(
    alloc: Global,
    network: &Network,
    clocks: u8,
    style: Style,
    signs: &[bool],
    plans: &[GatePlan],
    ends: &[End],
    cells: &[u32],
) -> Result<Circuit, OutOfMemory>
    requires some_clock { 1 ≤ clocks }
    requires few_clocks { clocks ≤ 4 }
    requires signs { length signs.now ≡ length network.now.outputs + length network.now.latches }
    requires plans { ArePlans style (leaf_count network.now) plans.now }
    requires clocks_are { All (λ (p : GatePlan). (1 ≤ p.clock) × (p.clock ≤ clocks)) plans.now }
    requires ends { All (IsEndThere (length cells.now)) ends.now }
    requires one_end { length ends.now ≡ length network.now.outputs + length network.now.latches }
    ensures { IfOk result (λ c. c ≡ made_deck style network.now clocks signs.now plans.now ends.now cells.now) }
{
    let BareDeck {
        circuit,
        pins,
        sinks,
    } = bare_deck(alloc, network, clocks, signs)?;
    let mut circuit = circuit;
    push_deck(
        alloc,
        &mut circuit,
        style,
        pins.as_slice(),
        sinks.as_slice(),
        network.latches.as_slice(),
        plans,
        ends,
        cells,
    )?;
    Ok(circuit)
}

//! The whole way from a network to a deck.
use crate::cards::{Card, escaped, numbered, output_names, pin_names, sink_nets};
use crate::cells::{PlainCell, cells_of};
use crate::cover::{chosen_plan, cover_tables};
use crate::forest::{PlainForest, forest_of};
use crate::gates::gates_of;
use crate::plans::PlainBounds;
use crate::signs::chosen_signs;
use plain_networks::PlainNetwork;
use plain_texts::{PlainDeck, PlainDevice};
use std::alloc::{AllocError, Global};

/// The names of the supplies.
const SUPPLIES: &[&str] = &["vdd", "vss"];

/// The names of the clocks of latches and of their resets.
const LATCH_CLOCKS: &[&str] = &["lm", "lmb", "ls", "lsb", "rs", "rsb"];

/// The bounds of trees and the number of clocks.
#[derive(Clone, Copy)]
pub struct PlainOptions {
    pub bounds: PlainBounds,
    pub clocks: usize,
}

/// What the chosen deck of a network is made of.
#[derive(Drop)]
pub struct Synthesis {
    pub signs: Vec<bool>,
    pub forest: PlainForest,
    pub kept: Vec<bool>,
    pub cells: Vec<PlainCell>,
}

/// The kept edges of the chosen plan of a forest. There is none where the bounds allow no plan.
fn kept_edges(
    alloc: Global,
    forest: &PlainForest,
    bounds: PlainBounds,
) -> Result<Option<Vec<bool>>, AllocError> {
    let tables = cover_tables(alloc, forest, bounds)?;
    chosen_plan(alloc, forest, &tables)
}

/// The chosen signs, the chosen plan and its cells. There is none where the bounds allow no plan.
pub fn synthesised(
    alloc: Global,
    network: &PlainNetwork,
    options: PlainOptions,
) -> Result<Option<Synthesis>, AllocError> {
    let gates = gates_of(alloc, network)?;
    let signs = chosen_signs(alloc, &gates)?;
    let forest = forest_of(alloc, &gates, &signs)?;
    planned(alloc, signs, forest, options)
}

/// The chosen plan of a forest of these signs, and its cells.
fn planned(
    alloc: Global,
    signs: Vec<bool>,
    forest: PlainForest,
    options: PlainOptions,
) -> Result<Option<Synthesis>, AllocError> {
    let Some(kept) = kept_edges(alloc, &forest, options.bounds)? else {
        return Ok(None);
    };
    let cells = cells_of(alloc, &forest, &kept, options.clocks)?;
    Ok(Some(Synthesis {
        signs,
        forest,
        kept,
        cells,
    }))
}

fn add_net(alloc: Global, nets: &mut Vec<Vec<u8>>, name: &str) -> Result<(), AllocError> {
    nets.push(Vec::from_slice(alloc, name.as_bytes())?)?;
    Ok(())
}

fn add_nets(alloc: Global, nets: &mut Vec<Vec<u8>>, names: &[String]) -> Result<(), AllocError> {
    for name in names {
        add_net(alloc, nets, name.as_str())?;
    }
    Ok(())
}

/// Adds the names of the ports.
fn add_ports(
    alloc: Global,
    network: &PlainNetwork,
    clocks: usize,
    nets: &mut Vec<Vec<u8>>,
) -> Result<(), AllocError> {
    for name in SUPPLIES {
        add_net(alloc, nets, name)?;
    }
    for clock in 0..clocks {
        let name = numbered(alloc, "ck", clock.saturating_add(1))?;
        add_net(alloc, nets, name.as_str())?;
    }
    for name in LATCH_CLOCKS {
        add_net(alloc, nets, name)?;
    }
    add_nets(alloc, nets, &pin_names(alloc, network)?)?;
    add_nets(alloc, nets, &output_names(alloc, network)?)
}

/// The number of a net of this name, which is added where it is new.
fn net_number(alloc: Global, nets: &mut Vec<Vec<u8>>, name: &str) -> Result<usize, AllocError> {
    for (number, known) in nets.iter().enumerate() {
        if known.as_slice() == name.as_bytes() {
            return Ok(number);
        }
    }
    let number = nets.len();
    add_net(alloc, nets, name)?;
    Ok(number)
}

/// Adds the phases of the sinks by their signs.
fn add_phases(
    alloc: Global,
    network: &PlainNetwork,
    signs: &[bool],
    phases: &mut Vec<(Vec<u8>, bool)>,
) -> Result<(), AllocError> {
    let sinks = sink_nets(alloc, network)?;
    for (net, sign) in sinks.iter().zip(signs.iter()) {
        phases.push((Vec::from_slice(alloc, net.as_str().as_bytes())?, *sign))?;
    }
    Ok(())
}

/// Adds the device of a card.
fn add_device(alloc: Global, card: &Card, deck: &mut PlainDeck) -> Result<(), AllocError> {
    let nets = &mut deck.nets;
    let drain = net_number(alloc, nets, card.drain.as_str())?;
    let gate = net_number(alloc, nets, card.gate.as_str())?;
    let source = net_number(alloc, nets, card.source.as_str())?;
    deck.devices.push(PlainDevice {
        kind: card.kind,
        drain,
        gate,
        source,
    })?;
    Ok(())
}

/// Adds all that the deck of these cards has.
fn add_all(
    alloc: Global,
    network: &PlainNetwork,
    signs: &[bool],
    clocks: usize,
    cards: &[Card],
    deck: &mut PlainDeck,
) -> Result<(), AllocError> {
    let name = escaped(alloc, network.name.as_str())?;
    deck.name.extend_from_slice(name.as_str().as_bytes())?;
    add_phases(alloc, network, signs, &mut deck.phases)?;
    add_ports(alloc, network, clocks, &mut deck.nets)?;
    deck.ports = deck.nets.len();
    for card in cards {
        add_device(alloc, card, deck)?;
    }
    Ok(())
}

/// The deck of these cards.
pub fn deck_of(
    alloc: Global,
    network: &PlainNetwork,
    signs: &[bool],
    clocks: usize,
    cards: &[Card],
) -> Result<PlainDeck, AllocError> {
    let mut deck = PlainDeck {
        name: Vec::new(alloc),
        phases: Vec::new(alloc),
        ports: 0,
        nets: Vec::new(alloc),
        devices: Vec::new(alloc),
    };
    add_all(alloc, network, signs, clocks, cards, &mut deck)?;
    Ok(deck)
}

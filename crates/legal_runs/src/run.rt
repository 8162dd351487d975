//! Runs of networks, and a legal run of a deck beside one.
use crate::breach::Breach;
use crate::clocks::{Clocking, Clocks};
use crate::nets::{Style, net_kinds};
use crate::rests::Rests;
use crate::state::State;
use crate::walk::Walk;
use comparison::Trouble;
use deck::Circuit;
use plain_networks::{PlainCycle, PlainNetwork, cycle, drawn_stream, start_state};
use plain_texts::{Draws, PlainDeck};
use std::alloc::Global;

/// What a network does over a stream of pins: its start state, the pins, and what it does in each cycle; and
/// in each cycle the values of the cells of a deck, where they are asked for.
#[derive(Drop)]
pub struct NetworkRun {
    pub start: Vec<bool>,
    pub stream: Vec<Vec<bool>>,
    pub cycles: Vec<PlainCycle>,
    pub cells: Vec<Vec<bool>>,
}

/// The run of a network over drawn pins of so many cycles.
pub fn drawn_run(
    alloc: Global,
    draws: &mut Draws,
    network: &PlainNetwork,
    count: usize,
) -> Result<NetworkRun, Trouble> {
    let stream = drawn_stream(alloc, draws, network.inputs, count)?;
    let start = start_state(alloc, network)?;
    let mut cycles: Vec<PlainCycle> = Vec::new(alloc);
    for pins in stream.iter() {
        let state = match cycles.last() {
            Some(before) => before.next.as_slice(),
            None => start.as_slice(),
        };
        let Some(found) = cycle(alloc, network, pins, state)? else {
            return Err(Trouble::Refused);
        };
        cycles.push(found)?;
    }
    Ok(NetworkRun {
        start,
        stream,
        cycles,
        cells: Vec::new(alloc),
    })
}

/// What a run of a deck showed: its first breach, the number of its events, and the watched values at its rests.
#[derive(Drop)]
pub struct Shown {
    pub breach: Option<Breach>,
    pub events: u64,
    pub rests: Rests,
}

/// What a deck is run by: the numbers of its clocks and pins, the style of its cells, and how its clocks move.
#[derive(Clone, Copy)]
pub struct Terms {
    pub clocks: usize,
    pub pins: usize,
    pub style: Style,
    pub clocking: Clocking,
}

/// One run of a circuit, which is this deck, by these terms beside the run of a network, in an order that these
/// draws give.
pub fn run_by(
    alloc: Global,
    circuit: &Circuit,
    deck: &PlainDeck,
    terms: Terms,
    run: &NetworkRun,
    draws: Draws,
) -> Result<Shown, Trouble> {
    let state = State::new(alloc, circuit)?;
    let latches = run.start.len();
    let kinds = net_kinds(alloc, deck, terms.clocks, terms.pins, latches, terms.style)?;
    if state.nets() != deck.nets.len() || state.sources() != kinds.sources {
        return Err(Trouble::Refused);
    }
    let clocks = Clocks::new(alloc, terms.clocking, terms.clocks)?;
    let mut walk = Walk::new(alloc, deck, &kinds, state, clocks, draws);
    let breach = walk.run(run)?;
    let Walk { events, rests, .. } = walk;
    Ok(Shown {
        breach,
        events,
        rests,
    })
}

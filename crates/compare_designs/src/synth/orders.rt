//! Decks in random legal orders of events, beside the runs of their networks.
use crate::synth::product::{OPTIONS, deck_text, options_at};
use crate::synth::tally::OrderTally;
use crate::texts::{DrawnText, drawn_text};
use comparison::{Trouble, network_of};
use legal_runs::{Clocking, Terms, drawn_run, run_by};
use network::Network;
use plain_hierarchies::refusal;
use plain_networks::Sizes;
use plain_texts::{DeckReading, Draws, read_deck};
use spice_read::read;
use std::alloc::Global;
use synth_flow::{Style, SynthOptions};

const SIZES: Sizes = Sizes {
    inputs: 4,
    latches: 3,
    tables: 8,
    outputs: 4,
};

/// The most tables of a network that is run.
const MOST_TABLES: usize = 10;

/// How many cycles a run has.
const CYCLES: usize = 3;

/// How many runs a deck has, in different orders.
const ORDERS: u64 = 3;

/// Draws for a run of a case.
fn run_draws(case: u64, order: u64) -> Draws {
    let run = case.saturating_mul(ORDERS).saturating_add(order);
    Draws::of_case(run.saturating_add(1_000_000))
}

/// What a deck of a network with so many pins by some options is run by.
fn terms_of(options: SynthOptions, pins: usize) -> Terms {
    Terms {
        clocks: options.phases as usize,
        pins,
        style: match options.style {
            Style::Keeper => legal_runs::Style::Keeper,
            Style::Precharge => legal_runs::Style::Precharge,
        },
        clocking: Clocking::Together,
    }
}

/// Runs a deck of a network, as it is read back. It answers whether each run keeps the laws and all runs are alike
/// at rest.
fn compare_deck(
    alloc: Global,
    case: u64,
    tally: &mut OrderTally,
    draws: &mut Draws,
    network: &Network,
    drawn: &DrawnText,
) -> Result<bool, Trouble> {
    let plain = drawn.network(alloc)?;
    if plain.tables.len() > MOST_TABLES {
        return Ok(true);
    }
    let number = u32::try_from(draws.below(OPTIONS as usize)).unwrap_or(0);
    let text = deck_text(alloc, network, number)?;
    let circuit = read(alloc, &text)?;
    let DeckReading::Deck(deck) = read_deck(alloc, &text)? else {
        return Err(Trouble::Refused);
    };
    let terms = terms_of(options_at(number), plain.inputs);
    let run = drawn_run(alloc, draws, &plain, CYCLES)?;
    let first = run_by(alloc, &circuit, &deck, terms, &run, run_draws(case, 0))?;
    let mut alike = first.breach.is_none();
    tally.add_run(CYCLES, first.events);
    for order in 1..ORDERS {
        let draws = run_draws(case, order);
        let other = run_by(alloc, &circuit, &deck, terms, &run, draws)?;
        alike = alike && other.breach.is_none() && other.rests.as_slice() == first.rests.as_slice();
        tally.add_run(CYCLES, other.events);
    }
    tally.decks = tally.decks.saturating_add(1);
    Ok(alike)
}

/// Runs a deck of each of so many generated files that has a network.
pub fn compare_orders(alloc: Global, files: u64) -> Result<OrderTally, Trouble> {
    let mut tally = OrderTally::new();
    for case in 0..files {
        let mut draws = Draws::of_case(case.saturating_add(1_000_000));
        let drawn = drawn_text(alloc, &mut draws, SIZES)?;
        if refusal(alloc, &drawn.file)?.is_some() {
            continue;
        }
        let network = network_of(alloc, drawn.text.as_bytes())?;
        if !compare_deck(alloc, case, &mut tally, &mut draws, &network, &drawn)? {
            tally.differs = Some(case);
            return Ok(tally);
        }
    }
    Ok(tally)
}

//! The comparison of traces.
use comparison::Trouble;
use plain_circuits::{
    Move, PlainOrder, Sample, Start, all_moves, append_pins, deck_text, played, report, sampled,
};
use plain_texts::Draws;
use std::alloc::{AllocError, Global};
use trace_tool::{Order, Trace, TraceFault, TraceOptions, sim};

/// What came of a comparison of traces: how many decks end unsettled in some order, where all are alike,
/// else the first deck with a trace that differs.
#[derive(Clone, Copy)]
pub enum Traced {
    Alike(u64),
    Differ(u64),
}

/// A generated circuit as a deck, with a stimulus, its cycles and all moves.
#[derive(Drop)]
struct Case {
    sample: Sample,
    deck: String,
    stimulus: String,
    cycles: Vec<Vec<bool>>,
    moves: Vec<Move>,
}

/// Compares the traces of so many generated decks.
pub fn traces(alloc: Global, decks: u64) -> Result<Traced, Trouble> {
    let mut unsettled = 0u64;
    for deck in 0..decks {
        let case = drawn_case(alloc, deck)?;
        match compared(alloc, &case, deck)? {
            Some(true) => (),
            Some(false) => unsettled = unsettled.saturating_add(1),
            None => return Ok(Traced::Differ(deck)),
        }
    }
    Ok(Traced::Alike(unsettled))
}

/// The case of this number.
fn drawn_case(alloc: Global, number: u64) -> Result<Case, AllocError> {
    let mut draws = Draws::of_case(number);
    let start = match number % 4 {
        0 => Start::Ring,
        1 => Start::Cell,
        2 => Start::Latch,
        _ => Start::Nothing,
    };
    let sample = sampled(alloc, &mut draws, start)?;
    let deck = deck_text(alloc, &sample)?;
    let cycles = drawn_cycles(alloc, &sample, &mut draws)?;
    let stimulus = stimulus_text(alloc, &cycles)?;
    let moves = all_moves(alloc, &sample, &cycles)?;
    Ok(Case {
        sample,
        deck,
        stimulus,
        cycles,
        moves,
    })
}

/// The pins of up to four cycles.
fn drawn_cycles(
    alloc: Global,
    sample: &Sample,
    draws: &mut Draws,
) -> Result<Vec<Vec<bool>>, AllocError> {
    let mut cycles = Vec::new(alloc);
    for _ in 0..draws.below(5) {
        let mut pins = Vec::new(alloc);
        for _ in 0..sample.pins {
            pins.push(draws.below(2) == 1)?;
        }
        cycles.push(pins)?;
    }
    Ok(cycles)
}

fn stimulus_text(alloc: Global, cycles: &[Vec<bool>]) -> Result<String, AllocError> {
    let mut text = String::new(alloc);
    for pins in cycles {
        append_pins(&mut text, pins)?;
        text.push_str("\n")?;
    }
    Ok(text)
}

/// Whether the traces of a case settle in each order, where all are alike.
fn compared(alloc: Global, case: &Case, seed: u64) -> Result<Option<bool>, Trouble> {
    let mut settled = true;
    for (order, plain) in [
        (Order::First, PlainOrder::First),
        (Order::Last, PlainOrder::Last),
        (Order::Seed, PlainOrder::Seed(seed)),
    ] {
        let run = played(alloc, &case.sample, &case.moves, plain)?;
        for events in [false, true] {
            let wanted = report(alloc, &case.sample, &case.cycles, &run, events)?;
            let found = simulated(alloc, case, order, seed, events)?;
            if found.text.as_slice() != wanted.as_bytes()
                || found.settled != run.unsettled.is_none()
            {
                return Ok(None);
            }
        }
        settled = settled && run.unsettled.is_none();
    }
    Ok(Some(settled))
}

/// The trace by the simulation of the deck's text.
fn simulated(
    alloc: Global,
    case: &Case,
    order: Order,
    seed: u64,
    events: bool,
) -> Result<Trace, Trouble> {
    let options = TraceOptions {
        order,
        seed,
        probes: Vec::new(alloc),
        events,
    };
    let (deck, stimulus) = (case.deck.as_bytes(), case.stimulus.as_bytes());
    match sim(alloc, deck, stimulus, &options) {
        Ok(trace) => Ok(trace),
        Err(TraceFault::Memory) => Err(Trouble::Memory),
        Err(_) => Err(Trouble::Refused),
    }
}

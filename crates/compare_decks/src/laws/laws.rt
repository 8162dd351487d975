//! The comparison of runs of decks with the laws of every order of events.
use crate::laws::cases::{Case, DeckKind, drawn_case};
use crate::laws::wrong::Wrong;
use comparison::Trouble;
use plain_texts::{Draws, PlainDeck};
use std::alloc::Global;

/// How many runs each deck has, in different orders.
const ORDERS: u64 = 3;

/// How many runs of a changed deck are tried.
const TRIES: u64 = 6;

/// What came of the runs: their events where all keep the laws, else the first case that breaks one.
#[derive(Clone, Copy)]
pub enum Kept {
    Events(u64),
    Broken(u64),
}

/// Draws for a run of a case.
fn run_draws(case: u64, order: u64) -> Draws {
    Draws::of_case(
        case.saturating_mul(64)
            .saturating_add(order)
            .saturating_add(7),
    )
}

/// Runs the decks of so many cases of a kind. Each run keeps the laws, and all runs of a deck are alike at rest.
pub fn laws_kept(alloc: Global, kind: DeckKind, cases: u64) -> Result<Kept, Trouble> {
    let mut events = 0u64;
    for number in 0..cases {
        let case = drawn_case(alloc, kind, number)?;
        let deck = case.deck(alloc)?;
        let first = case.shown(alloc, &deck, run_draws(number, 0))?;
        let mut kept = first.breach.is_none();
        events = events.saturating_add(first.events);
        for order in 1..ORDERS {
            let other = case.shown(alloc, &deck, run_draws(number, order))?;
            kept = kept && other.breach.is_none() && other.rests.are_alike(&first.rests);
            events = events.saturating_add(other.events);
        }
        if !kept {
            return Ok(Kept::Broken(number));
        }
    }
    Ok(Kept::Events(events))
}

/// How many decks were changed, and of how many of them some run broke a law.
#[derive(Clone, Copy)]
pub struct Tally {
    pub decks: u64,
    pub broken: u64,
}

/// Whether one of several runs of a deck breaks a law.
pub fn breaks_law(
    alloc: Global,
    case: &Case,
    deck: &PlainDeck,
    number: u64,
) -> Result<bool, Trouble> {
    for order in 0..TRIES {
        let shown = case.shown(alloc, deck, run_draws(number, order))?;
        if shown.breach.is_some() {
            return Ok(true);
        }
    }
    Ok(false)
}

/// Changes the decks of so many cases, and runs them in several orders.
pub fn found(alloc: Global, cases: u64, wrong: Wrong) -> Result<Tally, Trouble> {
    let mut all = Tally {
        decks: 0,
        broken: 0,
    };
    for number in 0..cases {
        let mut case = drawn_case(alloc, wrong.kind(), number)?;
        if case.change(alloc, wrong)? {
            let deck = case.deck(alloc)?;
            all.decks = all.decks.saturating_add(1);
            if breaks_law(alloc, &case, &deck, number)? {
                all.broken = all.broken.saturating_add(1);
            }
        }
    }
    Ok(all)
}

//! Runs generated domino decks of each kind in random legal orders of events, with later clocks that rise at any
//! moment, and holds each state against the laws; runs decks that are changed so that they break one; and holds pairs,
//! signs and covers of generated gates against all sets, all signs and all plans.
mod calls;
mod cases;
mod forests;
mod laws;
mod nested;
mod wrong;

use calls::{calls_kept, lost_ports_found};
use cases::DeckKind;
use comparison::{Trouble, printed};
use forests::forests_are_alike;
use laws::{Kept, found, laws_kept};
use nested::{lost_nets_found, nested_kept};
use std::alloc::Global;
use wrong::Wrong;

/// How many decks with keepers are run.
const DECKS: u64 = 200;

/// How many decks of each other kind are run.
const OTHER_DECKS: u64 = 100;

/// How many decks of calls in calls are expanded.
const NESTED: u64 = 2_000;

/// How many cases are changed, each in every way.
const CHANGED: u64 = 60;

/// Runs so many decks of a kind and prints what came of it. It answers whether all laws were kept.
fn decks_keep_laws(
    rt: &impl Print,
    alloc: Global,
    kind: DeckKind,
    decks: u64,
) -> Result<bool, Trouble> {
    let words = kind.words();
    match laws_kept(alloc, kind, decks)? {
        Kept::Events(events) => {
            printed(println!(rt; "{words} {decks} decks, {events} events, all alike"))?;
            Ok(true)
        }
        Kept::Broken(case) => {
            printed(println!(rt; "{words} broken at case {case}"))?;
            Ok(false)
        }
    }
}

/// Runs changed decks and prints how many of them break a law. It answers whether some do.
fn changes_are_found(rt: &impl Print, alloc: Global, wrong: Wrong) -> Result<bool, Trouble> {
    let found = found(alloc, CHANGED, wrong)?;
    let (words, decks, broken) = (wrong.words(), found.decks, found.broken);
    printed(println!(rt; "{words}: {decks} decks, {broken} break a law"))?;
    Ok(broken > 0)
}

/// Prints what came of expansions of so many decks with calls. It answers whether they are as they should be.
fn expansions_are_alike(
    rt: &impl Print,
    words: &str,
    decks: u64,
    kept: Kept,
) -> Result<bool, Trouble> {
    match kept {
        Kept::Events(devices) => {
            printed(println!(rt; "{words} {decks} decks, {devices} devices, all alike"))?;
            Ok(true)
        }
        Kept::Broken(case) => {
            printed(println!(rt; "{words} differ at case {case}"))?;
            Ok(false)
        }
    }
}

/// Expands decks with calls, and takes ports of calls for inner nets. It answers whether all is as it should be.
fn calls_are_kept(rt: &impl Print, alloc: Global) -> Result<bool, Trouble> {
    let kept = calls_kept(alloc, DeckKind::Compound, OTHER_DECKS)?;
    let alike = expansions_are_alike(rt, "calls", OTHER_DECKS, kept)?;
    let nested = nested_kept(alloc, NESTED)?;
    let are_nested_alike = expansions_are_alike(rt, "calls in calls", NESTED, nested)?;
    let found = lost_ports_found(alloc, CHANGED)?;
    let (decks, broken) = (found.decks, found.broken);
    printed(println!(rt; "a port taken for an inner net: {decks} decks, {broken} break a law"))?;
    let lost = lost_nets_found(alloc, NESTED)?;
    let (texts, differ) = (lost.decks, lost.broken);
    printed(println!(rt;
        "a port of calls in calls taken for an inner net: {texts} decks, {differ} differ"
    ))?;
    Ok(alike && are_nested_alike && broken > 0 && differ > 0)
}

/// Compares all and prints what came of it. It answers whether all are alike.
pub fn all_alike(rt: &impl Print, alloc: Global) -> Result<bool, Trouble> {
    let mut alike = decks_keep_laws(rt, alloc, DeckKind::Keepers, DECKS)?;
    for kind in [DeckKind::Precharge, DeckKind::Buffers, DeckKind::Compound] {
        let kept = decks_keep_laws(rt, alloc, kind, OTHER_DECKS)?;
        alike = alike && kept;
    }
    for wrong in [
        Wrong::StrongKeepers,
        Wrong::NoFeet,
        Wrong::LeafOnDynamicNet,
        Wrong::SinksExchanged,
        Wrong::InnerNetNotPrecharged,
        Wrong::InnerNetOnOtherClock,
        Wrong::ReadsTwoBack,
        Wrong::BufferOnEarlierClock,
        Wrong::FallsBeforeNext,
        Wrong::FallsWithoutRest,
        Wrong::SharedNet,
        Wrong::OneSidedPair,
    ] {
        let found = changes_are_found(rt, alloc, wrong)?;
        alike = alike && found;
    }
    let calls = calls_are_kept(rt, alloc)?;
    let forests = forests_are_alike(rt, alloc)?;
    Ok(alike && calls && forests)
}

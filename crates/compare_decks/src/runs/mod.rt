//! Compares the targets and the traces of small circuits, and texts of decks and stimuli, with plain and slow
//! functions that were written from the rules alone, and simulates large and awkward circuits. What is
//! generated is the same each time.
mod large;
mod targets;
mod texts;
mod traces;

use comparison::{Trouble, printed};
use large::print_large;
use std::alloc::Global;
use targets::{Outcome, targets};
use texts::texts_are_alike;
use traces::{Traced, traces};

/// How many circuits have their targets compared.
const CIRCUITS: u64 = 800;

/// How many decks have their traces compared.
const DECKS: u64 = 400;

/// Compares targets and prints what came of it. It answers whether all are alike.
fn targets_are_alike(rt: &impl Print, alloc: Global) -> Result<bool, Trouble> {
    match targets(alloc, CIRCUITS)? {
        Outcome::Alike(count) => {
            printed(println!(rt; "targets {CIRCUITS} circuits, {count} targets, all alike"))?;
            Ok(true)
        }
        Outcome::Differ(case) => {
            printed(println!(rt; "targets differ at case {case}"))?;
            Ok(false)
        }
    }
}

/// Compares traces and prints what came of it. It answers whether all are alike.
fn traces_are_alike(rt: &impl Print, alloc: Global) -> Result<bool, Trouble> {
    match traces(alloc, DECKS)? {
        Traced::Alike(unsettled) => {
            printed(println!(rt; "traces {DECKS} decks, {unsettled} unsettled, all alike"))?;
            Ok(true)
        }
        Traced::Differ(case) => {
            printed(println!(rt; "traces differ at case {case}"))?;
            Ok(false)
        }
    }
}

/// Compares all and prints what came of it. It answers whether all are alike.
pub fn all_alike(rt: &impl Print, alloc: Global) -> Result<bool, Trouble> {
    let targets = targets_are_alike(rt, alloc)?;
    let traces = traces_are_alike(rt, alloc)?;
    let texts = texts_are_alike(rt, alloc)?;
    print_large(rt, alloc)?;
    Ok(targets && traces && texts)
}

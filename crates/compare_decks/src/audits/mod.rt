//! Compares the audit of decks with a plain and slow one that was written from the rules alone: the product's own decks
//! of generated networks as they are, in another order with other inner names and exchanged ends, and changed. The decks
//! are the same each time.
mod cases;
mod cells;
mod changes;
mod design;
mod latches;
mod leaves;
mod order;
mod owned;
mod parts;
mod reduction;
mod tally;
mod uses;
mod words;

use cases::compare_audits;
use comparison::{Trouble, printed};
use std::alloc::Global;
use tally::Tally;

/// How many networks are drawn.
const NETWORKS: u64 = 1_000;

/// What is changed in decks, by the numbers of changes.
const NAMES: &[&str] = &[
    "left out",
    "other gates",
    "other drains",
    "other sources",
    "other kinds",
    "doubled",
    "added",
    "gates exchanged",
    "nets merged",
    "outputs used",
    "inverters added",
    "latches changed",
    "cells read",
    "keepers exchanged",
    "trees joined",
    "nets split",
];

/// Prints how many decks have each answer and each change.
fn print_counts(rt: &impl Print, tally: &Tally) -> Result<(), Trouble> {
    let (own, decks, yes) = (tally.own, tally.decks, tally.yes);
    printed(println!(rt; "{own} own decks, {decks} decks, {yes} yes"))?;
    for (place, count) in tally.rules.iter().enumerate() {
        let rule = place.saturating_add(1);
        printed(println!(rt; "no by rule {rule} {count}"))?;
    }
    for (name, count) in NAMES.iter().zip(tally.changes.iter()) {
        printed(println!(rt; "{name} {count}"))?;
    }
    Ok(())
}

/// Audits decks twice and prints what came of it. It answers whether all are alike and each rule and change was met.
/// Compares all and prints what came of it. It answers whether all are alike.
pub fn all_alike(rt: &impl Print, alloc: Global) -> Result<bool, Trouble> {
    let tally = compare_audits(alloc, NETWORKS)?;
    if let Some(case) = tally.differs {
        printed(println!(rt; "audits differ at case {case}"))?;
        return Ok(false);
    }
    print_counts(rt, &tally)?;
    let met = tally.met_all();
    let end = if met { "all alike" } else { "not all met" };
    printed(println!(rt; "{end}"))?;
    Ok(met)
}

//! Compares the decks with compound cells of generated networks with those of plain and slow functions that were
//! written from the rules alone, byte for byte; the costs of their plans with the least of all plans, where all are
//! tried; and runs decks, as they are read back, in random legal orders of events beside the runs of the networks. The
//! networks are the same ones each time.
mod all_plans;
mod cover;
mod decks;
mod offers;
mod product;

use comparison::{Trouble, printed};
use decks::{Tally, compare_decks};
use std::alloc::Global;

/// How many networks are compared.
const NETWORKS: u64 = 820;

/// Compares decks and prints what came of it. It answers whether all are alike.
pub fn compounds_are_alike(rt: &impl Print, alloc: Global) -> Result<bool, Trouble> {
    let Tally {
        decks,
        compound,
        tried,
        runs,
        events,
        differs,
    } = compare_decks(alloc, NETWORKS)?;
    if let Some(case) = differs {
        printed(println!(rt; "decks differ at case {case}"))?;
        return Ok(false);
    }
    printed(println!(rt;
        "{NETWORKS} networks, {decks} decks, {compound} with compound cells, {tried} by all plans, {runs} runs, {events} events, all alike"
    ))?;
    Ok(true)
}

//! Compares the decks of generated files, of all options, without and with chains of buffers, with those of plain
//! and slow functions that were written from the rules alone, byte for byte; and runs decks, as they are read back,
//! in random legal orders of events beside the runs of the networks; and does so with decks with compound cells, the
//! costs of whose plans it compares with the least of all plans. The files are the same each time.
mod compound;
mod decks;
mod orders;
mod product;
mod tally;

use comparison::{Trouble, printed};
use compound::compounds_are_alike;
use decks::compare_decks;
use orders::compare_orders;
use std::alloc::Global;

/// How many files have their decks compared.
const FILES: u64 = 600;

/// How many files have a deck that is run.
const RUNS: u64 = 1_000;

/// Compares decks and prints what came of it. It answers whether all are alike.
fn decks_are_alike(rt: &impl Print, alloc: Global) -> Result<bool, Trouble> {
    let tally = compare_decks(alloc, FILES)?;
    if let Some(case) = tally.differs {
        printed(println!(rt; "decks differ at case {case}"))?;
        return Ok(false);
    }
    let (networks, refused, decks, devices) = (
        tally.networks,
        tally.refused,
        tally.decks,
        tally.devices,
    );
    printed(println!(rt;
        "decks {FILES} files, {refused} refused, {networks} networks, {decks} decks, {devices} devices, all alike"
    ))?;
    Ok(true)
}

/// Runs decks and prints what came of it. It answers whether all are as their networks.
fn orders_are_alike(rt: &impl Print, alloc: Global) -> Result<bool, Trouble> {
    let tally = compare_orders(alloc, RUNS)?;
    if let Some(case) = tally.differs {
        printed(println!(rt; "orders differ at case {case}"))?;
        return Ok(false);
    }
    let (decks, cycles, events) = (tally.decks, tally.cycles, tally.events);
    printed(println!(rt; "orders {decks} decks, {cycles} cycles, {events} events, all alike"))?;
    Ok(true)
}

/// Compares all and prints what came of it. It answers whether all are alike.
pub fn all_alike(rt: &impl Print, alloc: Global) -> Result<bool, Trouble> {
    let decks = decks_are_alike(rt, alloc)?;
    let orders = orders_are_alike(rt, alloc)?;
    let compounds = compounds_are_alike(rt, alloc)?;
    Ok(decks && orders && compounds)
}

//! Compares the readers of decks and of stimuli, what is written of a deck and the roles of ports with
//! plain and slow functions that were written from the formats alone, on small texts that are made here
//! and are the same each time.
mod deck_cases;
mod deck_texts;
mod port_cases;
mod port_texts;
mod stim_cases;
mod stim_texts;

use comparison::{Trouble, printed};
use deck_cases::compare_decks;
use plain_texts::Tally;
use port_cases::compare_ports;
use std::alloc::Global;
use stim_cases::compare_stimuli;

/// Prints what came of one comparison. It answers whether all texts were alike.
fn report(rt: &impl Print, alloc: Global, what: &str, tally: Tally) -> Result<bool, Trouble> {
    let line = tally.line(alloc, what)?;
    printed(println!(rt; "{line}"))?;
    Ok(tally.differs.is_none())
}

/// Reads texts twice and prints what came of it. It answers whether all are alike.
pub fn texts_are_alike(rt: &impl Print, alloc: Global) -> Result<bool, Trouble> {
    let decks = report(rt, alloc, "decks", compare_decks(alloc)?)?;
    let stimuli = report(rt, alloc, "stimuli", compare_stimuli(alloc)?)?;
    let ports = report(rt, alloc, "ports", compare_ports(alloc)?)?;
    Ok(decks && stimuli && ports)
}

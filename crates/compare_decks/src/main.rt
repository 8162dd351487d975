//! Compares what is said of generated decks with plain and slow functions that were written from the rules alone:
//! traces and targets, audits, and the laws of every order. The decks are the same each time.
#![tactic(auto)]

mod audits;
mod laws;
mod runs;

use comparison::{Trouble, ended};
use std::alloc::Global;
use std::process::ExitCode;

fn all_alike(rt: &impl Print, alloc: Global) -> Result<bool, Trouble> {
    let runs = runs::all_alike(rt, alloc)?;
    let audits = audits::all_alike(rt, alloc)?;
    let laws = laws::all_alike(rt, alloc)?;
    Ok(runs && audits && laws)
}

fn main(rt: HostRuntime) -> ExitCode {
    ended(all_alike(&rt, rt.alloc()))
}

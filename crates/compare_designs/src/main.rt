//! Compares what is made of generated designs with plain and slow functions that were written from the rules
//! alone: files and networks, gates and covers, decks. The designs are the same each time.
#![tactic(auto)]

mod divided;
mod logic;
mod networks;
mod synth;
mod texts;

use comparison::{Trouble, ended};
use std::alloc::Global;
use std::process::ExitCode;

fn all_alike(rt: &impl Print, alloc: Global) -> Result<bool, Trouble> {
    let networks = networks::all_alike(rt, alloc)?;
    let logic = logic::all_alike(rt, alloc)?;
    let synth = synth::all_alike(rt, alloc)?;
    Ok(networks && logic && synth)
}

fn main(rt: HostRuntime) -> ExitCode {
    ended(all_alike(&rt, rt.alloc()))
}

//! Compares what files are refused for, their counts, their networks and the runs of these with plain and slow functions that
//! were written from the rules alone; and how BLIF is read and printed. The files are the same each time.
mod blif;
mod cases;
mod faults;
mod parse;
mod runs;
mod same;
mod shapes;
mod tally;

use blif::texts_are_alike;
use cases::{compare_drawn, compare_faults, compare_shapes};
use comparison::{Trouble, printed};
use std::alloc::Global;
use tally::{ORDER, Tally};

/// How many hierarchies are generated.
const HIERARCHIES: u64 = 4_000;

/// Prints how many files were refused for each kind.
fn print_refused(rt: &impl Print, tally: &Tally) -> Result<(), Trouble> {
    for (kind, count) in ORDER.iter().zip(tally.refused.iter()) {
        printed(println!(rt; "  refused for {kind}: {count}"))?;
    }
    Ok(())
}

/// Prints what came of a comparison. It answers whether all files were alike.
fn print(rt: &impl Print, what: &str, tally: &Tally) -> Result<bool, Trouble> {
    if let Some(case) = tally.differs {
        printed(println!(rt; "{what} differ at case {case}"))?;
        return Ok(false);
    }
    let (files, networks, cycles) = (tally.files, tally.networks, tally.cycles);
    printed(println!(rt; "{what} {files} files, {networks} networks, {cycles} cycles, all alike"))?;
    print_refused(rt, tally)?;
    Ok(true)
}

/// Compares all and prints what came of it. It answers whether all are alike.
pub fn all_alike(rt: &impl Print, alloc: Global) -> Result<bool, Trouble> {
    let drawn = print(rt, "hierarchies", &compare_drawn(alloc, HIERARCHIES)?)?;
    let faults = print(rt, "faults", &compare_faults(alloc)?)?;
    let shapes = print(rt, "shapes", &compare_shapes(alloc)?)?;
    let texts = texts_are_alike(rt, alloc)?;
    Ok(drawn && faults && shapes && texts)
}

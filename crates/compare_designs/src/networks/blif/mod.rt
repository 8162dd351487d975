//! Compares the reader and the printer of BLIF with plain and slow ones that were written from the format
//! alone, on small texts that are made here and are the same each time.
mod cases;
mod same;
mod texts;

use cases::compare_blif;
use comparison::{Trouble, printed};
use std::alloc::Global;

/// Reads texts twice and prints what came of it. It answers whether all are alike.
pub fn texts_are_alike(rt: &impl Print, alloc: Global) -> Result<bool, Trouble> {
    let tally = compare_blif(alloc)?;
    let line = tally.line(alloc, "blif")?;
    printed(println!(rt; "{line}"))?;
    Ok(tally.differs.is_none())
}

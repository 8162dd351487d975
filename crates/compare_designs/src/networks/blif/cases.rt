//! BLIF texts, read twice.
use crate::networks::blif::same::same_file;
use crate::networks::blif::texts::{
    ENDS, LINES, PARTS, PATTERNS, WHOLE, WORDS, WORKED, framed, wide,
};
use blif_ast::print;
use blif_read::{BlifFault, BlifKind, accepted_file_is_good, read};
use dom_base::OutOfMemory;
use plain_texts::{BlifReading, Draws, Tally, listed, print_blif, read_blif};
use std::alloc::Global;

/// The number of a kind in the table of refusals.
fn number_of(kind: BlifKind) -> u8 {
    match kind {
        BlifKind::ControlByte => 1,
        BlifKind::UnknownCard => 2,
        BlifKind::BadCard => 3,
        BlifKind::RowOutsideTable => 4,
        BlifKind::BadRow => 5,
        BlifKind::MixedCover => 6,
        BlifKind::TooWide => 7,
        BlifKind::NoModel => 8,
        BlifKind::LatchKind => 9,
    }
}

/// Reads a text twice.
fn compare(alloc: Global, tally: &mut Tally, text: &[u8]) -> Result<(), OutOfMemory> {
    let plain = read_blif(alloc, text)?;
    match read(alloc, text) {
        Ok(file) => {
            let alike = match &plain {
                BlifReading::Lines(lines) => {
                    accepted_file_is_good();
                    let printed = print(alloc, &file)?;
                    same_file(&file, lines) && printed == print_blif(alloc, lines)?
                }
                BlifReading::Fault(_, _) => false,
            };
            tally.count(false, alike);
            Ok(())
        }
        Err(BlifFault::At { line, kind }) => {
            let alike = match &plain {
                BlifReading::Lines(_) => false,
                BlifReading::Fault(other, number) => line == *other && number_of(kind) == *number,
            };
            tally.count(true, alike);
            Ok(())
        }
        Err(BlifFault::Memory) => Err(OutOfMemory),
    }
}

/// Reads the worked texts, one of them cut short at each byte, patterns with each byte, tables about
/// as wide as they may be, and texts of drawn pieces.
pub fn compare_blif(alloc: Global) -> Result<Tally, OutOfMemory> {
    let mut tally = Tally::new();
    for text in listed(alloc, WORKED, WHOLE, PATTERNS)? {
        compare(alloc, &mut tally, &text)?;
    }
    for width in 4_095..4_099u32 {
        compare(alloc, &mut tally, &wide(alloc, ".model w", width)?)?;
        compare(alloc, &mut tally, &wide(alloc, "", width)?)?;
    }
    let mut draws = Draws::new(2);
    for _ in 0..120u32 {
        compare(alloc, &mut tally, &draws.text(alloc, 8, LINES, ENDS)?)?;
        compare(alloc, &mut tally, &draws.text(alloc, 20, WORDS, PARTS)?)?;
    }
    for _ in 0..360u32 {
        compare(alloc, &mut tally, &framed(alloc, &mut draws)?)?;
    }
    Ok(tally)
}

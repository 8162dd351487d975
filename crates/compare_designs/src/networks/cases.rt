//! Files, flattened twice.
ghost use Rattle.blif_ast.specs.Good.{IsGoodFile};
ghost use Rattle.net_flatten.specs.Flattening.{IsNetworkOf};

use crate::networks::faults::{FAULTS, Fault, faulty};
use crate::networks::parse::file_of;
use crate::networks::runs::same_run;
use crate::networks::same::{same_count, same_network, same_report, same_sizes};
use crate::networks::shapes::{SHAPES, shaped};
use crate::networks::tally::Tally;
use blif_ast::BlifFile;
use blif_read::{accepted_file_is_good, read};
use comparison::Trouble;
use net_flatten::{FlatFault, Network, flatten};
use plain_hierarchies::{PlainFile, drawn_file, network_of, refusal, written};
use plain_texts::{BlifReading, Draws, read_blif};
use std::alloc::Global;

/// Compares the network of a file, and some cycles of it.
fn compare_network(
    alloc: Global,
    draws: &mut Draws,
    tally: &mut Tally,
    network: &Network,
    plain: &PlainFile,
) -> Result<(), Trouble> {
    let wanted = network_of(alloc, plain)?;
    let same = same_network(alloc, network, &wanted)?;
    match same_run(alloc, draws, network, &wanted)? {
        Some(cycles) => tally.add_network(cycles, same),
        None => tally.add_network(0, false),
    }
    Ok(())
}

/// Compares the counts and the network of a file that has one.
fn compare_accepted(
    alloc: Global,
    draws: &mut Draws,
    tally: &mut Tally,
    file: &BlifFile,
    network: &Network,
    plain: &PlainFile,
) -> Result<(), Trouble>
    requires good { IsGoodFile file.now }
    requires network { IsNetworkOf file.now network.now }
{
    if refusal(alloc, plain)?.is_none() && same_sizes(alloc, file, plain)? {
        compare_network(alloc, draws, tally, network, plain)
    } else {
        tally.add_difference();
        Ok(())
    }
}

/// Compares what a file of this text is refused for, and else its network.
fn compare(
    alloc: Global,
    draws: &mut Draws,
    tally: &mut Tally,
    text: &[u8],
    plain: &PlainFile,
) -> Result<(), Trouble> {
    let file = read(alloc, text)?;
    accepted_file_is_good();
    match flatten(alloc, &file) {
        Ok(network) => compare_accepted(alloc, draws, tally, &file, &network, plain),
        Err(FlatFault::At { line, kind, name }) => {
            let wanted = refusal(alloc, plain)?;
            tally.add_refusal(kind.number(), same_report(plain, wanted, kind, line, &name));
            Ok(())
        }
        Err(FlatFault::TooMany { limit, count }) => {
            let wanted = refusal(alloc, plain)?;
            let alike = same_sizes(alloc, &file, plain)? && same_count(wanted, limit, count);
            tally.add_refusal(limit.number(), alike);
            Ok(())
        }
        Err(FlatFault::Memory) => Err(Trouble::Memory),
    }
}

/// Compares a text that was written by hand.
fn compare_text(
    alloc: Global,
    draws: &mut Draws,
    tally: &mut Tally,
    text: &[u8],
) -> Result<(), Trouble> {
    match read_blif(alloc, text)? {
        BlifReading::Lines(lines) => {
            let plain = file_of(alloc, &lines)?;
            compare(alloc, draws, tally, text, &plain)
        }
        BlifReading::Fault(_, _) => Err(Trouble::Refused),
    }
}

/// Compares a text with these faults, of which the one with this number is told.
fn compare_faulty(
    alloc: Global,
    tally: &mut Tally,
    faults: &[Fault],
    told: u64,
) -> Result<(), Trouble> {
    let text = faulty(alloc, faults)?;
    let before = tally.refused_for(told);
    compare_text(alloc, &mut Draws::new(0), tally, text.as_bytes())?;
    if tally.refused_for(told) == before {
        tally.add_difference();
    }
    Ok(())
}

/// Compares the texts with one fault, and those with two in either order, of which the earlier one in the order of
/// refusals is told.
pub fn compare_faults(alloc: Global) -> Result<Tally, Trouble> {
    let mut tally = Tally::new();
    for (place, fault) in FAULTS.iter().enumerate() {
        compare_faulty(alloc, &mut tally, &[*fault], fault.number)?;
        for later in FAULTS.iter().skip(place).skip(1) {
            compare_faulty(alloc, &mut tally, &[*fault, *later], fault.number)?;
            compare_faulty(alloc, &mut tally, &[*later, *fault], fault.number)?;
        }
    }
    Ok(tally)
}

/// Compares the long texts.
pub fn compare_shapes(alloc: Global) -> Result<Tally, Trouble> {
    let mut tally = Tally::new();
    let mut draws = Draws::new(1);
    for shape in SHAPES {
        let text = shaped(alloc, *shape)?;
        compare_text(alloc, &mut draws, &mut tally, text.as_bytes())?;
    }
    Ok(tally)
}

/// Compares so many generated hierarchies.
pub fn compare_drawn(alloc: Global, cases: u64) -> Result<Tally, Trouble> {
    let mut tally = Tally::new();
    for case in 0..cases {
        let mut draws = Draws::of_case(case);
        let mut plain = drawn_file(alloc, &mut draws)?;
        let text = written(alloc, &mut plain)?;
        compare(alloc, &mut draws, &mut tally, text.as_bytes(), &plain)?;
    }
    Ok(tally)
}

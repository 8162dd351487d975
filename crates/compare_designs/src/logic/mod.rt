//! Compares the gates, the forests, the signs, the covers, the levels and the clocks of generated networks with plain and slow
//! functions that were written from the rules alone. The networks are the same ones each time.
mod alike;
mod cases;
mod clocked;
mod cover_cases;
mod covers;
mod networks;
mod same;

use cases::{Compared, compare_networks};
use comparison::{Trouble, printed};
use covers::{Outcome, compare_covers};
use plain_networks::Sizes;
use std::alloc::Global;

const SMALL: Sizes = Sizes {
    inputs: 3,
    latches: 2,
    tables: 4,
    outputs: 3,
};

const LARGE: Sizes = Sizes {
    inputs: 6,
    latches: 3,
    tables: 12,
    outputs: 6,
};

/// How many networks have their covers compared.
const COVERED: u64 = 1_000;

/// Prints what came of a comparison of gates and forests. It answers whether all are alike.
fn print(rt: &impl Print, compared: Compared) -> Result<bool, Trouble> {
    let Compared {
        networks,
        nodes,
        constants,
        forests,
        pairs,
        exact,
        fewer,
        alike,
    } = compared;
    let end = if alike { "all alike" } else { "not all alike" };
    printed(println!(rt;
        "{networks} networks, {nodes} nodes, {constants} constant sinks, {forests} forests, {pairs} pairs, {exact} exact signs, {fewer} with fewer, {end}"
    ))?;
    Ok(alike)
}

/// Compares covers and prints what came of it. It answers whether all are alike.
fn covers_are_alike(rt: &impl Print, alloc: Global) -> Result<bool, Trouble> {
    match compare_covers(alloc, COVERED)? {
        Outcome::Alike(counts) => {
            let (networks, plans, cells) = (counts.networks, counts.plans, counts.cells);
            printed(println!(rt;
                "covers {networks} networks, {plans} plans, {cells} cells, all alike"
            ))?;
            Ok(true)
        }
        Outcome::Differs(case) => {
            printed(println!(rt; "covers differ at case {case}"))?;
            Ok(false)
        }
    }
}

/// Compares all and prints what came of it. It answers whether all are alike.
pub fn all_alike(rt: &impl Print, alloc: Global) -> Result<bool, Trouble> {
    let small = print(rt, compare_networks(alloc, 2_000, SMALL)?)?;
    let large = print(rt, compare_networks(alloc, 40, LARGE)?)?;
    let covers = covers_are_alike(rt, alloc)?;
    Ok(small && large && covers)
}

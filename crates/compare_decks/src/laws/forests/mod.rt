//! Compares needed pairs, signs, covers and values of generated gates with their definitions, where all sets,
//! all signs and all plans are tried.
mod covers;
mod drawn;
mod rails;

use comparison::{Trouble, printed};
use covers::{CoverResult, covers, worked};
use rails::{RailResult, rails};
use std::alloc::Global;

/// How many networks have their rails compared.
const NETWORKS: u64 = 3_000;

/// How many forests have their covers compared.
const FORESTS: u64 = 4_000;

/// Compares rails and prints what came of it. It answers whether all are alike.
fn rails_are_alike(rt: &impl Print, alloc: Global) -> Result<bool, Trouble> {
    match rails(alloc, NETWORKS)? {
        RailResult::Alike(sets, least) => {
            printed(println!(rt;
                "rails {NETWORKS} networks, {sets} by all sets, {least} with least signs, all alike"
            ))?;
            Ok(true)
        }
        RailResult::Differ(case) => {
            printed(println!(rt; "rails differ at case {case}"))?;
            Ok(false)
        }
    }
}

/// Compares covers and prints what came of it. It answers whether all are alike.
fn covers_are_alike(rt: &impl Print, alloc: Global) -> Result<bool, Trouble> {
    match covers(alloc, FORESTS)? {
        CoverResult::Alike(forests, plans) => {
            printed(println!(rt; "covers {forests} forests, {plans} plans, all alike"))?;
            Ok(true)
        }
        CoverResult::Differ(case) => {
            printed(println!(rt; "covers differ at case {case}"))?;
            Ok(false)
        }
    }
}

/// Prints the costs of the worked covers. It answers whether they are the wanted ones.
fn worked_are_alike(rt: &impl Print, alloc: Global) -> Result<bool, Trouble> {
    let mut alike = true;
    for cover in worked(alloc)? {
        let (cost, least) = (cover.cost, cover.least);
        printed(println!(rt; "worked cover {cost} by tables, {least} by all plans"))?;
        alike = alike && cost == cover.wanted && least == cover.wanted;
    }
    Ok(alike)
}

/// Compares all and prints what came of it. It answers whether all are alike.
pub fn forests_are_alike(rt: &impl Print, alloc: Global) -> Result<bool, Trouble> {
    let rails = rails_are_alike(rt, alloc)?;
    let covers = covers_are_alike(rt, alloc)?;
    let worked = worked_are_alike(rt, alloc)?;
    Ok(rails && covers && worked)
}

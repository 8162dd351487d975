//! Levels and clocks of cells.
use crate::logic::chosen_forest;
use crate::logic::cover_words::{clock_words, number_words};
use clock_phase::assign_clocks;
use comparison::read_earlier;
use std::alloc::Global;
use std::process::Abort;
use std::test::Fail;
use tree_map::{Bounds, map};

/// The most leaves and cells of a network here.
const MOST: u32 = 1_000;

const AND_OF_FIVE: &str = ".model m\n.inputs a b c d e\n.outputs f\n.names a b c d e f\n11111 1\n";

const CHAIN_OF_FIVE: &str =
    ".model m\n.inputs a b c d e f\n.outputs o\n.names a b v\n11 1\n.names v c w\n11 1\n\
    .names w d x\n11 1\n.names x e y\n11 1\n.names y f o\n11 1\n";

const OR: &str = ".model m\n.inputs a b\n.outputs f\n.names a b f\n1- 1\n-1 1\n";

const LITERAL: &str = ".model m\n.inputs a\n.outputs f\n.names a f\n0 1\n";

/// The levels and the clocks of a text's cells within width and height 2, on so many clocks.
fn levels_and_clocks(
    rt: &impl Abort,
    alloc: Global,
    text: &str,
    phases: u8,
) -> Result<(String, String), Fail> {
    let forest = chosen_forest(rt, alloc, text)?;
    let mut plans = map(alloc, &forest, Bounds { w: 2, h: 2 })?;
    let mut levels = vec![in alloc; 0u32; plans.len()]?;
    assert!(rt; 1 <= phases && phases <= 4);
    assert!(rt; forest.leaves < MOST);
    assert!(rt; plans.len() < MOST as usize);
    assert!(rt; read_earlier(plans.as_slice(), forest.leaves));
    assign_clocks(
        plans.as_mut_slice(),
        levels.as_mut_slice(),
        forest.leaves,
        phases,
    );
    Ok((number_words(alloc, &levels)?, clock_words(alloc, &plans)?))
}

/// Texts and numbers of clocks, with the levels and the clocks of cells.
const CLOCKED: &[(&str, u8, &str, &str)] = &[
    (AND_OF_FIVE, 1, "1 2 1 3 ", "1 1 1 1 "),
    (AND_OF_FIVE, 2, "1 2 1 3 ", "1 1 1 2 "),
    (AND_OF_FIVE, 3, "1 2 1 3 ", "1 2 1 3 "),
    (AND_OF_FIVE, 4, "1 2 1 3 ", "1 2 1 3 "),
    (CHAIN_OF_FIVE, 1, "1 2 3 4 5 ", "1 1 1 1 1 "),
    (CHAIN_OF_FIVE, 2, "1 2 3 4 5 ", "1 1 1 2 2 "),
    (CHAIN_OF_FIVE, 3, "1 2 3 4 5 ", "1 1 2 2 3 "),
    (CHAIN_OF_FIVE, 4, "1 2 3 4 5 ", "1 1 2 3 4 "),
    (OR, 4, "1 ", "1 "),
    (LITERAL, 4, "", ""),
];

/// A cell's level is one more than the greatest that it reads. Its clock is one more than its level less one times the
/// clocks over the greatest level, rounded down.
#[test]
fn levels_with_clocks(rt: HostRuntime) -> Result<(), Fail> {
    let alloc = rt.alloc();
    for (text, phases, wanted_levels, wanted_clocks) in CLOCKED {
        let (levels, clocks) = levels_and_clocks(&rt, alloc, text, *phases)?;
        assert_eq!(rt; levels.as_str(), *wanted_levels, "{text} {phases}");
        assert_eq!(rt; clocks.as_str(), *wanted_clocks, "{text} {phases}");
    }
    Ok(())
}

//! Covers of forests.
use crate::logic::chosen_forest;
use crate::logic::cover_words::plan_words;
use dom_base::ToVss;
use dual_rail::Forest;
use sp_network::{GatePlan, Sp};
use std::alloc::Global;
use std::process::Abort;
use std::test::Fail;
use tree_map::{Bounds, Cover, cover, map};

const AND_OF_FIVE: &str = ".model m\n.inputs a b c d e\n.outputs f\n.names a b c d e f\n11111 1\n";

const OR_OF_NINE: &str =
    ".model m\n.inputs a b c d e f g h i\n.outputs o\n.names a b c d e f g h i o\n000000000 0\n";

const CHAIN: &str =
    ".model m\n.inputs a b c d e f\n.outputs o\n.names a b v\n11 1\n.names v c w\n11 1\n\
    .names d e x\n11 1\n.names w x y\n11 1\n.names y f o\n11 1\n";

const TWICE: &str = ".model m\n.inputs a b\n.outputs f\n.names a b n\n11 1\n.names n n f\n11 1\n";

const WITH_END: &str =
    ".model m\n.inputs a b c\n.outputs f g\n.names a b f\n11 1\n.names f c g\n11 1\n";

const ITS_NOT: &str = ".model m\n.inputs a b\n.outputs f g\n.names a b f\n11 1\n.names f g\n0 1\n";

const BARE: &str = ".model m\n.inputs a b\n.outputs f g h i\n.names a b f\n11 1\n-- 1\n.names g\n\
     .names a h\n0 1\n.names a i\n1 1\n";

/// How many leaves a tree has.
fn leaves(tree: &Sp<ToVss>) -> u64 {
    match tree {
        Sp::Leaf { .. } => 1,
        Sp::Series(left, right) => leaves(left).saturating_add(leaves(right)),
        Sp::Parallel(left, right) => leaves(left).saturating_add(leaves(right)),
    }
}

/// The leaves of all trees, and 5 for each.
fn cost(plans: &[GatePlan]) -> u64 {
    let mut sum = 0u64;
    for plan in plans {
        sum = sum.saturating_add(leaves(&plan.tree)).saturating_add(5);
    }
    sum
}

/// The cover of a forest, and the plans alone.
fn covered(
    rt: &impl Abort,
    alloc: Global,
    forest: &Forest,
    bounds: Bounds,
) -> Result<(Cover, Vec<GatePlan>), Fail> {
    assert!(rt; 2 <= bounds.w && bounds.w <= 8);
    assert!(rt; 2 <= bounds.h && bounds.h <= 6);
    let whole = cover(alloc, forest, bounds)?;
    let plans = map(alloc, forest, bounds)?;
    Ok((whole, plans))
}

/// Texts, widths and heights, with the cost of the cover and its trees.
const TREES: &[(&str, u32, u32, u64, &str)] = &[
    (AND_OF_FIVE, 8, 4, 16, "((0 & 2) & 4); (10 & (6 & 8)); "),
    (
        AND_OF_FIVE,
        2,
        2,
        28,
        "(0 & 2); (10 & 4); (6 & 8); (11 & 12); ",
    ),
    (AND_OF_FIVE, 2, 5, 10, "(((0 & 2) & 4) & (6 & 8)); "),
    (
        OR_OF_NINE,
        8,
        4,
        20,
        "(((0 | 2) | 4) | (6 | 8)); (18 | ((10 | 12) | (14 | 16))); ",
    ),
    (CHAIN, 8, 4, 17, "((0 & 2) & 4); ((12 & (6 & 8)) & 10); "),
    (TWICE, 8, 6, 14, "(0 & 2); (4 & 4); "),
    (WITH_END, 8, 6, 14, "(0 & 2); (6 & 4); "),
    (ITS_NOT, 2, 2, 7, "(1 | 3); "),
    (BARE, 2, 2, 0, ""),
];

/// The chosen trees within a width and a height, with the cost of their plan. A leaf's rails are the gates twice its
/// number and one more, and the outputs of the cells have the numbers behind those of all rails.
#[test]
fn chosen_trees(rt: HostRuntime) -> Result<(), Fail> {
    let alloc = rt.alloc();
    for (text, w, h, wanted_cost, wanted) in TREES {
        let forest = chosen_forest(&rt, alloc, text)?;
        let (whole, plans) = covered(&rt, alloc, &forest, Bounds { w: *w, h: *h })?;
        let found = plan_words(alloc, &plans)?;
        assert_eq!(rt; found.as_str(), *wanted, "{text} {w} {h}");
        assert_eq!(rt; cost(&plans), *wanted_cost, "{text} {w} {h}");
        let same = plan_words(alloc, &whole.plans)?;
        assert_eq!(rt; same.as_str(), *wanted, "{text} {w} {h}");
    }
    Ok(())
}

/// A cover keeps exactly the edges to pairs that are no roots.
#[test]
fn kept_edges(rt: HostRuntime) -> Result<(), Fail> {
    let alloc = rt.alloc();
    let forest = chosen_forest(&rt, alloc, AND_OF_FIVE)?;
    let (whole, _) = covered(&rt, alloc, &forest, Bounds { w: 8, h: 4 })?;
    assert!(rt; whole.kept.as_slice() == [true, false, true, false].as_slice());
    Ok(())
}

//! Cells: the trees of a plan, with levels and clocks.
use crate::forest::{PlainArm, PlainForest};
use crate::plans::{is_kept, kept_pair};
use std::alloc::{AllocError, Global};

/// What gates a device of a tree: a rail of a leaf, or the output of a cell.
#[derive(Clone, Copy, PartialEq, Eq)]
pub enum PlainGate {
    Rail(usize, bool),
    Output(usize),
}

/// An item of a tree that is written with each operator before its two parts.
#[derive(Clone, Copy, PartialEq, Eq)]
pub enum TreeItem {
    Series,
    Parallel,
    Device(PlainGate),
}

/// The style of a cell: a keeper at its dynamic net, or inner nets that are precharged as well.
#[derive(Clone, Copy, PartialEq, Eq)]
pub enum PlainStyle {
    Keeper,
    Precharge,
}

/// A cell: its root pair, its tree, in a compound cell its left one, and the right one there, its style, its
/// level and the number of its clock, both from 1.
#[derive(Drop)]
pub struct PlainCell {
    pub root: usize,
    pub tree: Vec<TreeItem>,
    pub right: Option<Vec<TreeItem>>,
    pub style: PlainStyle,
    pub level: usize,
    pub clock: usize,
}

impl PlainCell {
    /// Whether one of its trees has this device.
    pub fn reads(&self, gate: PlainGate) -> bool {
        let item = TreeItem::Device(gate);
        let right = match &self.right {
            Some(right) => right.as_slice(),
            None => &[],
        };
        self.tree.contains(&item) || right.contains(&item)
    }
}

/// The number of the cell of a root: how many roots stand before it.
pub fn cell_number(kept: &[bool], root: usize) -> usize {
    let mut count = 0usize;
    for place in 0..root {
        if !is_kept(kept, place) {
            count = count.saturating_add(1);
        }
    }
    count
}

/// Appends the tree of a pair, at most so deep.
fn append_tree(
    forest: &PlainForest,
    kept: &[bool],
    place: usize,
    fuel: usize,
    tree: &mut Vec<TreeItem>,
) -> Result<(), AllocError> {
    let Some(pair) = forest.pairs.get(place) else {
        return Ok(());
    };
    if fuel == 0 {
        return Ok(());
    }
    tree.push(if pair.series {
        TreeItem::Series
    } else {
        TreeItem::Parallel
    })?;
    match kept_pair(kept, pair.left) {
        Some(below) => append_tree(forest, kept, below, fuel - 1, tree)?,
        None => append_leaf(kept, pair.left, tree)?,
    }
    match kept_pair(kept, pair.right) {
        Some(below) => append_tree(forest, kept, below, fuel - 1, tree)?,
        None => append_leaf(kept, pair.right, tree)?,
    }
    Ok(())
}

/// Appends the leaf at an arm that isn't kept.
fn append_leaf(kept: &[bool], arm: PlainArm, tree: &mut Vec<TreeItem>) -> Result<(), AllocError> {
    let gate = match arm {
        PlainArm::Literal(leaf, plus) => PlainGate::Rail(leaf, plus),
        PlainArm::Pair(root) => PlainGate::Output(cell_number(kept, root)),
    };
    tree.push(TreeItem::Device(gate))?;
    Ok(())
}

/// One more than the greatest level of the cells that a tree reads.
fn level_of(cells: &[PlainCell], tree: &[TreeItem]) -> usize {
    let mut level = 0usize;
    for item in tree {
        if let TreeItem::Device(PlainGate::Output(cell)) = item {
            if let Some(below) = cells.get(*cell) {
                level = level.max(below.level);
            }
        }
    }
    level.saturating_add(1)
}

/// The greatest level, 0 without cells.
pub fn level_count(cells: &[PlainCell]) -> usize {
    cells.iter().map(|cell| cell.level).max().unwrap_or(0)
}

/// The cell of a root behind these, simple, with a keeper and on the first clock.
fn cell_of(
    alloc: Global,
    forest: &PlainForest,
    kept: &[bool],
    cells: &[PlainCell],
    root: usize,
) -> Result<PlainCell, AllocError> {
    let mut tree = Vec::new(alloc);
    append_tree(forest, kept, root, forest.pairs.len(), &mut tree)?;
    let level = level_of(cells, &tree);
    Ok(PlainCell {
        root,
        tree,
        right: None,
        style: PlainStyle::Keeper,
        level,
        clock: 1,
    })
}

/// The cells of a plan in order, with so many clocks, all simple and with keepers.
pub fn cells_of(
    alloc: Global,
    forest: &PlainForest,
    kept: &[bool],
    clocks: usize,
) -> Result<Vec<PlainCell>, AllocError> {
    let mut cells = Vec::new(alloc);
    for root in 0..forest.pairs.len() {
        if !is_kept(kept, root) {
            let cell = cell_of(alloc, forest, kept, &cells, root)?;
            cells.push(cell)?;
        }
    }
    let levels = level_count(&cells);
    for cell in cells.iter_mut() {
        let earlier = cell.level.saturating_sub(1).saturating_mul(clocks);
        cell.clock = earlier.checked_div(levels).unwrap_or(0).saturating_add(1);
    }
    Ok(cells)
}

//! Chains of buffers, with which each cell reads its own clock and the one before alone.
use crate::cells::{PlainCell, PlainGate, PlainStyle, TreeItem};
use crate::forest::PlainEnd;
use std::alloc::{AllocError, Global};

/// The last clock of the chain of a cell: the last of all where a sink takes from it, else the greatest of its
/// readers less 1.
fn last_clock(cells: &[PlainCell], number: usize, ends: &[PlainEnd], clocks: usize) -> usize {
    let root = cells.get(number).map_or(0, |cell| cell.root);
    if ends.contains(&PlainEnd::FromDynamic(root)) || ends.contains(&PlainEnd::FromOutput(root)) {
        return clocks;
    }
    cells
        .iter()
        .filter(|cell| cell.reads(PlainGate::Output(number)))
        .map(|cell| cell.clock.saturating_sub(1))
        .max()
        .unwrap_or(0)
}

/// The tree of a cell of this clock: it reads a cell of its own clock or of the one before, and of another the
/// buffer of the clock before its own. Each cell has a new number.
fn moved_tree(
    alloc: Global,
    cells: &[PlainCell],
    places: &[usize],
    tree: &[TreeItem],
    clock: usize,
) -> Result<Vec<TreeItem>, AllocError> {
    let mut moved = Vec::new(alloc);
    for item in tree {
        moved.push(match *item {
            TreeItem::Device(PlainGate::Output(cell)) => {
                let place = places.get(cell).copied().unwrap_or(0);
                let own = cells.get(cell).map_or(0, |cell| cell.clock);
                let buffer = clock.saturating_sub(1).saturating_sub(own);
                TreeItem::Device(PlainGate::Output(place.saturating_add(buffer)))
            }
            other => other,
        })?;
    }
    Ok(moved)
}

/// Adds the chain of buffers behind the last cell up to this clock. A buffer has the root of its chain's cell.
fn add_chain(
    alloc: Global,
    cell: &PlainCell,
    last: usize,
    all: &mut Vec<PlainCell>,
) -> Result<(), AllocError> {
    for clock in cell.clock.saturating_add(1)..last.saturating_add(1) {
        let before = all.len().saturating_sub(1);
        let mut tree = Vec::new(alloc);
        tree.push(TreeItem::Device(PlainGate::Output(before)))?;
        all.push(PlainCell {
            root: cell.root,
            tree,
            right: None,
            style: PlainStyle::Keeper,
            level: cell.level,
            clock,
        })?;
    }
    Ok(())
}

/// A cell with another tree.
fn with_tree(cell: &PlainCell, tree: Vec<TreeItem>) -> PlainCell {
    PlainCell {
        root: cell.root,
        tree,
        right: None,
        style: cell.style,
        level: cell.level,
        clock: cell.clock,
    }
}

/// These simple cells, each with its chain of buffers behind it.
pub fn buffered(
    alloc: Global,
    cells: &[PlainCell],
    ends: &[PlainEnd],
    clocks: usize,
) -> Result<Vec<PlainCell>, AllocError> {
    let mut all: Vec<PlainCell> = Vec::new(alloc);
    let mut places = Vec::new(alloc);
    for (number, cell) in cells.iter().enumerate() {
        places.push(all.len())?;
        let tree = moved_tree(alloc, cells, &places, &cell.tree, cell.clock)?;
        all.push(with_tree(cell, tree))?;
        let last = last_clock(cells, number, ends, clocks);
        add_chain(alloc, cell, last, &mut all)?;
    }
    Ok(all)
}

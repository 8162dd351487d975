//! Whether cells are the ones of plain functions.
use dom_base::ToVss;
use plain_synthesis::{PlainCell, PlainGate, TreeItem};
use sp_network::{GatePlan, Sp};
use std::alloc::{AllocError, Global};

/// The gate of this number, where so many leaves have the first gates, two each.
fn plain_gate(gate: u32, leaves: u32) -> PlainGate {
    let rails = leaves.saturating_mul(2);
    if gate < rails {
        PlainGate::Rail((gate / 2) as usize, gate % 2 == 0)
    } else {
        PlainGate::Output(gate.saturating_sub(rails) as usize)
    }
}

/// Appends a tree, with each operator before its two parts.
fn append_items(
    tree: &Sp<ToVss>,
    leaves: u32,
    items: &mut Vec<TreeItem>,
) -> Result<(), AllocError> {
    match tree {
        Sp::Leaf { gate, .. } => items.push(TreeItem::Device(plain_gate(*gate, leaves)))?,
        Sp::Series(left, right) => {
            items.push(TreeItem::Series)?;
            append_items(left, leaves, items)?;
            append_items(right, leaves, items)?;
        }
        Sp::Parallel(left, right) => {
            items.push(TreeItem::Parallel)?;
            append_items(left, leaves, items)?;
            append_items(right, leaves, items)?;
        }
    }
    Ok(())
}

/// Whether a plan at a level is this cell, for so many leaves.
fn is_alike(
    alloc: Global,
    plan: &GatePlan,
    level: u32,
    leaves: u32,
    cell: &PlainCell,
) -> Result<bool, AllocError> {
    let mut items = Vec::new(alloc);
    append_items(&plan.tree, leaves, &mut items)?;
    let same_tree = items.as_slice() == cell.tree.as_slice();
    let same_level = level as usize == cell.level;
    Ok(same_tree && same_level && plan.clock as usize == cell.clock)
}

/// Whether plans and levels are those of these cells, for so many leaves.
pub fn are_alike(
    alloc: Global,
    plans: &[GatePlan],
    levels: &[u32],
    leaves: u32,
    cells: &[PlainCell],
) -> Result<bool, AllocError> {
    if plans.len() != cells.len() || levels.len() != cells.len() {
        return Ok(false);
    }
    for ((plan, level), cell) in plans.iter().zip(levels.iter()).zip(cells.iter()) {
        if !is_alike(alloc, plan, *level, leaves, cell)? {
            return Ok(false);
        }
    }
    Ok(true)
}

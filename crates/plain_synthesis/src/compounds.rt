//! Compound cells, of which each has two trees under one static pair.
use crate::cells::{PlainCell, PlainStyle, TreeItem};
use std::alloc::{AllocError, Global};

/// The number of items of the first whole tree of these.
fn first_tree(items: &[TreeItem]) -> usize {
    let mut wanted = 1usize;
    for (index, item) in items.iter().enumerate() {
        if wanted == 0 {
            return index;
        }
        wanted = match item {
            TreeItem::Device(_) => wanted.saturating_sub(1),
            TreeItem::Series | TreeItem::Parallel => wanted.saturating_add(1),
        };
    }
    items.len()
}

/// Makes a simple cell whose tree is a parallel a compound one, whose sides are the two parts. It answers whether
/// its tree is one.
pub fn divide(alloc: Global, cell: &mut PlainCell) -> Result<bool, AllocError> {
    if cell.right.is_some() || cell.style != PlainStyle::Precharge {
        return Ok(false);
    }
    let [TreeItem::Parallel, parts @ ..] = cell.tree.as_slice() else {
        return Ok(false);
    };
    let count = first_tree(parts);
    let left = Vec::from_slice(alloc, parts.get(..count).unwrap_or(&[]))?;
    let right = Vec::from_slice(alloc, parts.get(count..).unwrap_or(&[]))?;
    cell.tree = left;
    cell.right = Some(right);
    Ok(true)
}

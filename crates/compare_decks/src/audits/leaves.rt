//! The gates of trees, by the sixth rule.
use crate::audits::cells::Cell;
use crate::audits::design::Design;
use crate::audits::parts::Parts;
use std::alloc::{AllocError, Global};

/// Whether the tree of a cell has a device with this gate.
pub fn reads(design: &Design, cell: &Cell, gate: usize) -> bool {
    cell.tree.iter().any(|place| design
        .cards
        .get(*place)
        .is_some_and(|card| card.gate == gate))
}

/// Whether all gates of a cell's tree are pins, latch outputs, complements or cell outputs.
fn reads_leaves(design: &Design, parts: &Parts, cell: &Cell) -> bool {
    cell.tree.iter().all(|place| {
        design.cards.get(*place).is_some_and(|card| {
            design.ports.is_pin(card.gate)
                || parts.is_latch_output(card.gate)
                || parts.complements.contains(&card.gate)
                || parts.is_output(card.gate)
        })
    })
}

/// Whether a cell, or one of those with these outputs, reads a net.
fn is_read(design: &Design, parts: &Parts, cell: &Cell, outputs: &[usize], net: usize) -> bool {
    reads(design, cell, net)
        || parts.cells.iter().any(|reader| outputs.contains(&reader.front.output)
            && reads(design, reader, net))
}

/// The output of a cell that a cell, or one of those with these outputs, reads, where it is none of them.
fn next_output(design: &Design, parts: &Parts, cell: &Cell, outputs: &[usize]) -> Option<usize> {
    for other in parts.cells.iter() {
        let output = other.front.output;
        if !outputs.contains(&output) && is_read(design, parts, cell, outputs, output) {
            return Some(output);
        }
    }
    None
}

/// Whether a cell depends on itself through trees: the cells that it reads, those that they read and so on have it
/// among them.
fn depends_on_itself(
    alloc: Global,
    design: &Design,
    parts: &Parts,
    cell: &Cell,
) -> Result<bool, AllocError> {
    let mut outputs = Vec::new(alloc);
    for _ in 0..parts.cells.len() {
        match next_output(design, parts, cell, &outputs) {
            Some(output) => outputs.push(output)?,
            None => break,
        }
    }
    Ok(outputs.contains(&cell.front.output))
}

/// The smallest net at which the sixth rule is broken.
pub fn broken_leaf(
    alloc: Global,
    design: &Design,
    parts: &Parts,
) -> Result<Option<usize>, AllocError> {
    for cell in parts.cells.iter() {
        let is_loop = depends_on_itself(alloc, design, parts, cell)?;
        if is_loop || !reads_leaves(design, parts, cell) {
            return Ok(Some(cell.front.dynamic));
        }
    }
    Ok(None)
}

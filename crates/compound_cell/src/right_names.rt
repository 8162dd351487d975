//! Names of the nets of the right side of a compound cell.
ghost use Rattle.std.specs.Prelude.{◌≡◌, IfOk};
ghost use Rattle.domino_cell.specs.HeldNames.{held_nets};
ghost use Rattle.compound_cell.specs.CompoundCells.{right_cell, right_front};

use deck::{joined_name, numbered_name};
use dom_base::{NetName, OutOfMemory};
use domino_cell::CellNames;
use std::alloc::Global;

/// The nets of the right side of cell `k` on the clock of this number: those of the left side, with a dynamic net, a
/// foot net and inner nets of its own.
pub fn right_names(alloc: Global, clock: u8, k: u32) -> Result<CellNames, OutOfMemory>
    ensures { IfOk result (λ names. held_nets names ≡ right_cell clock k) }
{
    let dynamic = numbered_name(alloc, b"e", k)?;
    let foot = numbered_name(alloc, b"g", k)?;
    let front = right_front(alloc, k)?;
    let mut names = CellNames::new(alloc, clock, k)?;
    names.dynamic = dynamic;
    names.foot = foot;
    names.front = front;
    Ok(names)
}

/// How the inner nets of the right side of cell `k` begin.
fn right_front(alloc: Global, k: u32) -> Result<NetName, OutOfMemory>
    ensures { IfOk result (λ front. front ≡ right_front k) }
{
    let tree = numbered_name(alloc, b"u", k)?;
    joined_name(alloc, tree.as_bytes(), b"_")
}

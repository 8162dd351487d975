//! The cells from which sinks take.
ghost use Rattle.std.specs.Prelude.{◌<◌, ◌^◌, All, IfOk, length};
ghost use Rattle.dual_rail.specs.Uses.{IsEndThere};
ghost use Rattle.synth_flow.specs.TakenCells.{AreTaken, IsTaken};

use dom_base::OutOfMemory;
use dual_rail::End;
use std::alloc::Global;

/// The cells from which sinks take, in the order of the sinks, and the ends of the sinks: an end that takes
/// from a cell names the place of the cell in this list.
#[derive(Drop)]
pub struct TakenCells {
    pub cells: Vec<u32>,
    pub ends: Vec<End>,
}

/// An end by the place of its cell, which joins those that are taken. Pair by pair the first list has the
/// numbers of cells. The one error is out of memory.
fn taken_end(cells: &[u32], end: End, taken: &mut Vec<u32>) -> Result<End, OutOfMemory>
    requires there { IsEndThere (length cells.now) end }
    requires few { length taken.old.items < 2 ^ 32 }
    ensures { IfOk result (IsTaken cells.now end taken.old.items taken.new.items) }
{
    let place = taken.len() as u32;
    match end {
        End::FromDynamic(pair) => {
            taken.push(cells[pair as usize])?;
            Ok(End::FromDynamic(place))
        }
        End::FromOutput(pair) => {
            taken.push(cells[pair as usize])?;
            Ok(End::FromOutput(place))
        }
        End::Const(_) | End::Literal(_) => Ok(end),
    }
}

/// The cells from which sinks with these ends take, where pair by pair the first list has the numbers of
/// cells. The one error is out of memory.
pub fn taken_cells(alloc: Global, cells: &[u32], ends: &[End]) -> Result<TakenCells, OutOfMemory>
    requires there { All (IsEndThere (length cells.now)) ends.now }
    requires few { length ends.now < 2 ^ 32 }
    ensures { IfOk result (λ taken. AreTaken cells.now ends.now taken.cells.items taken.ends.items) }
{
    let mut taken = Vec::new(alloc);
    let mut numbered = Vec::with_capacity(alloc, ends.len())?;
    'ends: for end in ends {
        numbered.push(taken_end(cells, *end, &mut taken)?)?;
    }
    Ok(TakenCells {
        cells: taken,
        ends: numbered,
    })
}

//! Honest states: what the nets of cells, complements and latches are at each place of the environment.
use crate::clocks::Clocks;
use crate::joins::{Valued, value_of};
use crate::nets::{NetKinds, VSS, is_marked};
use crate::parts::{CellNets, LatchNets};
use dom_base::Tri;
use std::alloc::{AllocError, Global};

/// A place of the environment, behind the rest that follows power on.
#[derive(Clone, Copy, PartialEq, Eq)]
pub enum Place {
    Released,
    Pins,
    Evaluation,
    Capture,
    Captured,
    Precharge,
    Launch,
    Launched,
}

/// Where a run is: its place, whether masters have captured before, the state before the cycle and the next
/// one, the values of the cells in the cycle, and what the masters held before the capture.
#[derive(Drop)]
pub struct Moment {
    pub place: Place,
    pub is_first: bool,
    pub old: Vec<bool>,
    pub new: Vec<bool>,
    pub cells: Vec<bool>,
    pub kept: Vec<Tri>,
}

fn bit_at(bits: &[bool], index: usize) -> Tri {
    match bits.get(index) {
        Some(true) => Tri::One,
        Some(false) => Tri::Zero,
        None => Tri::Unknown,
    }
}

/// Whether a net is charged, or down and held down.
fn is_charged_or_held(values: &[Tri], held: &[bool], net: usize) -> bool {
    match value_of(values, net) {
        Tri::One => true,
        Tri::Zero => is_marked(held, net),
        Tri::Unknown => false,
    }
}

/// Whether the nets of a cell are as its clock says. A precharged net that is down while the clock is up is
/// held down, up to the fall of the clock before. The output is 1 only where a dynamic net is 0 while the
/// clock is up, and it is 1 wherever one is 0 while cells are precharged.
fn is_honest_cell(
    moment: &Moment,
    clocks: &Clocks,
    values: &[Tri],
    held: &[bool],
    cell: &CellNets,
) -> bool {
    let value = |net: &usize| value_of(values, *net);
    let output = value_of(values, cell.output);
    let is_down = cell.dynamic.iter().any(|net| value(net) == Tri::Zero);
    let are_known = cell.precharged.iter().all(|net| value(net) != Tri::Unknown);
    if value_of(values, cell.clock) == Tri::One {
        let are_held = is_kept(clocks, cell)
            || cell
                .precharged
                .iter()
                .all(|net| is_charged_or_held(values, held, *net));
        are_known && are_held && (output == Tri::Zero || (output == Tri::One && is_down))
    } else if moment.place == Place::Precharge || clocks.has_fallen(cell.clock) {
        are_known && (output == Tri::One || (output == Tri::Zero && !is_down))
    } else {
        output == Tri::Zero && cell.precharged.iter().all(|net| value(net) == Tri::One)
    }
}

/// Whether the clock before that of a cell has fallen while its own is up.
pub fn is_kept(clocks: &Clocks, cell: &CellNets) -> bool {
    clocks.has_fallen(cell.clock.saturating_sub(1)) && clocks.is_up(cell.clock)
}

/// Whether a cell whose inputs have fallen keeps its value: its dynamic nets are the opposite of it, and one
/// that is down is held down, or joined to nothing that is up.
fn is_kept_well(
    alloc: Global,
    wanted: Tri,
    valued: Valued<'_>,
    held: &[bool],
    cell: &CellNets,
) -> Result<bool, AllocError> {
    for net in cell.dynamic.iter() {
        let value = value_of(valued.values, *net);
        if value != wanted.not() {
            return Ok(false);
        }
        if value == Tri::Zero && !is_marked(held, *net) && valued.joins_charge(alloc, *net)? {
            return Ok(false);
        }
    }
    Ok(value_of(valued.values, cell.output) == wanted)
}

/// Whether a latch's output and master are as the place says.
fn is_honest_latch(moment: &Moment, values: &[Tri], index: usize, latch: &LatchNets) -> bool {
    let (old, new) = (bit_at(&moment.old, index), bit_at(&moment.new, index));
    let slave = value_of(values, latch.slave);
    let master = value_of(values, latch.master);
    let slave_is = match moment.place {
        Place::Launch => slave == old || slave == new,
        Place::Launched => slave == new,
        _ => slave == old,
    };
    let master_is = match moment.place {
        Place::Released | Place::Pins | Place::Evaluation if moment.is_first => {
            master == Tri::Unknown
        }
        Place::Released | Place::Pins | Place::Evaluation => master == old.not(),
        Place::Capture => {
            let kept = moment.kept.get(index).copied().unwrap_or(Tri::Unknown);
            master == kept || master == new.not()
        }
        Place::Captured | Place::Precharge | Place::Launch | Place::Launched => {
            master == new.not()
        }
    };
    let data_is = match moment.place {
        Place::Capture | Place::Captured => value_of(values, latch.data) == new,
        _ => true,
    };
    slave_is && master_is && data_is
}

/// Whether complements are the opposites of their leaves, where they have to be.
fn are_honest_complements(moment: &Moment, values: &[Tri], complements: &[(usize, usize)]) -> bool {
    match moment.place {
        Place::Evaluation | Place::Capture | Place::Captured => complements.iter().all(|(
            own,
            other,
        )| value_of(values, *own).not() == value_of(values, *other)),
        _ => true,
    }
}

/// Whether the state of a run is honest.
pub fn is_honest(
    alloc: Global,
    moment: &Moment,
    clocks: &Clocks,
    kinds: &NetKinds,
    valued: Valued<'_>,
) -> Result<bool, AllocError> {
    let values = valued.values;
    let held = valued.held(alloc, VSS)?;
    for (number, cell) in kinds.cells.iter().enumerate() {
        if !is_honest_cell(moment, clocks, values, &held, cell) {
            return Ok(false);
        }
        let wanted = bit_at(&moment.cells, number);
        if is_kept(clocks, cell) && !is_kept_well(alloc, wanted, valued, &held, cell)? {
            return Ok(false);
        }
    }
    for (index, latch) in kinds.latches.iter().enumerate() {
        if !is_honest_latch(moment, values, index, latch) {
            return Ok(false);
        }
    }
    Ok(are_honest_complements(moment, values, &kinds.complements))
}

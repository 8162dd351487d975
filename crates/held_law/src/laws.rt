//! Laws of cells that hold what they have evaluated.
ghost use Rattle.held_law.specs.Laws.{DecksHoldTargets, HeldCellsHoldTargets};

/// From the fall of the clock before its own, while its clock is high, each net of a cell holds its
/// target in every state of every legal run, whatever of its leaves fall: its dynamic net, the foot, the
/// inner nets of its tree and its output. In a deck whose clocks overlap that holds by the ports and the
/// devices alone.
pub fn held_cells_hold_targets()
    ensures nets { HeldCellsHoldTargets }
    ensures ports { DecksHoldTargets }
{}

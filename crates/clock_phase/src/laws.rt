//! Laws of levels and clocks.
ghost use Rattle.clock_phase.specs.Levels.{CellsReadLowerLevels, ClocksAreInRange, ClocksRiseWithLevels};

/// Each clock is one of the given ones, no later level has an earlier clock, and a cell has a higher
/// level than the cells that it reads.
pub fn clocks_rise_with_levels()
    ensures range { ClocksAreInRange }
    ensures rise { ClocksRiseWithLevels }
    ensures lower { CellsReadLowerLevels }
{}

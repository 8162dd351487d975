//! Laws of compound cells.
ghost use Rattle.compound_cell.specs.CompoundCells.{SimpleCellsAreStyled};

/// A simple cell is the cell with precharged inner nets: its static gate is the inverter of its dynamic net.
pub fn simple_cells_are_styled()
    ensures { SimpleCellsAreStyled }
{}

//! Worked examples of cells and trees.
ghost use Rattle.domino_cell.specs.Worked.{AndHoldsCell, AndIsSpelled, ThreeInSeries};

/// The circuit of an And of two inputs is one cell and an inverter, and meets what
/// the laws of cells ask of a circuit.
fn smallest_cell_is_a_cell()
    ensures spelled { AndIsSpelled }
    ensures holds { AndHoldsCell }
{}

/// A series takes its inner net before its parts do.
fn three_in_series_spelled()
    ensures { ThreeInSeries }
{}

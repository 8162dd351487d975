//! Tables of a model.
use crate::Rows;
use dom_base::Name;
use smallvec::SmallVec;
use std::marker::Model;

/// The names that a table reads. The table itself has room for 3; more stand in an allocation.
pub type InputNames = SmallVec<Name, 3>;

/// A table of BLIF, the card `.names`. Where `on` is true its rows end in 1, and the output is 1
/// exactly where some row matches the inputs; where it is false they end in 0, and the output is
/// 0 exactly there. A table without rows has a true `on`, and its output is 0. `line` is the line of
/// the card, from 1.
#[derive(Clone, Debug, Drop)]
pub struct Table {
    pub inputs: InputNames,
    pub output: Name,
    pub on: bool,
    pub rows: Rows,
    pub line: u64,
}

impl Model for Table {
    ghost use Rattle.blif_ast.specs.TableData.{TableData};

    ghost Value = { TableData };

    ghost view = { λ t. record { inputs = t.inputs.items; output = t.output; on = t.on; rows = t.rows.items; line = t.line } };
}

//! What is printed of a cycle.
use dom_base::Tri;
use std::marker::Model;

/// A cycle: its number from 0, the values of its pins and of its outputs in order, and the number of
/// its events where that is printed.
#[derive(Clone, Debug, Drop)]
pub struct CycleRow {
    pub cycle: u64,
    pub pins: Vec<bool>,
    pub outs: Vec<Tri>,
    pub events: Option<u64>,
}

impl Model for CycleRow {
    ghost use Rattle.stim_text.specs.CycleRowData.{CycleRowData};

    ghost Value = { CycleRowData };

    ghost view = { λ r. record { cycle = r.cycle; pins = r.pins.items; outs = r.outs.items; events = r.events } };
}

//! What a simulation tells.
use std::marker::Model;

/// The text of a trace, and whether each settling ended at rest.
#[derive(Debug, Drop)]
pub struct Trace {
    pub text: Vec<u8>,
    pub settled: bool,
}

impl Model for Trace {
    ghost use Rattle.trace_tool.specs.TraceData.{TraceData};

    ghost Value = { TraceData };

    ghost view = { λ t. record { text = t.text.items; settled = t.settled } };
}

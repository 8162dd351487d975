//! How a simulation runs and what it tells.
use dom_base::NetName;
use event_sim::Edge;
use std::marker::Model;

/// Which of the pending nets, by rising number, takes its target next: the first, the last, or one
/// that a seed gives.
#[derive(Clone, Copy, Debug, PartialEq, Eq)]
pub enum Order {
    First,
    Last,
    Seed,
}

/// A net whose changes of one edge are told.
#[derive(Debug, Drop)]
pub struct ProbeWord {
    pub name: NetName,
    pub edge: Edge,
}

/// The order of events with its seed, the nets whose changes are told, and whether every event is.
#[derive(Debug, Drop)]
pub struct TraceOptions {
    pub order: Order,
    pub seed: u64,
    pub probes: Vec<ProbeWord>,
    pub events: bool,
}

impl Model for TraceOptions {
    ghost use Rattle.trace_tool.specs.TraceData.{TraceOptionsData};

    ghost Value = { TraceOptionsData };

    ghost view = { λ o. record { order = o.order; seed = o.seed; probes = o.probes.items; events = o.events } };
}

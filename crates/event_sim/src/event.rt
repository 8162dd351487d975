//! Events: one change of one net each, which changes are looked for, and how a settling ends.
use dom_base::Tri;

/// At a step, counted from 0 modulo 2^64, a net changes its value from `before` to `after`. Nets are
/// numbers of a circuit's nets, from 0.
#[derive(Clone, Copy, Debug, PartialEq, Eq)]
pub struct Event {
    pub step: u64,
    pub net: u32,
    pub before: Tri,
    pub after: Tri,
}

/// Any change, a rise (to `One`) or a fall (to `Zero`).
#[derive(Clone, Copy, Debug, PartialEq, Eq)]
pub enum Edge {
    Any,
    Rise,
    Fall,
}

/// How a settling ends, with the number of its events: at rest, or not at rest after as many events
/// as it may have.
#[derive(Clone, Copy, Debug, PartialEq, Eq)]
pub enum Settled {
    Rest(u64),
    Unsettled(u64),
}

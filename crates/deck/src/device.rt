//! One transistor.
use dom_base::Kind;

/// A transistor between the nets `drain` and `source`, switched by the net `gate`. Nets are
/// numbers of a circuit's nets, from 0.
#[derive(Clone, Copy, Debug, PartialEq, Eq)]
pub struct Device {
    pub kind: Kind,
    pub drain: u32,
    pub gate: u32,
    pub source: u32,
}

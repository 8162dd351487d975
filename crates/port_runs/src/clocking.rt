//! How the clocks of a cycle fall.

/// How the clocks of a cycle fall: together, when precharge is opened; or each at some rest of evaluation once
/// the next clock has risen, and those that are still up when precharge is opened (Harris and Horowitz,
/// Skew-tolerant domino circuits).
#[derive(Clone, Copy, Debug, PartialEq, Eq)]
pub enum Clocking {
    Together,
    Overlapping,
}

//! How large the network of a file is.

/// How large the network of a file is: its signals, its paths of instances with the main model's own,
/// the letters of all its tables, and its outputs and latches, counted as the limits count them. Each
/// is 2^64 - 1 where it is larger.
#[derive(Clone, Copy, Debug, PartialEq, Eq)]
pub struct Sizes {
    pub signals: u64,
    pub instances: u64,
    pub letters: u64,
    pub sinks: u64,
}

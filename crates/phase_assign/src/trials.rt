//! Trials of sinks: a sink whose trial lowered nothing is tried again only where uses that the trial
//! looked at have changed.
use crate::looked::Looked;

/// A trial: the number of needed pairs then, and the pairs whose uses it looked at.
#[derive(Drop)]
pub struct Trial {
    pub size: u64,
    pub looked: Looked,
}

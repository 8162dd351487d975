//! The program's one function over a shelf and sinks that never fail.
#![tactic(auto)]

mod sure;

pub use sure::top_over_sure;

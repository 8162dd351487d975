//! Latches, and the inverters of sinks (Rabaey, Digital Integrated Circuits: clocked CMOS registers, static complementary CMOS).
#![tactic(auto)]

mod latch;
mod names;
mod sink;

pub use latch::{push_held_latch, push_latch};
pub use names::LatchPorts;
pub use sink::push_sink;

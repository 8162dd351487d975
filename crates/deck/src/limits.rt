//! The limits on circuits, and how many ports have fixed names.

/// The greatest number of clocks.
pub const MOST_CLOCKS: u8 = 4;

/// The number of ports before the first pin that are no clocks: `vdd`, `vss`, `lm`, `lmb`, `ls`,
/// `lsb`, `rs` and `rsb`.
pub const UNCLOCKED_COUNT: u8 = 8;

/// The greatest number of ports.
pub const MOST_PORTS: u32 = 1_048_576;

/// The greatest number of devices.
pub const MOST_DEVICES: u32 = 16_777_216;

/// The greatest depth of a subcircuit: one without calls has depth 0.
pub const MOST_DEPTH: u32 = 64;

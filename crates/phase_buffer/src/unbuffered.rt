//! The cells of a deck before it has buffers.
use sp_network::GatePlan;

/// The plans of the cells of a deck before it has buffers, of so many leaves and clocks, and the cells
/// from which its sinks take.
#[derive(Clone, Copy)]
pub(crate) struct Unbuffered<'a> {
    pub plans: &'a [GatePlan],
    pub leaves: u32,
    pub phases: u8,
    pub sinks: &'a [u32],
}

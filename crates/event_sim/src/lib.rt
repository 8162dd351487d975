//! Circuits that move one net at a time: of the nets that differ from their target a chooser
//! picks the one that takes it next (Bryant's switch-level model).
#![tactic(auto)]

mod chooser;
mod event;
mod fault;
mod laws;
mod order;
mod power;
mod probe;
mod probe_set;
mod sim;

pub use chooser::Chooser;
pub use event::{Edge, Event, Settled};
pub use fault::SimFault;
pub use laws::{
    chain_is_one, events_count, following_is_by, orders_are_below, pending_is_one, settling_is_one,
    settling_is_there,
};
pub use order::{first, last, seeded};
pub use probe::Probe;
pub use probe_set::ProbeSet;
pub use sim::Sim;

//! Circuits of transistors: their ports, their nets and their devices.
#![tactic(auto)]

mod circuit;
mod cut;
mod device;
mod escape;
mod fault;
mod limits;
mod names;
mod net_at;
mod number;
mod phase;
mod port_order;
mod ports;
mod push;
mod role;

pub use circuit::Circuit;
pub use device::Device;
pub use escape::{esc, escapes_differ};
pub use fault::DeckKind;
pub use limits::{MOST_CLOCKS, MOST_DEPTH, MOST_DEVICES, MOST_PORTS, UNCLOCKED_COUNT};
pub use names::{copied, fixed_name, joined_name, numbered_name};
pub use net_at::NetAt;
pub use number::NetSet;
pub use phase::Phase;
pub use port_order::{roles, roles_are_one};
pub use push::{push_at, push_held, reserve_nets};
pub use role::{PortFault, Roles};

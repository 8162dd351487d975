//! What holds of every circuit in every order of its events: which circuits behave alike, and how
//! often nets have events.
#![tactic(auto)]

mod laws;

pub use laws::{
    agreeing_values_share_rules, events_are_bounded, exchanged_devices_agree, quiet_nets_once,
    rests_or_has_event,
};

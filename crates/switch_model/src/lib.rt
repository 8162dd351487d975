//! What each net of a circuit does next, by Bryant's switch-level model: whether a device
//! conducts, and the value that a net takes from the paths that join it to other nets.
#![tactic(auto)]

mod class;
mod components;
mod drives;
mod groups;
mod joins;
mod laws;
mod lead;
mod links;
mod lists;
mod refresh;
mod room;
mod rooms;
mod single;
mod sort;
mod steps;
mod sweep;
mod switch;
mod values;
mod walk;
mod wires;

pub use laws::{
    depends_on_near_nets, has_one_target, keeps_where_off, local_targets, sources_stand_first,
    targets_by_drives,
};
pub use links::Links;
pub use pending_nets::Pending;
pub use steps::Steps;
pub use switch::{Switch, conducts};
pub use wires::Wires;

//! Pairs of a gate node and a sign: what cells of dynamic logic need of a network, which have no
//! inverters between them (Puri, Bjorksten, Rosser 1996).
#![tactic(auto)]

mod arms;
mod ends;
mod forest;
mod laws;
mod needed_rails;
mod pairs_needed;
mod signed;
mod targets;
mod uses;
mod wanted;

pub use forest::{Arm, End, Forest, Pair, Rail};
pub use laws::{forest_values_are_kept, forests_are_in_place};
pub use needed_rails::{rails, size};
pub use signed::{Signed, SignedNode};
pub use targets::{Target, node_targets, target_of};

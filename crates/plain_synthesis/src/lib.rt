//! Plain and slow functions of synthesis, written from the rules alone: gates, needed pairs, signs, plans,
//! cells and decks.
#![tactic(auto)]

mod buffers;
mod cards;
mod cells;
mod compounds;
mod cover;
mod forest;
mod gates;
mod groups;
mod pairs;
mod plans;
mod signs;
mod synthesis;

pub use buffers::buffered;
pub use cards::{Card, GroupedCards};
pub use cells::{PlainCell, PlainGate, PlainStyle, TreeItem, cells_of, level_count};
pub use compounds::divide;
pub use cover::{chosen_plan, cover_tables};
pub use forest::{PlainArm, PlainEnd, PlainForest, PlainPair, end_value, forest_of, pair_values};
pub use gates::{PlainGates, PlainNode, PlainRef, gates_of, node_values, ref_value};
pub use groups::{cards_of, grouped_cards};
pub use pairs::{SignedNode, needed, needed_by_sets};
pub use plans::{AllPlans, Entry, PlainBounds, all_plans, plan_cost, sums_by_plans};
pub use signs::{all_plus, are_settled, chosen_signs, exact_signs, least_size, size};
pub use synthesis::{PlainOptions, Synthesis, deck_of, synthesised};

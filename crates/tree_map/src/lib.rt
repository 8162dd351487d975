//! Covers of a forest by trees within a width and a height, of least cost (Zhao, Sapatnekar 1998).
#![tactic(auto)]

mod bounds;
mod compound_cells;
mod cost;
mod decisions;
mod free;
mod joins;
mod laws;
mod mapped;
mod offers;
mod shape;
mod sums;
mod tables;
mod ties;
mod trees;

pub use bounds::Bounds;
pub use compound_cells::CompoundCover;
pub use cost::CELL_COST;
pub use laws::{
    chosen_cover_is_one, chosen_plan_is_least, shapes_make_plans, tables_are_least,
    tree_values_are_kept,
};
pub use mapped::{compound_cover, cover, kept_edges, map, map_compound};
pub use trees::{Cover, cell_numbers, gate_of};

//! Covers of the part below a pair of a forest, by what trees cost, where an Or may be the root of a
//! compound cell: least sums, and the cover that the ties choose.
#![tactic(auto)]

mod laws;

pub use laws::{chosen_cover_is_one, tables_are_least};

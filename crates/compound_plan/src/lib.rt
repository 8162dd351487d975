//! Plans of a forest by what trees cost: kept edges and their trees, the parts below pairs, least cost, and
//! the plan that the ties choose. An Or may be the root of a compound cell; ordinary plans have none.
#![tactic(auto)]

mod cell_plan;
mod laws;

pub use cell_plan::CellPlan;
pub use laws::{cells_have_values, chosen_plan_is_least, ordinary_plans_are_chosen};

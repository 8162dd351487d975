//! Laws of plans and covers.
ghost use Rattle.tree_map.specs.Covers.{ChosenCoverIsOne, ChosenCoverIsThere};
ghost use Rattle.tree_map.specs.CoverTables.{TablesAreLeast};
ghost use Rattle.tree_map.specs.LeastPlans.{ChosenPlanIsLeast, ChosenPlanIsOne, ChosenPlanIsThere};
ghost use Rattle.tree_map.specs.PlanShapes.{DecidedMakesPlan, ShapesMakePlans};
ghost use Rattle.tree_map.specs.PlanValues.{TreesHaveValues};

/// Each tree of a plan has the value of its root.
pub fn tree_values_are_kept()
    ensures { TreesHaveValues }
{}

/// The table of a part below a pair, joined up from the tables of its arms, holds exactly the least
/// sums over all covers of the part.
pub fn tables_are_least()
    ensures { TablesAreLeast }
{}

/// The ties of the cover choose one cover of a part.
pub fn chosen_cover_is_one()
    ensures there { ChosenCoverIsThere }
    ensures one { ChosenCoverIsOne }
{}

/// The plan that the ties choose is there for bounds of at least 2, is one, and costs no more than any other plan.
pub fn chosen_plan_is_least()
    ensures there { ChosenPlanIsThere }
    ensures one { ChosenPlanIsOne }
    ensures least { ChosenPlanIsLeast }
{}

/// Kept free edges are a plan where each pair has the shape that its arms give, within the bounds,
/// and the chosen one where the ties decide these shapes pair by pair.
pub fn shapes_make_plans()
    ensures plan { ShapesMakePlans }
    ensures chosen { DecidedMakesPlan }
{}

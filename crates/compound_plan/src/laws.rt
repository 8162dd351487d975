//! Laws of plans with compound roots.
ghost use Rattle.compound_plan.specs.CellValues.{CellsHaveValues};
ghost use Rattle.compound_plan.specs.OrdinaryPlans.{OrdinaryPlansAreChosen, OrdinaryPlansAreLeast};
ghost use Rattle.compound_plan.specs.Plans.{ChosenPlanIsLeast, ChosenPlanIsOne, ChosenPlanIsThere, CompoundCosts};

/// The plan that the ties choose is there for bounds of at least 2, is one, and costs no more than any
/// other plan. With the costs of compound cells a plan costs the leaves and the series nodes of its trees,
/// 4 for each simple cell and 8 for each compound one. With costs that have no compound cells it is an
/// ordinary plan of least cost.
pub fn chosen_plan_is_least()
    ensures there { ChosenPlanIsThere }
    ensures one { ChosenPlanIsOne }
    ensures least { ChosenPlanIsLeast }
    ensures costs { CompoundCosts }
    ensures ordinary { OrdinaryPlansAreLeast }
{}

/// With costs that have no compound cells the ties choose the ordinary chosen plan.
pub fn ordinary_plans_are_chosen()
    ensures { OrdinaryPlansAreChosen }
{}

/// Each cell of a plan, simple or compound, has the value of its root.
pub fn cells_have_values()
    ensures { CellsHaveValues }
{}

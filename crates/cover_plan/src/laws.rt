//! Laws of covers.
ghost use Rattle.cover_plan.specs.Covers.{ChosenCoverIsLeast, ChosenCoverIsOne, ChosenCoverIsThere};
ghost use Rattle.cover_plan.specs.CoverTables.{RootCostsAreLeast, TablesAreLeast};

/// The table of a part, joined up from the tables of its arms, holds exactly the least sums over all
/// covers of the part, and the cost that is read off it is the least of all roots, simple and compound.
pub fn tables_are_least()
    ensures tables { TablesAreLeast }
    ensures roots { RootCostsAreLeast }
{}

/// The ties choose one cover of a part, and it has the least cost.
pub fn chosen_cover_is_one()
    ensures there { ChosenCoverIsThere }
    ensures one { ChosenCoverIsOne }
    ensures least { ChosenCoverIsLeast }
{}

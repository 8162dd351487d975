//! Laws of forests.
ghost use Rattle.dual_rail.specs.ForestOrder.{ForestsAreInPlace};
ghost use Rattle.dual_rail.specs.ForestValues.{EndsHaveValues, PairsHaveValues};

/// Each needed pair has its node's value with its sign, and each sink takes its value from its end.
pub fn forest_values_are_kept()
    ensures pairs { PairsHaveValues }
    ensures ends { EndsHaveValues }
{}

/// Pairs of the forest of gates read only pairs that stand before them, and ends are there.
pub fn forests_are_in_place()
    ensures { ForestsAreInPlace }
{}

//! Laws of trees of switches.
ghost use Rattle.sp_network.specs.Laws.{DualConductsOpposite, KnownTreeIsKnown, OneOfTreeAndDual, TreeIsFormula};

/// A tree whose gates all have known values is `Zero` or `One`, and it is `One` exactly where its
/// formula holds: `and` for series, `or` for parallel, for a leaf that its gate is `One`.
pub fn tree_is_formula()
    ensures known { KnownTreeIsKnown }
    ensures formula { TreeIsFormula }
{}

/// A tree of `nch` and its dual of `pch` have opposite conduction at all values of their gates, and
/// where the values of all gates are known exactly one of the two conducts.
pub fn dual_conducts_opposite()
    ensures opposite { DualConductsOpposite }
    ensures one { OneOfTreeAndDual }
{}

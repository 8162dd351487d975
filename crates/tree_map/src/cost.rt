//! What trees cost.
ghost use Rattle.std.specs.Prelude.{ℕ, ◌≡◌, ◌≤◌, ◌+◌, ◌&&◌};
ghost use Rattle.cover_plan.specs.Covers.{is_parallel, joined_sum};
ghost use Rattle.tree_map.specs.LeastPlans.{operator_of};

use dual_rail::Pair;
use std::marker::Model;

/// What a cell costs beside the leaves of its tree: its precharge, its keeper, its foot and its inverter.
pub const CELL_COST: u32 = 5;

/// What a tree costs beside its leaves: a number for each series node, one for a simple cell, and one for
/// a compound cell, where `splits` says that there are such cells.
#[derive(Clone, Copy, Debug, PartialEq, Eq)]
pub(crate) struct Costs {
    pub series: u32,
    pub simple: u32,
    pub splits: bool,
    pub compound: u32,
}

impl Model for Costs {
    ghost use Rattle.cover_plan.specs.Covers.{Costs as tree_costs};

    ghost Value = { tree_costs };

    ghost view = { λ c. record { series = c.series; simple = c.simple; splits = c.splits; compound = c.compound } };

    ghost inverse = { λ c. record { series = c.series; simple = c.simple; splits = c.splits; compound = c.compound } };
}

/// The costs of ordinary cells.
pub(crate) const ORDINARY: Costs = Costs {
    series: 0,
    simple: CELL_COST,
    splits: false,
    compound: 0,
};

/// The costs of cells with precharged inner nets, and of compound cells.
pub(crate) const COMPOUND: Costs = Costs {
    series: 1,
    simple: 4,
    splits: true,
    compound: 8,
};

impl Costs {
    /// What the node of a pair adds to the sums of its arms.
    pub(crate) fn node(self, pair: Pair) -> u32
        ensures adds { (left right : ℕ) → joined_sum self (operator_of pair) left right ≡ left + right + result }
        ensures most { result ≤ self.series }
    {
        match pair {
            Pair::And(_, _) => self.series,
            Pair::Or(_, _) => 0,
        }
    }

    /// Whether a pair may be a compound root.
    pub(crate) fn may_split(self, pair: Pair) -> bool
        ensures { result ≡ (self.splits && is_parallel (operator_of pair)) }
    {
        match pair {
            Pair::And(_, _) => false,
            Pair::Or(_, _) => self.splits,
        }
    }
}

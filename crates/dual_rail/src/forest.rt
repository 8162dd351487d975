//! Forests: pairs of a gate node and a sign, in order.
ghost use Rattle.std.specs.Prelude.{◌≡◌};
ghost use Rattle.dual_rail.specs.Forests.{left_arm, right_arm};

use std::marker::Model;

/// A leaf as it is, or its opposite.
#[derive(Clone, Copy, Debug, PartialEq, Eq)]
pub struct Rail {
    pub leaf: u32,
    pub plus: bool,
}

/// What a pair reads.
#[derive(Clone, Copy, Debug, PartialEq, Eq)]
pub enum Arm {
    Literal(Rail),
    Pair(u32),
}

/// An operator over two arms.
#[derive(Clone, Copy, Debug, PartialEq, Eq)]
pub enum Pair {
    And(Arm, Arm),
    Or(Arm, Arm),
}

impl Pair {
    /// The arms, the left one first.
    pub fn arms(self) -> (Arm, Arm)
        ensures left { result.0 ≡ left_arm self }
        ensures right { result.1 ≡ right_arm self }
    {
        let (Pair::And(left, right) | Pair::Or(left, right)) = self;
        (left, right)
    }
}

/// What a sink is taken from: a constant, a literal, or the dynamic net or the output of a cell.
#[derive(Clone, Copy, Debug, PartialEq, Eq)]
pub enum End {
    Const(bool),
    Literal(Rail),
    FromDynamic(u32),
    FromOutput(u32),
}

/// Pairs in order, each with its gate node and its sign (true is plus) and with the number of its
/// uses, which are the arms and ends that name it, and the end of each sink. A pair reads leaves that
/// are there and pairs before it; ends name leaves and pairs that are there. There are at most
/// 200,000 leaves, 800,000 pairs and 8,192 ends.
#[derive(Drop)]
pub struct Forest {
    pub leaves: u32,
    pub pairs: Vec<Pair>,
    pub origin: Vec<(u32, bool)>,
    pub uses: Vec<u32>,
    pub ends: Vec<End>,
}

impl Model for Forest {
    ghost use Rattle.dual_rail.specs.ForestData.{ForestData};
    ghost use Rattle.dual_rail.specs.ForestOrder.{IsForest};

    ghost Value = { ForestData };

    ghost view = { λ f.
        record { leaves = f.leaves; pairs = f.pairs.items; origin = f.origin.items; uses = f.uses.items; ends = f.ends.items } };

    ghost invariant = { λ f.
        IsForest (record {
          leaves = f.leaves;
          pairs = f.pairs.items;
          origin = f.origin.items;
          uses = f.uses.items;
          ends = f.ends.items;
        }) };
}

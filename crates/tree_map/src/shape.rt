//! Shapes of trees: a height and a width.
ghost use Rattle.std.specs.Prelude.{◌≡◌, ◌+◌, ◌*◌, ◌<◌, ◌≤◌, ◌^◌};
ghost use Rattle.tree_map.specs.CoverRows.{IsShapeIn, row_index};
ghost use Rattle.cover_plan.specs.Parts.{InParallel, InSeries, TreeShape, joined_shape, leaf_shape};
ghost use Rattle.tree_map.specs.LeastPlans.{operator_of};

use crate::Bounds;
use dual_rail::Pair;
use std::marker::Model;

/// The height of a tree, its most switches in series, and its width, its most branches in parallel.
#[derive(Clone, Copy, Debug, PartialEq, Eq)]
pub(crate) struct Shape {
    pub height: u32,
    pub width: u32,
}

impl Model for Shape {
    ghost use Rattle.cover_plan.specs.Parts.{TreeShape};

    ghost Value = { TreeShape };

    ghost view = { λ s. record { height = s.height; width = s.width } };

    ghost inverse = { λ s. record { height = s.height; width = s.width } };
}

/// The shape of a leaf.
pub(crate) const LEAF: Shape = Shape {
    height: 1,
    width: 1,
};

impl Shape {
    /// The shape whose number stands here in the row of each pair.
    pub(crate) fn at(bounds: Bounds, index: usize) -> Shape
        requires within { index < bounds.w * bounds.h }
        ensures within { IsShapeIn bounds.w bounds.h result }
        ensures index { row_index bounds.w result ≡ index }
    {
        let width = bounds.w as usize;
        let mut height = 1;
        let mut rest = index;
        // There are at most a few rows, and a division takes longer.
        'rows: while width <= rest {
            rest -= width;
            height += 1;
        }
        Shape {
            height,
            width: rest as u32 + 1,
        }
    }

    /// Where the number of this shape stands in the row of each pair.
    pub(crate) fn index(self, bounds: Bounds) -> usize
        requires within { IsShapeIn bounds.w bounds.h self }
        requires few { bounds.w * bounds.h ≤ 48 }
        ensures { result ≡ row_index bounds.w self }
    {
        ((self.height - 1) * bounds.w + (self.width - 1)) as usize
    }

    /// The shape of the tree of a pair whose arms have these shapes: And is series, and Or is parallel.
    pub(crate) fn joined(pair: Pair, left: Shape, right: Shape) -> Shape
        requires height { left.height + right.height < 2 ^ 32 }
        requires width { left.width + right.width < 2 ^ 32 }
        ensures { result ≡ joined_shape (operator_of pair) left right }
    {
        match pair {
            Pair::And(_, _) => left.in_series(right),
            Pair::Or(_, _) => left.in_parallel(right),
        }
    }

    /// The shape of a tree that comes to this shape beside a leaf, where there is one: And is series, and Or is parallel.
    pub(crate) fn beside_leaf(self, pair: Pair) -> Shape
        ensures gives { 1 ≤ result.height → 1 ≤ result.width → joined_shape (operator_of pair) result leaf_shape ≡ self }
        ensures one { (shape : TreeShape) → 1 ≤ shape.height → 1 ≤ shape.width
            → joined_shape (operator_of pair) shape leaf_shape ≡ self → shape ≡ result }
    {
        match pair {
            Pair::And(_, _) => Shape {
                height: self.height.saturating_sub(1),
                width: self.width,
            },
            Pair::Or(_, _) => Shape {
                height: self.height,
                width: self.width.saturating_sub(1),
            },
        }
    }

    /// The shape of two trees in series.
    fn in_series(self, below: Shape) -> Shape
        requires { self.height + below.height < 2 ^ 32 }
        ensures { result ≡ joined_shape InSeries self below }
    {
        Shape {
            height: self.height + below.height,
            width: self.width.max(below.width),
        }
    }

    /// The shape of two trees in parallel.
    fn in_parallel(self, beside: Shape) -> Shape
        requires { self.width + beside.width < 2 ^ 32 }
        ensures { result ≡ joined_shape InParallel self beside }
    {
        Shape {
            height: self.height.max(beside.height),
            width: self.width + beside.width,
        }
    }
}

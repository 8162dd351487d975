//! What is decided of the pairs of a forest.
ghost use Rattle.std.specs.Prelude.{◌≡◌, ◌<◌, IfOk, MatchOption, Some, length, replicate, slice_set, slice_get, true, false};
ghost use Rattle.dual_rail.specs.Forests.{left_arm, right_arm};
ghost use Rattle.cover_plan.specs.Parts.{leaf_shape};
ghost use Rattle.dual_rail.specs.ForestOrder.{ReadsBefore};
ghost use Rattle.tree_map.specs.Ties.{kept_with, shapes_with};

use crate::offers::Choice;
use crate::shape::{LEAF, Shape};
use dom_base::OutOfMemory;
use dual_rail::{Arm, Pair};
use std::alloc::Global;

/// What a cover does with each pair of a forest: whether the edge to it is kept, whether it is the root of a compound
/// cell, and the shape of its tree.
#[derive(Drop)]
pub(crate) struct Decisions {
    pub kept: Vec<bool>,
    pub split: Vec<bool>,
    pub shapes: Vec<Shape>,
}

/// Whether a pair is the root of a compound cell, its shape, and the choices for its arms.
#[derive(Clone, Copy)]
pub(crate) struct Decision {
    pub split: bool,
    pub shape: Shape,
    pub left: Choice,
    pub right: Choice,
}

impl Decisions {
    /// So many pairs of which nothing is decided: none is kept.
    pub(crate) fn none(alloc: Global, count: usize) -> Result<Decisions, OutOfMemory>
        ensures kept { IfOk result (λ d. d.kept.items ≡ replicate count false) }
        ensures split { IfOk result (λ d. d.split.items ≡ replicate count false) }
        ensures shapes { IfOk result (λ d. d.shapes.items ≡ replicate count leaf_shape) }
    {
        Ok(Decisions {
            kept: vec![in alloc; false; count]?,
            split: vec![in alloc; false; count]?,
            shapes: vec![in alloc; LEAF; count]?,
        })
    }

    /// The shape of a pair that is kept.
    pub(crate) fn kept_shape(&self, place: usize) -> Option<Shape>
        requires kept { place < length self.now.kept.items }
        requires shapes { place < length self.now.shapes.items }
        ensures { MatchOption result (slice_get self.now.kept.items place ≡ Some false)
            (λ shape. (slice_get self.now.kept.items place ≡ Some true) × (slice_get self.now.shapes.items place ≡ Some shape)) }
    {
        if self.kept[place] {
            Some(self.shapes[place])
        } else {
            None
        }
    }

    /// Keeps the pair that an arm leads to, where this is the choice.
    fn choose(&mut self, arm: Arm, choice: Choice)
        requires kept { ReadsBefore (length self.old.kept.items) arm }
        requires shapes { ReadsBefore (length self.old.shapes.items) arm }
        ensures kept { self.new.kept.items ≡ kept_with arm choice self.old.kept.items }
        ensures split { self.new.split ≡ self.old.split }
        ensures shapes { self.new.shapes.items ≡ shapes_with arm choice self.old.shapes.items }
    {
        if let (Arm::Pair(place), Choice::Keep(shape)) = (arm, choice) {
            self.kept[place as usize] = true;
            self.shapes[place as usize] = shape;
        }
    }

    /// Sets the mark and the shape of a pair, and makes the choices for its arms.
    pub(crate) fn decide(
        &mut self,
        place: usize,
        pair: Pair,
        split: bool,
        shape: Shape,
        left: Choice,
        right: Choice,
    )
        requires place { place < length self.old.shapes.items }
        requires marks { place < length self.old.split.items }
        requires left_kept { ReadsBefore (length self.old.kept.items) (left_arm pair) }
        requires right_kept { ReadsBefore (length self.old.kept.items) (right_arm pair) }
        requires left_shapes { ReadsBefore (length self.old.shapes.items) (left_arm pair) }
        requires right_shapes { ReadsBefore (length self.old.shapes.items) (right_arm pair) }
        ensures kept { self.new.kept.items
            ≡ kept_with (right_arm pair) right (kept_with (left_arm pair) left self.old.kept.items) }
        ensures split { self.new.split.items ≡ slice_set self.old.split.items place split }
        ensures shapes { self.new.shapes.items
            ≡ shapes_with (right_arm pair) right
            (shapes_with (left_arm pair) left (slice_set self.old.shapes.items place shape)) }
    {
        let (left_arm, right_arm) = pair.arms();
        self.split[place] = split;
        self.shapes[place] = shape;
        self.choose(left_arm, left);
        self.choose(right_arm, right);
    }
}

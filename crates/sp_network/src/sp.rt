//! Typed trees of switches.
ghost use Rattle.std.specs.Prelude.{◌≡◌, ◌≤◌, ◌<◌, IfOk, length};
ghost use Rattle.dom_base.specs.Conduction.{conduction};
ghost use Rattle.sp_network.specs.Duals.{ConductOpposite, OneConducts};
ghost use Rattle.sp_network.specs.Tree.{EachLeaf, both, dual, either, height, leaves, tree_conduction, width};
ghost use Rattle.sp_network.specs.TypedTree.{gate_value, most_leaves, tree_of};

use dom_base::{Kind, OutOfMemory, Polarity, Supply, Tri};
use std::alloc::Global;

/// A tree of switches in series and in parallel towards the supply `S`. A leaf is one device, of
/// the kind of its supply; `gate` is the number of the value or the name of the net that gates it.
///
/// Each call goes down the tree on the stack, and so does its drop: they need stack for its depth.
#[derive(Drop)]
pub enum Sp<S: Polarity> {
    Leaf { gate: u32, rail: S },
    Series(Box<Sp<S>>, Box<Sp<S>>),
    Parallel(Box<Sp<S>>, Box<Sp<S>>),
}

impl<S: Polarity> Sp<S> {
    /// The number of leaves. It takes no memory.
    pub fn leaves(&self) -> u32
        requires { leaves (tree_of self.now) ≤ most_leaves }
        ensures { result ≡ leaves (tree_of self.now) }
    {
        match self {
            Sp::Leaf { .. } => 1,
            Sp::Series(left, right) => left.leaves() + right.leaves(),
            Sp::Parallel(left, right) => left.leaves() + right.leaves(),
        }
    }

    /// The most leaves side by side: 1 for a leaf, the greater of the two for a series, the sum for
    /// a parallel. It takes no memory.
    #[tactic(auto, using(crate::proofs::TreeCounts::counts))]
    pub fn width(&self) -> u32
        requires { leaves (tree_of self.now) ≤ most_leaves }
        ensures { result ≡ width (tree_of self.now) }
    {
        match self {
            Sp::Leaf { .. } => 1,
            Sp::Series(left, right) => left.width().max(right.width()),
            Sp::Parallel(left, right) => left.width() + right.width(),
        }
    }

    /// The most leaves on a way from the top to the bottom: 1 for a leaf, the sum for a series, the
    /// greater of the two for a parallel. It takes no memory.
    #[tactic(auto, using(crate::proofs::TreeCounts::counts))]
    pub fn height(&self) -> u32
        requires { leaves (tree_of self.now) ≤ most_leaves }
        ensures { result ≡ height (tree_of self.now) }
    {
        match self {
            Sp::Leaf { .. } => 1,
            Sp::Series(left, right) => left.height() + right.height(),
            Sp::Parallel(left, right) => left.height().max(right.height()),
        }
    }

    /// Whether the tree conducts where gate n has the value `values[n]`: `One` is conducting, `Zero`
    /// is not conducting, `Unknown` is maybe. It takes no memory.
    pub fn conducts(&self, values: &[Tri]) -> Tri
        requires { EachLeaf (λ gate. gate < length values.now) (tree_of self.now) }
        ensures { result ≡ tree_conduction S.KIND (gate_value values.now) (tree_of self.now) }
    {
        match self {
            Sp::Leaf { gate, .. } => switch(S::KIND, values[*gate as usize]),
            Sp::Series(left, right) => in_series(left.conducts(values), right.conducts(values)),
            Sp::Parallel(left, right) => in_parallel(left.conducts(values), right.conducts(values)),
        }
    }
}

impl<S: Supply> Sp<S> {
    /// The dual, towards the other supply: series and parallel are exchanged, and each leaf keeps
    /// its gate. Of a tree and its dual exactly one conducts where the values of all gates are
    /// known. The one error is out of memory.
    pub fn dual(&self, alloc: Global) -> Result<Sp<S::Other>, OutOfMemory>
        ensures exchanged { IfOk result (λ d. tree_of d ≡ dual (tree_of self.now)) }
        ensures opposite { IfOk result (λ d. ConductOpposite S.KIND (tree_of self.now) S.Other.KIND (tree_of d)) }
        ensures one { IfOk result (λ d. OneConducts S.KIND (tree_of self.now) S.Other.KIND (tree_of d)) }
    {
        self.exchanged(alloc)
    }

    /// The tree towards the other supply with series and parallel exchanged.
    fn exchanged(&self, alloc: Global) -> Result<Sp<S::Other>, OutOfMemory>
        ensures { IfOk result (λ d. tree_of d ≡ dual (tree_of self.now)) }
    {
        match self {
            Sp::Leaf { gate, rail } => Ok(Sp::Leaf {
                gate: *gate,
                rail: rail.other(),
            }),
            Sp::Series(left, right) => {
                let left = left.exchanged(alloc)?;
                let right = right.exchanged(alloc)?;
                Ok(Sp::Parallel(Box::new(alloc, left)?, Box::new(alloc, right)?))
            }
            Sp::Parallel(left, right) => {
                let left = left.exchanged(alloc)?;
                let right = right.exchanged(alloc)?;
                Ok(Sp::Series(Box::new(alloc, left)?, Box::new(alloc, right)?))
            }
        }
    }
}

/// Whether a device of this kind conducts at a value of its gate.
fn switch(kind: Kind, gate: Tri) -> Tri
    ensures { result ≡ conduction kind gate }
{
    match kind {
        Kind::N => gate,
        Kind::P | Kind::Keep => gate.not(),
    }
}

/// The conduction of two parts in series.
fn in_series(left: Tri, right: Tri) -> Tri
    ensures { result ≡ both left right }
{
    match (left, right) {
        (Tri::Zero, _) => Tri::Zero,
        (Tri::One, right) => right,
        (Tri::Unknown, Tri::Zero) => Tri::Zero,
        (Tri::Unknown, _) => Tri::Unknown,
    }
}

/// The conduction of two parts in parallel.
fn in_parallel(left: Tri, right: Tri) -> Tri
    ensures { result ≡ either left right }
{
    match (left, right) {
        (Tri::One, _) => Tri::One,
        (Tri::Zero, right) => right,
        (Tri::Unknown, Tri::One) => Tri::One,
        (Tri::Unknown, _) => Tri::Unknown,
    }
}

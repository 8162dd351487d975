//! Forests: the needed pairs with what they read, and the ends of the sinks.
use crate::gates::{PlainGates, PlainNode, PlainRef};
use crate::pairs::{Asked, SignedNode, asked_by, needed, parts};
use std::alloc::{AllocError, Global};

/// What a pair reads: a leaf, as it is or not, or a pair.
#[derive(Clone, Copy, PartialEq, Eq)]
pub enum PlainArm {
    Literal(usize, bool),
    Pair(usize),
}

/// A pair: its node with its sign, whether its parts are in series, and what it reads.
#[derive(Clone, Copy)]
pub struct PlainPair {
    pub origin: SignedNode,
    pub series: bool,
    pub left: PlainArm,
    pub right: PlainArm,
}

/// Where a sink is taken from.
#[derive(Clone, Copy, PartialEq, Eq)]
pub enum PlainEnd {
    Const(bool),
    Literal(usize, bool),
    FromDynamic(usize),
    FromOutput(usize),
}

/// The needed pairs in order, whether the one use of each is by a pair, and the ends of the sinks.
#[derive(Drop)]
pub struct PlainForest {
    pub leaves: usize,
    pub pairs: Vec<PlainPair>,
    pub free: Vec<bool>,
    pub ends: Vec<PlainEnd>,
}

impl PlainForest {
    /// Whether a pair has exactly one use, by a pair.
    pub fn is_free(&self, place: usize) -> bool {
        self.free.get(place).copied().unwrap_or(false)
    }

    /// Adds the pairs of these origins, the ends of the sinks, and which pairs are free.
    fn add_all(
        &mut self,
        gates: &PlainGates,
        signs: &[bool],
        origins: &[SignedNode],
    ) -> Result<(), AllocError> {
        for origin in origins {
            self.pairs.push(pair_of(gates, origins, *origin))?;
        }
        for (index, sink) in gates.sinks.iter().enumerate() {
            let plus = signs.get(index).copied().unwrap_or(true);
            self.ends.push(end_of(gates, origins, *sink, plus))?;
        }
        for place in 0..self.pairs.len() {
            let is_free = arm_uses(&self.pairs, place) == 1 && !has_end(&self.ends, place);
            self.free.push(is_free)?;
        }
        Ok(())
    }

    /// The pair that an arm leads to through a free edge.
    pub fn free_pair(&self, arm: PlainArm) -> Option<usize> {
        match arm {
            PlainArm::Pair(place) if self.is_free(place) => Some(place),
            _ => None,
        }
    }
}

/// The place of a pair among these.
fn place_of(origins: &[SignedNode], pair: SignedNode) -> usize {
    for (place, other) in origins.iter().enumerate() {
        if *other == pair {
            return place;
        }
    }
    origins.len()
}

fn arm_of(gates: &PlainGates, origins: &[SignedNode], found: PlainRef, plus: bool) -> PlainArm {
    match asked_by(gates, found, plus) {
        Asked::Pair(pair) => PlainArm::Pair(place_of(origins, pair)),
        Asked::Literal(leaf, sign) => PlainArm::Literal(leaf, sign),
        Asked::Value(_) => PlainArm::Pair(origins.len()),
    }
}

fn pair_of(gates: &PlainGates, origins: &[SignedNode], origin: SignedNode) -> PlainPair {
    let none = PlainRef::Const(false);
    let (left, right) = parts(gates, origin.node).unwrap_or((none, none));
    let is_and = match gates.nodes.get(origin.node) {
        Some(PlainNode::And(_, _)) => true,
        _ => false,
    };
    PlainPair {
        origin,
        series: is_and == origin.plus,
        left: arm_of(gates, origins, left, origin.plus),
        right: arm_of(gates, origins, right, origin.plus),
    }
}

fn end_of(gates: &PlainGates, origins: &[SignedNode], sink: PlainRef, plus: bool) -> PlainEnd {
    match asked_by(gates, sink, true) {
        Asked::Value(value) => PlainEnd::Const(value),
        Asked::Literal(leaf, sign) => PlainEnd::Literal(leaf, sign),
        Asked::Pair(pair) => {
            let place = place_of(
                origins,
                SignedNode {
                    node: pair.node,
                    plus: pair.plus == plus,
                },
            );
            if plus {
                PlainEnd::FromDynamic(place)
            } else {
                PlainEnd::FromOutput(place)
            }
        }
    }
}

/// How many arms lead to a pair.
fn arm_uses(pairs: &[PlainPair], place: usize) -> usize {
    let mut count = 0usize;
    for pair in pairs {
        for arm in [pair.left, pair.right] {
            if arm == PlainArm::Pair(place) {
                count = count.saturating_add(1);
            }
        }
    }
    count
}

/// Whether the end of a sink is a pair.
fn has_end(ends: &[PlainEnd], place: usize) -> bool {
    ends.contains(&PlainEnd::FromDynamic(place)) || ends.contains(&PlainEnd::FromOutput(place))
}

/// The forest of gates with these signs.
pub fn forest_of(
    alloc: Global,
    gates: &PlainGates,
    signs: &[bool],
) -> Result<PlainForest, AllocError> {
    let origins = needed(alloc, gates, signs)?;
    let mut forest = PlainForest {
        leaves: gates.leaves,
        pairs: Vec::new(alloc),
        free: Vec::new(alloc),
        ends: Vec::new(alloc),
    };
    forest.add_all(gates, signs, &origins)?;
    Ok(forest)
}

/// The value of an arm, of these values of the leaves and of the pairs.
fn arm_value(arm: PlainArm, leaves: &[bool], pairs: &[bool]) -> bool {
    match arm {
        PlainArm::Literal(leaf, plus) => leaves.get(leaf).copied().unwrap_or(false) == plus,
        PlainArm::Pair(place) => pairs.get(place).copied().unwrap_or(false),
    }
}

/// The values of all pairs, of these values of the leaves.
pub fn pair_values(
    alloc: Global,
    forest: &PlainForest,
    leaves: &[bool],
) -> Result<Vec<bool>, AllocError> {
    let mut values = Vec::new(alloc);
    for pair in forest.pairs.iter() {
        let left = arm_value(pair.left, leaves, &values);
        let right = arm_value(pair.right, leaves, &values);
        values.push(if pair.series {
            left && right
        } else {
            left || right
        })?;
    }
    Ok(values)
}

/// The value of a sink by its end.
pub fn end_value(end: PlainEnd, leaves: &[bool], pairs: &[bool]) -> bool {
    match end {
        PlainEnd::Const(value) => value,
        PlainEnd::Literal(leaf, plus) => leaves.get(leaf).copied().unwrap_or(false) == plus,
        PlainEnd::FromDynamic(place) => pairs.get(place).copied().unwrap_or(false),
        PlainEnd::FromOutput(place) => !pairs.get(place).copied().unwrap_or(false),
    }
}

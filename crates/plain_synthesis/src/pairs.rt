//! Pairs of a gate node and a sign, and those that are needed.
use crate::gates::{PlainGates, PlainNode, PlainRef};
use std::alloc::{AllocError, Global};

/// A node with a sign.
#[derive(Clone, Copy, PartialEq, Eq)]
pub struct SignedNode {
    pub node: usize,
    pub plus: bool,
}

/// What a reference with a sign asks for, behind all Nots.
#[derive(Clone, Copy, PartialEq, Eq)]
pub enum Asked {
    Value(bool),
    Literal(usize, bool),
    Pair(SignedNode),
}

/// What a reference with a sign asks for: each Not on the way changes the sign.
pub fn asked_by(gates: &PlainGates, found: PlainRef, plus: bool) -> Asked {
    let mut reference = found;
    let mut sign = plus;
    for _ in 0..gates.nodes.len() {
        let PlainRef::Node(node) = reference else {
            break;
        };
        let Some(PlainNode::Not(part)) = gates.nodes.get(node) else {
            break;
        };
        reference = *part;
        sign = !sign;
    }
    match reference {
        PlainRef::Const(value) => Asked::Value(value == sign),
        PlainRef::Leaf(leaf) => Asked::Literal(leaf, sign),
        PlainRef::Node(node) => Asked::Pair(SignedNode { node, plus: sign }),
    }
}

/// The parts of a gate node.
pub fn parts(gates: &PlainGates, node: usize) -> Option<(PlainRef, PlainRef)> {
    match gates.nodes.get(node) {
        Some(PlainNode::And(left, right)) | Some(PlainNode::Or(left, right)) => {
            Some((*left, *right))
        }
        _ => None,
    }
}

/// All pairs that there are, by the number of the node, plus before minus.
pub fn all_pairs(alloc: Global, gates: &PlainGates) -> Result<Vec<SignedNode>, AllocError> {
    let mut pairs = Vec::new(alloc);
    for node in 0..gates.nodes.len() {
        if parts(gates, node).is_some() {
            pairs.push(SignedNode { node, plus: true })?;
            pairs.push(SignedNode { node, plus: false })?;
        }
    }
    Ok(pairs)
}

/// Whether a set holds the pair that a reference with a sign asks for, if it asks for one.
fn holds(gates: &PlainGates, set: &[SignedNode], found: PlainRef, plus: bool) -> bool {
    match asked_by(gates, found, plus) {
        Asked::Pair(pair) => set.contains(&pair),
        _ => true,
    }
}

/// Whether a set holds what a pair's parts ask for.
fn holds_parts(gates: &PlainGates, set: &[SignedNode], pair: SignedNode) -> bool {
    match parts(gates, pair.node) {
        Some((left, right)) => {
            holds(gates, set, left, pair.plus) && holds(gates, set, right, pair.plus)
        }
        None => true,
    }
}

fn sign_at(signs: &[bool], sink: usize) -> bool {
    signs.get(sink).copied().unwrap_or(true)
}

/// Whether a set holds the pairs of all sinks and, with each pair, those of its parts.
pub fn is_closed(gates: &PlainGates, signs: &[bool], set: &[SignedNode]) -> bool {
    for (index, sink) in gates.sinks.iter().enumerate() {
        if !holds(gates, set, *sink, sign_at(signs, index)) {
            return false;
        }
    }
    for pair in set {
        if !holds_parts(gates, set, *pair) {
            return false;
        }
    }
    true
}

/// Whether a pair is asked for by a sink or by a pair of this set.
fn is_asked(gates: &PlainGates, signs: &[bool], set: &[SignedNode], pair: SignedNode) -> bool {
    let wanted = Asked::Pair(pair);
    for (index, sink) in gates.sinks.iter().enumerate() {
        if asked_by(gates, *sink, sign_at(signs, index)) == wanted {
            return true;
        }
    }
    for user in set {
        if let Some((left, right)) = parts(gates, user.node) {
            if asked_by(gates, left, user.plus) == wanted
                || asked_by(gates, right, user.plus) == wanted
            {
                return true;
            }
        }
    }
    false
}

/// The pairs of these that a set has, or that it or a sink asks for.
fn asked_for(
    alloc: Global,
    gates: &PlainGates,
    signs: &[bool],
    all: &[SignedNode],
    set: &[SignedNode],
) -> Result<Vec<SignedNode>, AllocError> {
    let mut more = Vec::new(alloc);
    for pair in all {
        if set.contains(pair) || is_asked(gates, signs, set, *pair) {
            more.push(*pair)?;
        }
    }
    Ok(more)
}

/// The least closed set, grown from nothing, in order.
pub fn needed(
    alloc: Global,
    gates: &PlainGates,
    signs: &[bool],
) -> Result<Vec<SignedNode>, AllocError> {
    let all = all_pairs(alloc, gates)?;
    let mut set = Vec::new(alloc);
    for _ in 0..all.len().saturating_add(1) {
        let more = asked_for(alloc, gates, signs, &all, &set)?;
        if more.len() == set.len() {
            return Ok(set);
        }
        set = more;
    }
    Ok(set)
}

/// The pairs that are in every closed set, where all sets of at most so many pairs are tried.
pub fn needed_by_sets(
    alloc: Global,
    gates: &PlainGates,
    signs: &[bool],
    most: usize,
) -> Result<Option<Vec<SignedNode>>, AllocError> {
    let all = all_pairs(alloc, gates)?;
    if all.len() > most || all.len() > 16 {
        return Ok(None);
    }
    let mut inside = all_pairs(alloc, gates)?;
    let mut count = 1usize;
    for _ in 0..all.len() {
        count = count.saturating_mul(2);
    }
    for number in 0..count {
        let set = members(alloc, &all, number)?;
        if is_closed(gates, signs, &set) {
            inside.retain(|pair| set.contains(pair));
        }
    }
    Ok(Some(inside))
}

/// The members whose bits are set in a number.
fn members(
    alloc: Global,
    all: &[SignedNode],
    number: usize,
) -> Result<Vec<SignedNode>, AllocError> {
    let mut set = Vec::new(alloc);
    let mut rest = number;
    for pair in all {
        if rest % 2 == 1 {
            set.push(*pair)?;
        }
        rest /= 2;
    }
    Ok(set)
}

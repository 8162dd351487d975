//! Gates and forests beside plain ones.
use dual_rail::{Arm, End, Forest, Pair, Rail};
use gate_decompose::{Gates, Node, Ref};
use plain_synthesis::{
    PlainArm, PlainEnd, PlainForest, PlainGates, PlainNode, PlainPair, PlainRef,
};

fn plain_ref(found: Ref) -> PlainRef {
    match found {
        Ref::Const(bit) => PlainRef::Const(bit),
        Ref::Leaf(leaf) => PlainRef::Leaf(leaf as usize),
        Ref::Node(node) => PlainRef::Node(node as usize),
    }
}

fn plain_node(node: Node) -> PlainNode {
    match node {
        Node::Not(part) => PlainNode::Not(plain_ref(part)),
        Node::And(left, right) => PlainNode::And(plain_ref(left), plain_ref(right)),
        Node::Or(left, right) => PlainNode::Or(plain_ref(left), plain_ref(right)),
    }
}

/// Whether gates are these.
pub fn same_gates(gates: &Gates, plain: &PlainGates) -> bool {
    let mut nodes = gates.nodes.iter().zip(plain.nodes.iter());
    let mut sinks = gates.sinks.iter().zip(plain.sinks.iter());
    gates.leaves as usize == plain.leaves
        && gates.nodes.len() == plain.nodes.len()
        && nodes.all(|(node, other)| plain_node(*node) == *other)
        && gates.sinks.len() == plain.sinks.len()
        && sinks.all(|(sink, other)| plain_ref(*sink) == *other)
}

fn same_rail(rail: Rail, leaf: usize, plus: bool) -> bool {
    rail.leaf as usize == leaf && rail.plus == plus
}

fn same_arm(arm: Arm, plain: PlainArm) -> bool {
    match (arm, plain) {
        (Arm::Literal(rail), PlainArm::Literal(leaf, plus)) => same_rail(rail, leaf, plus),
        (Arm::Pair(place), PlainArm::Pair(other)) => place as usize == other,
        _ => false,
    }
}

fn same_pair(pair: Pair, plain: PlainPair) -> bool {
    let (series, left, right) = match pair {
        Pair::And(left, right) => (true, left, right),
        Pair::Or(left, right) => (false, left, right),
    };
    series == plain.series && same_arm(left, plain.left) && same_arm(right, plain.right)
}

fn same_origin(origin: (u32, bool), plain: PlainPair) -> bool {
    origin.0 as usize == plain.origin.node && origin.1 == plain.origin.plus
}

fn same_end(end: End, plain: PlainEnd) -> bool {
    match (end, plain) {
        (End::Const(bit), PlainEnd::Const(other)) => bit == other,
        (End::Literal(rail), PlainEnd::Literal(leaf, plus)) => same_rail(rail, leaf, plus),
        (End::FromDynamic(place), PlainEnd::FromDynamic(other)) => place as usize == other,
        (End::FromOutput(place), PlainEnd::FromOutput(other)) => place as usize == other,
        _ => false,
    }
}

/// How many arms and ends name a pair.
fn plain_uses(plain: &PlainForest, place: usize) -> usize {
    let mut uses = 0usize;
    for pair in plain.pairs.iter() {
        for arm in [pair.left, pair.right] {
            if arm == PlainArm::Pair(place) {
                uses = uses.saturating_add(1);
            }
        }
    }
    for end in plain.ends.iter() {
        if *end == PlainEnd::FromDynamic(place) || *end == PlainEnd::FromOutput(place) {
            uses = uses.saturating_add(1);
        }
    }
    uses
}

fn same_pairs(forest: &Forest, plain: &PlainForest) -> bool {
    let mut pairs = forest.pairs.iter().zip(plain.pairs.iter());
    let mut origins = forest.origin.iter().zip(plain.pairs.iter());
    forest.pairs.len() == plain.pairs.len()
        && forest.origin.len() == plain.pairs.len()
        && pairs.all(|(pair, other)| same_pair(*pair, *other))
        && origins.all(|(origin, other)| same_origin(*origin, *other))
}

fn same_ends(forest: &Forest, plain: &PlainForest) -> bool {
    let mut ends = forest.ends.iter().zip(plain.ends.iter());
    forest.ends.len() == plain.ends.len() && ends.all(|(end, other)| same_end(*end, *other))
}

fn same_uses(forest: &Forest, plain: &PlainForest) -> bool {
    let mut uses = forest.uses.iter().enumerate();
    forest.uses.len() == plain.pairs.len()
        && uses.all(|(place, count)| *count as usize == plain_uses(plain, place))
}

/// Whether a forest is this one.
pub fn same_forest(forest: &Forest, plain: &PlainForest) -> bool {
    forest.leaves as usize == plain.leaves
        && same_pairs(forest, plain)
        && same_ends(forest, plain)
        && same_uses(forest, plain)
}

//! Generated gates, and worked ones.
use plain_networks::{PlainNetwork, PlainTable};
use plain_synthesis::{PlainGates, PlainNode, PlainRef, gates_of};
use plain_texts::Draws;
use std::alloc::{AllocError, Global};

/// Generated gates without constants. Most nodes have one use, so that most edges are free.
pub fn drawn_gates(alloc: Global, draws: &mut Draws) -> Result<PlainGates, AllocError> {
    let leaves = draws.below(7).saturating_add(3);
    let mut parts = Vec::new(alloc);
    for leaf in 0..leaves {
        parts.push(PlainRef::Leaf(leaf))?;
    }
    for _ in 0..draws.below(3) {
        parts.push(PlainRef::Leaf(draws.below(leaves)))?;
    }
    let mut nodes = Vec::new(alloc);
    let mut sinks = Vec::new(alloc);
    let count = parts.len().saturating_sub(1);
    for _ in 0..count {
        let left = taken(draws, &mut parts);
        let right = taken(draws, &mut parts);
        nodes.push(drawn_node(draws, left, right))?;
        let mut made = PlainRef::Node(nodes.len().saturating_sub(1));
        if draws.below(3) == 0 {
            nodes.push(PlainNode::Not(made))?;
            made = PlainRef::Node(nodes.len().saturating_sub(1));
        }
        parts.push(made)?;
        if draws.below(8) == 0 {
            parts.push(made)?;
        }
        if draws.below(7) == 0 {
            sinks.push(made)?;
        }
    }
    for part in parts.iter() {
        sinks.push(*part)?;
    }
    Ok(PlainGates {
        leaves,
        nodes,
        sinks,
    })
}

/// A drawn part, which is taken out.
fn taken(draws: &mut Draws, parts: &mut Vec<PlainRef>) -> PlainRef {
    let place = draws.below(parts.len());
    if place < parts.len() {
        parts.swap_remove(place)
    } else {
        PlainRef::Leaf(0)
    }
}

fn drawn_node(draws: &mut Draws, left: PlainRef, right: PlainRef) -> PlainNode {
    if draws.below(2) == 0 {
        PlainNode::And(left, right)
    } else {
        PlainNode::Or(left, right)
    }
}

/// The And of `(((a b) c) (d e))` and `f`, whose least plan isn't the first that fits.
pub fn chain(alloc: Global) -> Result<PlainGates, AllocError> {
    let leaf = |number: usize| PlainRef::Leaf(number);
    let node = |number: usize| PlainRef::Node(number);
    Ok(PlainGates {
        leaves: 6,
        nodes: vec![in alloc;
            PlainNode::And(leaf(0), leaf(1)),
            PlainNode::And(node(0), leaf(2)),
            PlainNode::And(leaf(3), leaf(4)),
            PlainNode::And(node(1), node(2)),
            PlainNode::And(node(3), leaf(5)),
        ]?,
        sinks: vec![in alloc; node(4)]?,
    })
}

/// The gates of a table that is the one output, with so many inputs and these rows.
fn one_table(alloc: Global, inputs: usize, rows: Vec<Vec<u8>>) -> Result<PlainGates, AllocError> {
    let mut numbers = Vec::new(alloc);
    for input in 0..inputs {
        numbers.push(input)?;
    }
    let table = PlainTable {
        inputs: numbers,
        on: true,
        rows,
    };
    let network = PlainNetwork {
        name: String::from_str(alloc, "f")?,
        names: Vec::new(alloc),
        inputs,
        outputs: vec![in alloc; inputs]?,
        latches: Vec::new(alloc),
        tables: vec![in alloc; table]?,
    };
    gates_of(alloc, &network)
}

/// The And of five inputs.
pub fn wide_and(alloc: Global) -> Result<PlainGates, AllocError> {
    let row = Vec::from_slice(alloc, b"11111")?;
    one_table(alloc, 5, vec![in alloc; row]?)
}

/// The Or of nine inputs.
pub fn wide_or(alloc: Global) -> Result<PlainGates, AllocError> {
    let mut rows = Vec::new(alloc);
    for place in 0..9usize {
        let mut row = Vec::new(alloc);
        for input in 0..9usize {
            row.push(if input == place { b'1' } else { b'-' })?;
        }
        rows.push(row)?;
    }
    one_table(alloc, 9, rows)
}

//! Gates and forests in words. `l` is a leaf, `n` a node, `p` a pair, `d` the dynamic net of a pair's cell
//! and `z` the cell's output, each with its number.
use dual_rail::{Arm, End, Forest, Pair, Rail};
use gate_decompose::{Gates, Node, Ref};
use std::alloc::{AllocError, Global};

fn bit_words(alloc: Global, bit: bool) -> Result<String, AllocError> {
    String::from_str(alloc, if bit { "1" } else { "0" })
}

fn part_words(alloc: Global, part: Ref) -> Result<String, AllocError> {
    match part {
        Ref::Const(bit) => bit_words(alloc, bit),
        Ref::Leaf(leaf) => format!(in alloc; "l{leaf}"),
        Ref::Node(node) => format!(in alloc; "n{node}"),
    }
}

/// Two operands with their operator between them.
fn joined(
    alloc: Global,
    left: String,
    operator: &str,
    right: String,
) -> Result<String, AllocError> {
    format!(in alloc; "{left} {operator} {right}")
}

fn node_words(alloc: Global, node: Node) -> Result<String, AllocError> {
    match node {
        Node::And(left, right) => {
            joined(
                alloc,
                part_words(alloc, left)?,
                "&",
                part_words(alloc, right)?,
            )
        }
        Node::Or(left, right) => {
            joined(
                alloc,
                part_words(alloc, left)?,
                "|",
                part_words(alloc, right)?,
            )
        }
        Node::Not(part) => {
            let part = part_words(alloc, part)?;
            format!(in alloc; "!{part}")
        }
    }
}

/// The nodes in order, and what each sink is behind `->`.
pub fn gates_words(alloc: Global, gates: &Gates) -> Result<String, AllocError> {
    let mut text = String::new(alloc);
    for node in gates.nodes.iter() {
        text.push_str(node_words(alloc, *node)?.as_str())?;
        text.push_str("; ")?;
    }
    text.push_str("->")?;
    for sink in gates.sinks.iter() {
        text.push_str(" ")?;
        text.push_str(part_words(alloc, *sink)?.as_str())?;
    }
    Ok(text)
}

fn rail_words(alloc: Global, rail: Rail) -> Result<String, AllocError> {
    let leaf = rail.leaf;
    if rail.plus {
        format!(in alloc; "l{leaf}")
    } else {
        format!(in alloc; "!l{leaf}")
    }
}

fn arm_words(alloc: Global, arm: Arm) -> Result<String, AllocError> {
    match arm {
        Arm::Literal(rail) => rail_words(alloc, rail),
        Arm::Pair(place) => format!(in alloc; "p{place}"),
    }
}

fn pair_words(alloc: Global, pair: Pair) -> Result<String, AllocError> {
    match pair {
        Pair::And(left, right) => joined(
            alloc,
            arm_words(alloc, left)?,
            "&",
            arm_words(alloc, right)?,
        ),
        Pair::Or(left, right) => joined(
            alloc,
            arm_words(alloc, left)?,
            "|",
            arm_words(alloc, right)?,
        ),
    }
}

fn end_words(alloc: Global, end: End) -> Result<String, AllocError> {
    match end {
        End::Const(bit) => bit_words(alloc, bit),
        End::Literal(rail) => rail_words(alloc, rail),
        End::FromDynamic(place) => format!(in alloc; "d{place}"),
        End::FromOutput(place) => format!(in alloc; "z{place}"),
    }
}

/// The node and the sign of a pair, and the number of its uses.
fn head_words(alloc: Global, origin: (u32, bool), uses: u32) -> Result<String, AllocError> {
    let (node, plus) = origin;
    let sign = if plus { "+" } else { "-" };
    format!(in alloc; "n{node}{sign} x{uses} = ")
}

/// The pairs in order, and the end of each sink behind `->`.
pub fn forest_words(alloc: Global, forest: &Forest) -> Result<String, AllocError> {
    let mut text = String::new(alloc);
    let heads = forest.origin.iter().zip(forest.uses.iter());
    for ((origin, uses), pair) in heads.zip(forest.pairs.iter()) {
        text.push_str(head_words(alloc, *origin, *uses)?.as_str())?;
        text.push_str(pair_words(alloc, *pair)?.as_str())?;
        text.push_str("; ")?;
    }
    text.push_str("->")?;
    for end in forest.ends.iter() {
        text.push_str(" ")?;
        text.push_str(end_words(alloc, *end)?.as_str())?;
    }
    Ok(text)
}

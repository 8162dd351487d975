//! Gates: the tables of a network as And, Or and Not nodes.
use plain_networks::{PlainNetwork, PlainTable};
use std::alloc::{AllocError, Global};

/// What a node reads, or what the signal of a sink is.
#[derive(Clone, Copy, PartialEq, Eq)]
pub enum PlainRef {
    Const(bool),
    Leaf(usize),
    Node(usize),
}

/// A node.
#[derive(Clone, Copy, PartialEq, Eq)]
pub enum PlainNode {
    Not(PlainRef),
    And(PlainRef, PlainRef),
    Or(PlainRef, PlainRef),
}

/// A part of an expression, as it is or under Not.
#[derive(Clone, Copy)]
struct Item {
    part: PlainRef,
    plus: bool,
}

/// Nodes over leaves, each of which reads nodes before it, and what the sinks are.
#[derive(Drop)]
pub struct PlainGates {
    pub leaves: usize,
    pub nodes: Vec<PlainNode>,
    pub sinks: Vec<PlainRef>,
}

impl PlainGates {
    fn add(&mut self, node: PlainNode) -> Result<PlainRef, AllocError> {
        let number = self.nodes.len();
        self.nodes.push(node)?;
        Ok(PlainRef::Node(number))
    }

    /// Adds a Not, where what it reads is no constant.
    pub fn add_not(&mut self, part: PlainRef) -> Result<PlainRef, AllocError> {
        match part {
            PlainRef::Const(value) => Ok(PlainRef::Const(!value)),
            _ => self.add(PlainNode::Not(part)),
        }
    }

    /// Adds an And or an Or, where no part of it is a constant. The constant that decides the operator is 0
    /// for And and 1 for Or; the other one is dropped.
    pub fn add_operator(
        &mut self,
        and: bool,
        left: PlainRef,
        right: PlainRef,
    ) -> Result<PlainRef, AllocError> {
        let deciding = PlainRef::Const(!and);
        if left == deciding || right == deciding {
            return Ok(deciding);
        }
        match (left, right) {
            (PlainRef::Const(_), other) => Ok(other),
            (other, PlainRef::Const(_)) => Ok(other),
            _ if and => self.add(PlainNode::And(left, right)),
            _ => self.add(PlainNode::Or(left, right)),
        }
    }

    /// Adds the Not of an item, where it is under one.
    fn add_item(&mut self, item: Item) -> Result<PlainRef, AllocError> {
        if item.plus {
            Ok(item.part)
        } else {
            self.add_not(item.part)
        }
    }

    /// Adds the operator on the balanced first half of these items, rounded up, and on the balanced rest. A Not
    /// stands where its item stands.
    fn add_balanced(
        &mut self,
        and: bool,
        items: &[Item],
        fuel: usize,
    ) -> Result<PlainRef, AllocError> {
        match items {
            [] => Ok(PlainRef::Const(and)),
            [item] => self.add_item(*item),
            _ => {
                if fuel == 0 {
                    return Ok(PlainRef::Const(and));
                }
                let half = items.len().saturating_add(1) / 2;
                let front = items.get(..half).unwrap_or(&[]);
                let rest = items.get(half..).unwrap_or(&[]);
                let left = self.add_balanced(and, front, fuel - 1)?;
                let right = self.add_balanced(and, rest, fuel - 1)?;
                self.add_operator(and, left, right)
            }
        }
    }
}

/// What stands for a signal.
fn signal_ref(signals: &[PlainRef], signal: usize) -> PlainRef {
    signals
        .get(signal)
        .copied()
        .unwrap_or(PlainRef::Const(false))
}

/// The items of a row.
fn row_items(
    alloc: Global,
    signals: &[PlainRef],
    inputs: &[usize],
    row: &[u8],
) -> Result<Vec<Item>, AllocError> {
    let mut items = Vec::new(alloc);
    for (index, letter) in row.iter().enumerate() {
        let signal = inputs.get(index).copied().unwrap_or(0);
        if *letter == b'0' || *letter == b'1' {
            items.push(Item {
                part: signal_ref(signals, signal),
                plus: *letter == b'1',
            })?;
        }
    }
    Ok(items)
}

/// Adds the nodes of a table: its rows, the Or above them, and a Not where they end in 0.
fn add_table(
    alloc: Global,
    gates: &mut PlainGates,
    signals: &[PlainRef],
    table: &PlainTable,
) -> Result<PlainRef, AllocError> {
    let mut rows = Vec::new(alloc);
    for row in table.rows.iter() {
        let items = row_items(alloc, signals, &table.inputs, row)?;
        let part = gates.add_balanced(true, &items, items.len())?;
        rows.push(Item { part, plus: true })?;
    }
    let any = gates.add_balanced(false, &rows, rows.len())?;
    if table.on {
        Ok(any)
    } else {
        gates.add_not(any)
    }
}

/// The gates of a network.
pub fn gates_of(alloc: Global, network: &PlainNetwork) -> Result<PlainGates, AllocError> {
    let mut gates = PlainGates {
        leaves: network.leaves(),
        nodes: Vec::new(alloc),
        sinks: Vec::new(alloc),
    };
    add_network(alloc, network, &mut gates)?;
    Ok(gates)
}

/// Adds the tables and the sinks of a network.
fn add_network(
    alloc: Global,
    network: &PlainNetwork,
    gates: &mut PlainGates,
) -> Result<(), AllocError> {
    let mut signals = Vec::new(alloc);
    for leaf in 0..network.leaves() {
        signals.push(PlainRef::Leaf(leaf))?;
    }
    for table in network.tables.iter() {
        signals.push(add_table(alloc, gates, &signals, table)?)?;
    }
    for index in 0..network.sinks() {
        let sink = signal_ref(&signals, network.sink(index));
        gates.sinks.push(sink)?;
    }
    Ok(())
}

/// The value of a reference, of these values of the leaves and of the nodes.
pub fn ref_value(found: PlainRef, leaves: &[bool], nodes: &[bool]) -> bool {
    match found {
        PlainRef::Const(value) => value,
        PlainRef::Leaf(leaf) => leaves.get(leaf).copied().unwrap_or(false),
        PlainRef::Node(node) => nodes.get(node).copied().unwrap_or(false),
    }
}

/// The values of all nodes, of these values of the leaves.
pub fn node_values(
    alloc: Global,
    gates: &PlainGates,
    leaves: &[bool],
) -> Result<Vec<bool>, AllocError> {
    let mut values = Vec::new(alloc);
    for node in gates.nodes.iter() {
        let value = match *node {
            PlainNode::Not(part) => !ref_value(part, leaves, &values),
            PlainNode::And(left, right) => {
                ref_value(left, leaves, &values) && ref_value(right, leaves, &values)
            }
            PlainNode::Or(left, right) => {
                ref_value(left, leaves, &values) || ref_value(right, leaves, &values)
            }
        };
        values.push(value)?;
    }
    Ok(values)
}

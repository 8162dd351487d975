//! Gates: nodes over leaves, in order, and sinks.
use std::marker::Model;

/// What a node or a sink reads: a constant, a leaf, which is the number of an input or latch signal, or a node.
#[derive(Clone, Copy, Debug, PartialEq, Eq)]
pub enum Ref {
    Const(bool),
    Leaf(u32),
    Node(u32),
}

/// An operator over what it reads.
#[derive(Clone, Copy, Debug, PartialEq, Eq)]
pub enum Node {
    And(Ref, Ref),
    Or(Ref, Ref),
    Not(Ref),
}

/// Nodes, children first, and sinks, which are the outputs and then the latch inputs. A node reads
/// leaves that are there and nodes before it, and never a constant; sinks name nodes and leaves that
/// are there. There are at most 200,000 leaves, 800,000 nodes, of which at most 400,000 are And or
/// Or, and 8,192 sinks.
#[derive(Drop)]
pub struct Gates {
    pub leaves: u32,
    pub nodes: Vec<Node>,
    pub sinks: Vec<Ref>,
}

impl Model for Gates {
    ghost use Rattle.gate_decompose.specs.GatesData.{GatesData};
    ghost use Rattle.gate_decompose.specs.GatesOrder.{AreGates};

    ghost Value = { GatesData };

    ghost view = { λ g. record { leaves = g.leaves; nodes = g.nodes.items; sinks = g.sinks.items } };

    ghost invariant = { λ g. AreGates (record { leaves = g.leaves; nodes = g.nodes.items; sinks = g.sinks.items }) };
}

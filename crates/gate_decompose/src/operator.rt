//! Operators over what parts of an expression come to: one node each, and none where a part is a
//! constant.
ghost use Rattle.std.specs.Prelude.{IfOk, List, ◌≡◌, ◌<◌, ◌≤◌, ◌+◌, ◌^◌, length, count_by};
ghost use Rattle.gate_decompose.specs.GateNodes.{NodeName, Operand, ref_of};
ghost use Rattle.gate_decompose.specs.GatesOrder.{is_operator};
ghost use Rattle.gate_decompose.specs.TermNodes.{IsPushed, Makes, dropped_by, two_parts, no_nodes, over, under_not, with_constant};

use crate::gates::{Node, Ref};
use dom_base::OutOfMemory;

/// An operator over two parts.
#[derive(Clone, Copy)]
pub enum Operator {
    And,
    Or,
}

impl Operator {
    /// What the operator over a constant and another part comes to.
    fn with_constant(self, bit: bool, other: Ref) -> Ref
        ensures { result ≡ with_constant self bit other }
    {
        match (self, bit) {
            (Operator::And, true) | (Operator::Or, false) => other,
            (Operator::And, false) | (Operator::Or, true) => Ref::Const(bit),
        }
    }

    /// The constant that the operator drops, which is what it comes to without parts.
    pub fn dropped(self) -> bool
        ensures { result ≡ dropped_by self }
    {
        matches!(self, Operator::And)
    }

    /// The node of the operator.
    fn over(self, left: Ref, right: Ref) -> Node
        ensures { result ≡ over self left right }
    {
        match self {
            Operator::And => Node::And(left, right),
            Operator::Or => Node::Or(left, right),
        }
    }
}

/// Appends a node, and answers its number.
fn push(nodes: &mut Vec<Node>, node: Node) -> Result<Ref, OutOfMemory>
    requires { length nodes.old.items < 2 ^ 32 }
    ensures { IfOk result (λ r. IsPushed nodes.old.items nodes.new.items r node) }
{
    let number = nodes.len() as u32;
    nodes.push(node)?;
    Ok(Ref::Node(number))
}

/// What Not of a part comes to.
pub fn negate(nodes: &mut Vec<Node>, part: Ref) -> Result<Ref, OutOfMemory>
    requires { length nodes.old.items < 2 ^ 32 }
    ensures makes { IfOk result (λ r. (names : List NodeName) (name : NodeName) (a : Operand) → part ≡ ref_of names a
        → Makes names nodes.old.items nodes.new.items r (under_not name a)) }
    ensures few { IfOk result (λ r. length nodes.new.items ≤ length nodes.old.items + 1) }
    ensures operators { IfOk result (λ r. count_by is_operator nodes.new.items ≤ count_by is_operator nodes.old.items) }
{
    match part {
        Ref::Const(bit) => Ok(Ref::Const(!bit)),
        Ref::Leaf(_) | Ref::Node(_) => push(nodes, Node::Not(part)),
    }
}

/// What two parts under an operator come to.
pub fn join(
    nodes: &mut Vec<Node>,
    operator: Operator,
    left: Ref,
    right: Ref,
) -> Result<Ref, OutOfMemory>
    requires { length nodes.old.items < 2 ^ 32 }
    ensures makes { IfOk result (λ r. (names : List NodeName) (name : NodeName) (a b : Operand) → left ≡ ref_of names a → right ≡ ref_of names b
        → Makes names nodes.old.items nodes.new.items r (two_parts operator name (no_nodes a) (no_nodes b))) }
    ensures few { IfOk result (λ r. length nodes.new.items ≤ length nodes.old.items + 1) }
    ensures operators { IfOk result (λ r. count_by is_operator nodes.new.items ≤ count_by is_operator nodes.old.items + 1) }
{
    match left {
        Ref::Const(bit) => Ok(operator.with_constant(bit, right)),
        Ref::Leaf(_) | Ref::Node(_) => match right {
            Ref::Const(bit) => Ok(operator.with_constant(bit, left)),
            Ref::Leaf(_) | Ref::Node(_) => push(nodes, operator.over(left, right)),
        },
    }
}

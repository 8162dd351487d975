//! Balanced expressions over items.
ghost use Rattle.std.specs.Prelude.{IfOk, List, ℕ, Bool, ◌≡◌, ◌≤◌, ◌+◌, ◌-◌, ◌*◌, ◌^◌, length, count_by, map};
ghost use Rattle.gate_decompose.specs.GateNodes.{NodeName, Operand, Turn};
ghost use Rattle.gate_decompose.specs.GatesOrder.{is_operator};
ghost use Rattle.gate_decompose.specs.TermNodes.{Makes, all_joined, item_nodes, item_of};

use crate::gates::{Node, Ref};
use crate::operator::{Operator, join, negate};
use dom_base::OutOfMemory;

/// A part of an expression, as it is or under Not.
#[derive(Clone, Copy)]
pub struct Item {
    pub part: Ref,
    pub plus: bool,
}

/// What an item comes to.
fn join_one(nodes: &mut Vec<Node>, item: Item) -> Result<Ref, OutOfMemory>
    requires { length nodes.old.items + 1 ≤ 2 ^ 32 }
    ensures makes { IfOk result (λ r. (names : List NodeName) (table : ℕ) (way : List Turn) (a : Operand) (plus : Bool) → item ≡ item_of names (a, plus)
        → Makes names nodes.old.items nodes.new.items r (item_nodes table (a, plus) way)) }
    ensures few { IfOk result (λ r. length nodes.new.items ≤ length nodes.old.items + 1) }
    ensures operators { IfOk result (λ r. count_by is_operator nodes.new.items ≤ count_by is_operator nodes.old.items) }
{
    if item.plus {
        Ok(item.part)
    } else {
        negate(nodes, item.part)
    }
}

/// What the balanced expression of an operator over items comes to. Each call takes half of the items,
/// so that calls stand in one another at most as often as the number of items can be halved.
pub fn join_all(
    nodes: &mut Vec<Node>,
    operator: Operator,
    items: &[Item],
) -> Result<Ref, OutOfMemory>
    requires { length nodes.old.items + 2 * length items.now ≤ 2 ^ 32 }
    ensures makes { IfOk result (λ r. (names : List NodeName) (table : ℕ) (way : List Turn) (operands : List (Operand × Bool))
        → items.now ≡ map (item_of names) operands
        → Makes names nodes.old.items nodes.new.items r (all_joined operator table operands way)) }
    ensures few { IfOk result (λ r. length nodes.new.items ≤ length nodes.old.items + (2 * length items.now - 1)) }
    ensures operators { IfOk result (λ r. count_by is_operator nodes.new.items ≤ count_by is_operator nodes.old.items + (length items.now - 1)) }
{
    match items {
        [] => Ok(Ref::Const(operator.dropped())),
        [one] => join_one(nodes, *one),
        _ => {
            let half = items.len().div_ceil(2);
            let left = join_all(nodes, operator, &items[..half])?;
            let right = join_all(nodes, operator, &items[half..])?;
            join(nodes, operator, left, right)
        }
    }
}

//! The expression of a row.
ghost use Rattle.std.specs.Prelude.{IfOk, OnOk, All, List, ℕ, ◌≡◌, ◌≤◌, ◌<◌, ◌+◌, ◌*◌, ◌^◌, length, count_by, map};
ghost use Rattle.gate_decompose.specs.GateNodes.{NodeName, Operand, Turn};
ghost use Rattle.gate_decompose.specs.GatesOrder.{is_operator};
ghost use Rattle.gate_decompose.specs.RowItems.{AreRefs, row_made, row_signals, signal_item};
ghost use Rattle.gate_decompose.specs.TermNodes.{Makes};
ghost use Rattle.gate_decompose.specs.Terms.{row_term};

use crate::expression::{Item, join_all};
use crate::gates::{Node, Ref};
use crate::operator::Operator;
use blif_ast::Letter;
use dom_base::OutOfMemory;

/// Puts the items of a row, in the order of its inputs, in place of these items, where `refs` has what
/// each signal comes to.
fn put_row_items(
    items: &mut Vec<Item>,
    refs: &[Ref],
    inputs: &[u32],
    row: &[Letter],
) -> Result<(), OutOfMemory>
    requires below { All (λ signal. signal < length refs.now) inputs.now }
    requires fits { length row.now ≡ length inputs.now }
    ensures { OnOk result (items.new.items ≡ map (signal_item refs.now) (row_signals inputs.now row.now)) }
{
    items.clear();
    for (place, letter) in row.iter().enumerate() {
        let part = refs[inputs[place] as usize];
        match letter {
            Letter::One => items.push(Item { part, plus: true })?,
            Letter::Zero => items.push(Item { part, plus: false })?,
            Letter::Any => {}
        }
    }
    Ok(())
}

/// What a row comes to: the And of its items, which are put in place of these items.
pub fn row_part(
    nodes: &mut Vec<Node>,
    items: &mut Vec<Item>,
    refs: &[Ref],
    inputs: &[u32],
    row: &[Letter],
) -> Result<Ref, OutOfMemory>
    requires below { All (λ signal. signal < length refs.now) inputs.now }
    requires fits { length row.now ≡ length inputs.now }
    requires room { length nodes.old.items + 2 * length inputs.now ≤ 2 ^ 32 }
    ensures makes { IfOk result (λ r. (names : List NodeName) (of : ℕ → Operand) (table : ℕ) (way : List Turn) → AreRefs names of refs.now
        → Makes names nodes.old.items nodes.new.items r (row_made of table (row_term inputs.now row.now) way)) }
    ensures few { IfOk result (λ r. length nodes.new.items ≤ length nodes.old.items + 2 * length inputs.now) }
    ensures operators { IfOk result (λ r. count_by is_operator nodes.new.items ≤ count_by is_operator nodes.old.items + length inputs.now) }
{
    put_row_items(items, refs, inputs, row)?;
    join_all(nodes, Operator::And, items.as_slice())
}

//! The gates of a network, table by table.
ghost use Rattle.std.specs.Prelude.{IfOk, OnOk, All, List, ℕ, ◌≡◌, ◌≤◌, ◌<◌, ◌+◌, ◌*◌, ◌^◌, length, count_by, map};
ghost use Rattle.std.specs.List.{range_with_len};
ghost use Rattle.gate_decompose.specs.GateNodes.{AreGatesOf, NodeName, Operand, Turn};
ghost use Rattle.gate_decompose.specs.GatesOrder.{is_operator};
ghost use Rattle.gate_decompose.specs.RowItems.{AreRefs, ref_at, table_made};
ghost use Rattle.gate_decompose.specs.RowsMade.{MakesRows};
ghost use Rattle.gate_decompose.specs.Sinks.{sink_signals};
ghost use Rattle.gate_decompose.specs.TermNodes.{Makes};
ghost use Rattle.network.specs.Limits.{letters};

use crate::expression::{Item, join_all};
use crate::gates::{Gates, Node, Ref};
use crate::operator::{Operator, negate};
use crate::row::row_part;
use dom_base::OutOfMemory;
use network::{NetTable, Network};
use std::alloc::Global;

/// The most letters that the tables of a network have together.
const MOST_LETTERS: usize = 400_000;

/// Puts what the rows of a table come to, in order, in place of the items of rows.
fn put_row_parts(
    nodes: &mut Vec<Node>,
    rows: &mut Vec<Item>,
    items: &mut Vec<Item>,
    refs: &[Ref],
    table: &NetTable<'_>,
) -> Result<(), OutOfMemory>
    requires below { All (λ signal. signal < length refs.now) table.now.inputs }
    requires fits { All (λ row. length row ≡ length table.now.inputs) table.now.rows }
    requires room { length nodes.old.items + 2 * (length table.now.rows * length table.now.inputs) ≤ 2 ^ 32 }
    ensures makes { OnOk result ((names : List NodeName) (of : ℕ → Operand) (number : ℕ) (way : List Turn) → AreRefs names of refs.now
        → MakesRows names of number way table.now nodes.old.items nodes.new.items rows.new.items) }
    ensures count { OnOk result (length rows.new.items ≡ length table.now.rows) }
    ensures few { OnOk result (length nodes.new.items ≤ length nodes.old.items + 2 * (length table.now.rows * length table.now.inputs)) }
    ensures operators { OnOk result (count_by is_operator nodes.new.items
        ≤ count_by is_operator nodes.old.items + length table.now.rows * length table.now.inputs) }
{
    rows.clear();
    for k in 0..table.rows.len() {
        let part = row_part(nodes, items, refs, table.inputs, table.rows.list(k))?;
        rows.push(Item { part, plus: true })?;
    }
    Ok(())
}

/// What a table comes to: the Or of its rows, under Not where they end in 0. The items of its rows and
/// of their letters are put in place of these items.
fn table_part(
    nodes: &mut Vec<Node>,
    rows: &mut Vec<Item>,
    items: &mut Vec<Item>,
    refs: &[Ref],
    table: &NetTable<'_>,
) -> Result<Ref, OutOfMemory>
    requires below { All (λ signal. signal < length refs.now) table.now.inputs }
    requires fits { All (λ row. length row ≡ length table.now.inputs) table.now.rows }
    requires room { length nodes.old.items + 2 * letters (length table.now.inputs) table.now.rows ≤ 2 ^ 32 }
    ensures makes { IfOk result (λ r. (names : List NodeName) (of : ℕ → Operand) (number : ℕ) → AreRefs names of refs.now
        → Makes names nodes.old.items nodes.new.items r (table_made of number table.now)) }
    ensures few { IfOk result (λ r. length nodes.new.items ≤ length nodes.old.items + 2 * letters (length table.now.inputs) table.now.rows) }
    ensures operators { IfOk result (λ r. count_by is_operator nodes.new.items
        ≤ count_by is_operator nodes.old.items + letters (length table.now.inputs) table.now.rows) }
{
    put_row_parts(nodes, rows, items, refs, table)?;
    let part = join_all(nodes, Operator::Or, rows.as_slice())?;
    if table.on {
        Ok(part)
    } else {
        negate(nodes, part)
    }
}

/// The leaves by their numbers.
fn leaf_refs(alloc: Global, leaves: u32) -> Result<Vec<Ref>, OutOfMemory>
    ensures { IfOk result (λ v. v.items ≡ map Ref.Leaf (range_with_len 0 leaves)) }
{
    let mut refs = Vec::with_capacity(alloc, leaves as usize)?;
    for leaf in 0..leaves {
        refs.push(Ref::Leaf(leaf))?;
    }
    Ok(refs)
}

/// What the sinks of a network come to.
fn sink_refs(alloc: Global, network: &Network, refs: &[Ref]) -> Result<Vec<Ref>, OutOfMemory>
    requires outputs { All (λ signal. signal < length refs.now) network.now.outputs }
    requires latches { All (λ latch. latch.input < length refs.now) network.now.latches }
    ensures { IfOk result (λ v. v.items ≡ map (ref_at refs.now) (sink_signals network.now)) }
{
    let mut sinks = Vec::new(alloc);
    for output in network.outputs.iter() {
        sinks.push(refs[*output as usize])?;
    }
    for latch in network.latches.iter() {
        sinks.push(refs[latch.input as usize])?;
    }
    Ok(sinks)
}

/// The gates of a network: the And, Or and Not nodes of its tables in order, without constants, and
/// what its outputs and then its latch inputs come to. It fails only where it is out of memory.
pub fn decompose(alloc: Global, network: &Network) -> Result<Gates, OutOfMemory>
    ensures { IfOk result (λ gates. AreGatesOf network.now gates) }
{
    let leaves = network.inputs + network.latches.len() as u32;
    let mut refs = leaf_refs(alloc, leaves)?;
    refs.reserve(network.tables.len())?;
    let mut nodes = Vec::with_capacity(alloc, network.tables.len().saturating_mul(2))?;
    let mut rows = Vec::new(alloc);
    let mut items = Vec::with_capacity(alloc, MOST_LETTERS)?;
    for k in 0..network.tables.len() {
        let table = network.tables.table(k);
        let part = table_part(&mut nodes, &mut rows, &mut items, refs.as_slice(), &table)?;
        refs.push(part)?;
    }
    let sinks = sink_refs(alloc, network, refs.as_slice())?;
    Ok(Gates {
        leaves,
        nodes,
        sinks,
    })
}

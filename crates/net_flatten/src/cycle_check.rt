//! Whether a signal depends on itself through tables.
ghost use Rattle.std.specs.Prelude.{ℕ, List, All, IfOk, length};
ghost use Rattle.graph_order.specs.Orders.{IsGraph};
ghost use Rattle.model_calls.specs.declared.fault.FlatKind.TheVariants.{Cycle, DrivenTwice};
ghost use Rattle.part_numbers.specs.CheckOutcomes.{IsCheckOf};
ghost use Rattle.net_flatten.specs.Dependences.{AreDrivenOnce, AreTableLevels};
ghost use Rattle.net_flatten.specs.FoundFirst.{IsFoundFirst};
ghost use Rattle.net_flatten.specs.Levelled.{AreLevelled};
ghost use Rattle.net_flatten.specs.Loops.{IsOnLoop};
ghost use Rattle.part_numbers.specs.NumberedFaults.{IsPartWithin};
ghost use Rattle.part_numbers.specs.NumberedFiles.{HasNumbers};
ghost use Rattle.model_calls.specs.Refusals.{IsOfKind};

use crate::dependence::dependences;
use crate::levelling::find_levels;
use dom_base::OutOfMemory;
use graph_order::{Node, Order, circle_marks, put_in_order};
use model_calls::{FlatFault, FlatKind};
use part_numbers::{CardFile, NumberedFile, NumberedPart, PartCard, fault_at_output};
use std::alloc::Global;

/// The levels of all signals, or the index of the first table whose signal depends on itself.
#[derive(Drop)]
pub enum Levelled {
    Levels(Vec<usize>),
    Loop(usize),
}

/// The index of the first table whose signal depends on itself. It takes a time that is linear in the
/// graph and the parts. The one error is want of memory.
fn find_loop(
    alloc: Global,
    nodes: &[Node<'_>],
    parts: &[NumberedPart],
) -> Result<Option<usize>, OutOfMemory>
    requires graph { IsGraph nodes.now }
    requires within { All (IsPartWithin (length nodes.now)) parts.now }
    ensures { IfOk result (IsFoundFirst (IsOnLoop nodes.now) parts.now) }
{
    let marks = circle_marks(alloc, nodes)?;
    for index in 0..parts.len() {
        let part = &parts[index];
        if let PartCard::Table(_) = part.card {
            if marks[part.drives as usize] {
                return Ok(Some(index));
            }
        }
    }
    Ok(None)
}

/// The levels of all signals, or the index of the first table whose signal depends on itself. The one
/// error is want of memory.
fn find_levelled(
    alloc: Global,
    signals: u32,
    parts: &[NumberedPart],
) -> Result<Levelled, OutOfMemory>
    requires within { All (IsPartWithin signals) parts.now }
    requires once { AreDrivenOnce parts.now }
    ensures { IfOk result (AreLevelled signals parts.now) }
{
    let depend = dependences(alloc, signals, parts)?;
    let nodes = depend.as_slice();
    match put_in_order(alloc, nodes)? {
        Order::Of(order) => {
            let levels = find_levels(alloc, signals, parts, nodes, order.as_slice())?;
            Ok(Levelled::Levels(levels))
        }
        Order::Circular => match find_loop(alloc, nodes, parts)? {
            Some(index) => Ok(Levelled::Loop(index)),
            None => unreachable!(),
        },
    }
}

/// Looks for the first table whose signal depends on itself. It gives the levels of all signals.
pub fn check_cycles(
    alloc: Global,
    file: &CardFile<'_>,
    numbered: &NumberedFile<'_>,
) -> Result<Vec<usize>, FlatFault>
    requires numbers { HasNumbers file.now numbered.now }
    requires once { (line : ℕ) (name : List ℕ) → IsOfKind file.now DrivenTwice line name → ⊥ }
    ensures check { IsCheckOf file.now Cycle result }
    ensures levels { IfOk result (λ levels. AreTableLevels numbered.now.signals numbered.now.parts levels.items) }
{
    match find_levelled(alloc, numbered.signals, numbered.parts())? {
        Levelled::Levels(levels) => Ok(levels),
        Levelled::Loop(index) => Err(fault_at_output(
            alloc,
            FlatKind::Cycle,
            file,
            numbered,
            index,
        )),
    }
}

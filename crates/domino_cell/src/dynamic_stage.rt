//! The dynamic stage of a cell.
ghost use Rattle.std.specs.Prelude.{◌≡◌, ◌≤◌, ◌<◌, ◌+◌, IfOk, OnOk, Some, length, slice_get};
ghost use Rattle.deck.specs.CircuitGrowth.{Grew};
ghost use Rattle.deck.specs.Limits.{most_devices};
ghost use Rattle.deck.specs.NamedDevices.{with_devices};
ghost use Rattle.deck.specs.NetsAt.{StandsAt};
ghost use Rattle.sp_network.specs.Tree.{EachLeaf, inner_count, leaves};
ghost use Rattle.sp_network.specs.TypedTree.{tree_of};
ghost use Rattle.domino_cell.specs.HeldNames.{AreNetsOfCell, StandInCircuit, held_nets};
ghost use Rattle.domino_cell.specs.NamedTrees.{AreInnerNames, named_tree};
ghost use Rattle.domino_cell.specs.NetsAt.{AreNumbersAt};
ghost use Rattle.domino_cell.specs.StyledCells.{behind_count, styled_stage};

use crate::Style;
use crate::names::{CellNames, CellNetsAt};
use crate::precharge::push_behind_precharge;
use crate::tree::{TreeNames, inner_names};
use deck::{Circuit, push_held};
use dom_base::{Kind, NetName, OutOfMemory, ToVss};
use sp_network::Sp;
use std::alloc::Global;

/// Appends the dynamic stage of a cell with this tree, where its nets stand at the numbers that are held for them:
/// precharge, keeper or the precharge of each inner net, tree and foot. Gate by gate `names` has the net that gates it, and
/// `numbers` the number at which this net stands in the circuit where one is held; it takes the one at which the net
/// stands then. Gives the number of the dynamic net, and the one at which the output stands, where it is known. The one
/// error is out of memory, and then some of the devices may stand at the end.
pub fn push_stage(
    alloc: Global,
    circuit: &mut Circuit,
    style: Style,
    tree: &Sp<ToVss>,
    names: &[NetName],
    nets: &CellNames,
    cell: CellNetsAt<'_>,
    numbers: &mut [Option<u32>],
) -> Result<(u32, Option<u32>), OutOfMemory>
    requires named { AreNetsOfCell nets.now cell }
    requires stand { StandInCircuit circuit.old.nets cell }
    requires gates { EachLeaf (λ gate. gate < length names.now) (tree_of tree.now) }
    requires room { length circuit.old.devices + leaves (tree_of tree.now) + behind_count style (inner_count (tree_of tree.now)) + 2 ≤ most_devices }
    requires numbers { AreNumbersAt circuit.old.nets names.now numbers.old }
    ensures devices { OnOk result (circuit.new
        ≡ with_devices circuit.old (styled_stage style (held_nets nets.now) (named_tree names.now (tree_of tree.now)))) }
    ensures count { OnOk result (length circuit.new.devices
        ≡ length circuit.old.devices + leaves (tree_of tree.now) + behind_count style (inner_count (tree_of tree.now)) + 2) }
    ensures dynamic { IfOk result (λ p. slice_get circuit.new.nets p.0 ≡ Some nets.now.dynamic) }
    ensures output { IfOk result (λ p. StandsAt circuit.new.nets p.1 nets.now.output) }
    ensures numbers { OnOk result (AreNumbersAt circuit.new.nets names.now numbers.new) }
    ensures grew { Grew circuit.old circuit.new }
{
    let inner = inner_names(alloc, nets.front.as_bytes(), tree)?;
    push_named_stage(circuit, style, tree, names, nets, &inner, cell, numbers)
}

/// Appends the dynamic stage of a cell as `push_stage` does, where `inner` has the names of its inner nets. After a
/// refusal some of its devices may stand at the end.
fn push_named_stage(
    circuit: &mut Circuit,
    style: Style,
    tree: &Sp<ToVss>,
    names: &[NetName],
    nets: &CellNames,
    inner: &[NetName],
    cell: CellNetsAt<'_>,
    numbers: &mut [Option<u32>],
) -> Result<(u32, Option<u32>), OutOfMemory>
    requires named { AreNetsOfCell nets.now cell }
    requires stand { StandInCircuit circuit.old.nets cell }
    requires gates { EachLeaf (λ gate. gate < length names.now) (tree_of tree.now) }
    requires room { length circuit.old.devices + leaves (tree_of tree.now) + behind_count style (inner_count (tree_of tree.now)) + 2 ≤ most_devices }
    requires numbers { AreNumbersAt circuit.old.nets names.now numbers.old }
    requires inner { AreInnerNames nets.now.front inner.now }
    requires inner_count { length inner.now ≡ inner_count (tree_of tree.now) }
    ensures devices { OnOk result (circuit.new
        ≡ with_devices circuit.old (styled_stage style (held_nets nets.now) (named_tree names.now (tree_of tree.now)))) }
    ensures count { OnOk result (length circuit.new.devices
        ≡ length circuit.old.devices + leaves (tree_of tree.now) + behind_count style (inner_count (tree_of tree.now)) + 2) }
    ensures dynamic { IfOk result (λ p. slice_get circuit.new.nets p.0 ≡ Some nets.now.dynamic) }
    ensures output { IfOk result (λ p. StandsAt circuit.new.nets p.1 nets.now.output) }
    ensures numbers { OnOk result (AreNumbersAt circuit.new.nets names.now numbers.new) }
    ensures grew { Grew circuit.old circuit.new }
{
    let precharge = push_held(circuit, Kind::P, cell.dynamic, cell.clock, cell.vdd)?;
    let first = first_inner(circuit, style);
    let of_tree = TreeNames {
        gates: names,
        inner,
        first,
    };
    let dynamic = cell.dynamic.at(precharge.drain);
    let held = push_behind_precharge(circuit, style, nets, inner, cell, dynamic)?;
    let (_, number) = of_tree.push(circuit, tree, dynamic, cell.foot, 0, numbers)?;
    let foot = cell.foot.at(number);
    push_held(circuit, Kind::N, foot, cell.clock, cell.vss)?;
    Ok((precharge.drain, held))
}

/// The number that the first inner net of a cell takes behind its precharge, where all inner nets follow one another.
fn first_inner(circuit: &Circuit, style: Style) -> Option<u32> {
    match style {
        Style::Keeper => None,
        Style::Precharge => u32::try_from(circuit.nets.len()).ok(),
    }
}

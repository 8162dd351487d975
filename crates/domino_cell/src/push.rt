//! Calls that append the devices of a cell or a static gate.
ghost use Rattle.std.specs.Prelude.{◌≡◌, ◌≤◌, ◌<◌, ◌+◌, ◌*◌, OnErr, OnOk, length};
ghost use Rattle.deck.specs.CircuitGrowth.{Grew};
ghost use Rattle.deck.specs.Limits.{most_devices};
ghost use Rattle.deck.specs.NamedDevices.{with_devices};
ghost use Rattle.deck.specs.Nets.{IsCircuit};
ghost use Rattle.deck.specs.NetsAt.{StandsAt};
ghost use Rattle.sp_network.specs.Tree.{EachLeaf, dual, leaves};
ghost use Rattle.sp_network.specs.TypedTree.{tree_of};
ghost use Rattle.domino_cell.specs.HeldNames.{AreNamesOfCell, AreNamesOfGate, held_nets};
ghost use Rattle.domino_cell.specs.NamedTrees.{inner_net, named_tree};
ghost use Rattle.domino_cell.specs.NetsAt.{AreNumbersAt};
ghost use Rattle.domino_cell.specs.PushedNames.{HasRoomForCell, HasRoomForGate, numbered_cell, static_gate};
ghost use Rattle.domino_cell.specs.PushedPaths.{HoldsCell, IsDrivenByTree, JoinsWhereOne, MayJoinWhereNotZero};
ghost use Rattle.domino_cell.specs.Spelling.{spell};
ghost use Rattle.domino_cell.specs.StyledCells.{around_tree, styled_cell};

use crate::Style;
use crate::dynamic_stage::push_stage;
use crate::inverter::push_inverter;
use crate::names::{CellNames, GateNames};
use crate::numbers::keep_number;
use crate::tree::{TreeNames, inner_names};
use deck::{Circuit, NetAt};
use dom_base::{NetName, OutOfMemory, Polarity, ToVdd, ToVss};
use sp_network::{GatePlan, Sp};
use std::alloc::Global;

/// Appends the devices of domino cell `k` of this style, on the clock of its plan: precharge, keeper or the precharge
/// of each inner net, tree, foot and inverter. Gate by gate `names` has the net that gates it. Between the dynamic net `dK` and the
/// foot net `fK` there is then, at all values of the nets, a definite strong path exactly where the
/// tree conducts, and a possible one exactly where it may. The one error is out of memory, and it
/// leaves the circuit as it was.
#[tactic(auto, using(crate::proofs::NetsAt::no_numbers))]
pub fn push_domino(
    alloc: Global,
    circuit: &mut Circuit,
    plan: &GatePlan,
    names: &[NetName],
    k: u32,
    style: Style,
) -> Result<(), OutOfMemory>
    requires nets { HasRoomForCell circuit.old (numbered_cell plan.now.clock k) }
    requires gates { EachLeaf (λ gate. gate < length names.now) (tree_of plan.now.tree) }
    requires room { length circuit.old.devices + leaves (tree_of plan.now.tree) + around_tree style (tree_of plan.now.tree) ≤ most_devices }
    ensures devices { OnOk result (circuit.new
        ≡ with_devices circuit.old (styled_cell style (numbered_cell plan.now.clock k) (named_tree names.now (tree_of plan.now.tree)))) }
    ensures holds { OnOk result (HoldsCell style circuit.new (numbered_cell plan.now.clock k) (named_tree names.now (tree_of plan.now.tree))) }
    ensures definite { OnOk result (JoinsWhereOne circuit.new
        (numbered_cell plan.now.clock k).dynamic (numbered_cell plan.now.clock k).foot (named_tree names.now (tree_of plan.now.tree))) }
    ensures possible { OnOk result (MayJoinWhereNotZero circuit.new
        (numbered_cell plan.now.clock k).dynamic (numbered_cell plan.now.clock k).foot (named_tree names.now (tree_of plan.now.tree))) }
    ensures refused { OnErr result (circuit.new ≡ circuit.old) }
{
    let nets = CellNames::new(alloc, plan.clock, k)?;
    let mut numbers = Vec::new(alloc);
    push_numbered_domino(
        alloc,
        circuit,
        plan,
        names,
        k,
        style,
        0,
        &nets,
        numbers.as_mut_slice(),
    )
}

/// Appends the devices of domino cell `k` as `push_domino` does, where `nets` has the names of its nets,
/// and its output may be the net of `gate`. Gate by gate `numbers` has the number at which its net stands in the
/// circuit where one is held, and takes the one at which it stands then. The one error is out of memory, and it
/// leaves the circuit as it was.
pub fn push_numbered_domino(
    alloc: Global,
    circuit: &mut Circuit,
    plan: &GatePlan,
    names: &[NetName],
    k: u32,
    style: Style,
    gate: usize,
    nets: &CellNames,
    numbers: &mut [Option<u32>],
) -> Result<(), OutOfMemory>
    requires named { AreNamesOfCell plan.now.clock k nets.now }
    requires gates { EachLeaf (λ gate. gate < length names.now) (tree_of plan.now.tree) }
    requires room { length circuit.old.devices + leaves (tree_of plan.now.tree) + around_tree style (tree_of plan.now.tree) ≤ most_devices }
    requires numbers { AreNumbersAt circuit.old.nets names.now numbers.old }
    ensures devices { OnOk result (circuit.new
        ≡ with_devices circuit.old (styled_cell style (numbered_cell plan.now.clock k) (named_tree names.now (tree_of plan.now.tree)))) }
    ensures numbers { OnOk result (AreNumbersAt circuit.new.nets names.now numbers.new) }
    ensures refused { OnErr result (circuit.new ≡ circuit.old) }
    ensures whole { IsCircuit circuit.old.ports circuit.old.nets circuit.old.devices }
{
    let before = circuit.device_count();
    match push_cell(alloc, circuit, plan, names, style, gate, nets, numbers) {
        Ok(()) => Ok(()),
        Err(failed) => {
            circuit.cut(before);
            Err(failed)
        }
    }
}

/// Appends the devices of a domino cell. After a refusal some of them may stand at the end.
fn push_cell(
    alloc: Global,
    circuit: &mut Circuit,
    plan: &GatePlan,
    names: &[NetName],
    style: Style,
    gate: usize,
    nets: &CellNames,
    numbers: &mut [Option<u32>],
) -> Result<(), OutOfMemory>
    requires gates { EachLeaf (λ gate. gate < length names.now) (tree_of plan.now.tree) }
    requires room { length circuit.old.devices + leaves (tree_of plan.now.tree) + around_tree style (tree_of plan.now.tree) ≤ most_devices }
    requires numbers { AreNumbersAt circuit.old.nets names.now numbers.old }
    ensures devices { OnOk result (circuit.new
        ≡ with_devices circuit.old (styled_cell style (held_nets nets.now) (named_tree names.now (tree_of plan.now.tree)))) }
    ensures numbers { OnOk result (AreNumbersAt circuit.new.nets names.now numbers.new) }
    ensures grew { Grew circuit.old circuit.new }
{
    let cell = nets.nets_at(circuit, plan.clock);
    let tree = &plan.tree;
    let (number, held) = push_stage(alloc, circuit, style, tree, names, nets, cell, numbers)?;
    let dynamic = cell.dynamic.at(number);
    let output = NetAt {
        name: &nets.output,
        number: held,
    };
    let last = push_inverter(circuit, dynamic, output, cell.vdd, cell.vss)?;
    keep_number(numbers, names, gate, &nets.output, last.drain);
    Ok(())
}

/// Appends a static gate with the output `out`: the dual of its tree from `out` to `vdd`, then the
/// tree from `out` to `vss`. Gate by gate `names` has the net that gates it. Where the values of
/// these nets are known, a definite strong path joins `out` to one supply, and no possible one joins
/// it to the other: to `vss` where the tree conducts. The one error is out of memory, and it leaves
/// the circuit as it was.
pub fn push_static(
    alloc: Global,
    circuit: &mut Circuit,
    tree: &Sp<ToVss>,
    names: &[NetName],
    out: &NetName,
) -> Result<(), OutOfMemory>
    requires nets { HasRoomForGate circuit.old out.now }
    requires gates { EachLeaf (λ gate. gate < length names.now) (tree_of tree.now) }
    requires room { length circuit.old.devices + 2 * leaves (tree_of tree.now) ≤ most_devices }
    ensures devices { OnOk result (circuit.new
        ≡ with_devices circuit.old (static_gate out.now (named_tree names.now (tree_of tree.now)))) }
    ensures driven { OnOk result (IsDrivenByTree circuit.new out.now (named_tree names.now (tree_of tree.now))) }
    ensures refused { OnErr result (circuit.new ≡ circuit.old) }
{
    let dual = tree.dual(alloc)?;
    let nets = GateNames::new(alloc, out)?;
    push_whole_gate(alloc, circuit, tree, &dual, names, &nets, out)
}

/// Appends the devices of a static gate, given the dual of its tree. The one error is out of memory, and it leaves the
/// circuit as it was.
fn push_whole_gate(
    alloc: Global,
    circuit: &mut Circuit,
    tree: &Sp<ToVss>,
    upper: &Sp<ToVdd>,
    names: &[NetName],
    nets: &GateNames,
    out: &NetName,
) -> Result<(), OutOfMemory>
    requires upper { tree_of upper.now ≡ dual (tree_of tree.now) }
    requires named { AreNamesOfGate out.now nets.now }
    requires gates { EachLeaf (λ gate. gate < length names.now) (tree_of tree.now) }
    requires room { length circuit.old.devices + 2 * leaves (tree_of tree.now) ≤ most_devices }
    ensures devices { OnOk result (circuit.new
        ≡ with_devices circuit.old (static_gate out.now (named_tree names.now (tree_of tree.now)))) }
    ensures refused { OnErr result (circuit.new ≡ circuit.old) }
    ensures whole { IsCircuit circuit.old.ports circuit.old.nets circuit.old.devices }
{
    let before = circuit.device_count();
    match push_gate(alloc, circuit, tree, upper, names, nets, out) {
        Ok(()) => Ok(()),
        Err(failed) => {
            circuit.cut(before);
            Err(failed)
        }
    }
}

/// Appends the devices of a static gate, given the dual of its tree. After a refusal some of them
/// may stand at the end.
fn push_gate(
    alloc: Global,
    circuit: &mut Circuit,
    tree: &Sp<ToVss>,
    upper: &Sp<ToVdd>,
    names: &[NetName],
    nets: &GateNames,
    out: &NetName,
) -> Result<(), OutOfMemory>
    requires upper { tree_of upper.now ≡ dual (tree_of tree.now) }
    requires named { AreNamesOfGate out.now nets.now }
    requires gates { EachLeaf (λ gate. gate < length names.now) (tree_of tree.now) }
    requires room { length circuit.old.devices + 2 * leaves (tree_of tree.now) ≤ most_devices }
    ensures devices { OnOk result (circuit.new
        ≡ with_devices circuit.old (static_gate out.now (named_tree names.now (tree_of tree.now)))) }
    ensures grew { Grew circuit.old circuit.new }
{
    let out = NetAt::named(out);
    let vdd = NetAt::named(&nets.vdd);
    push_part(alloc, circuit, upper, names, &nets.upper, out, vdd)?;
    let vss = NetAt::named(&nets.vss);
    push_part(alloc, circuit, tree, names, &nets.lower, out, vss)
}

/// Appends the devices of one tree of a static gate between these nets, where the names of its inner nets begin so. After a
/// refusal some of them may stand at the end.
#[tactic(auto, using(crate::proofs::NetsAt::no_numbers))]
fn push_part<S: Polarity>(
    alloc: Global,
    circuit: &mut Circuit,
    tree: &Sp<S>,
    names: &[NetName],
    front: &NetName,
    top: NetAt<'_>,
    bottom: NetAt<'_>,
) -> Result<(), OutOfMemory>
    requires gates { EachLeaf (λ gate. gate < length names.now) (tree_of tree.now) }
    requires room { length circuit.old.devices + leaves (tree_of tree.now) ≤ most_devices }
    requires top { StandsAt circuit.old.nets top.number top.name.now }
    requires bottom { StandsAt circuit.old.nets bottom.number bottom.name.now }
    ensures devices { OnOk result (circuit.new ≡ with_devices circuit.old
        (spell S.KIND (inner_net front.now) (named_tree names.now (tree_of tree.now)) top.entry.name.now bottom.entry.name.now 0)) }
    ensures count { OnOk result (length circuit.new.devices ≡ length circuit.old.devices + leaves (tree_of tree.now)) }
    ensures grew { Grew circuit.old circuit.new }
{
    let inner = inner_names(alloc, front.as_bytes(), tree)?;
    let of_tree = TreeNames {
        gates: names,
        inner: &inner,
        first: None,
    };
    let mut numbers = Vec::new(alloc);
    let numbers = numbers.as_mut_slice();
    of_tree.push(circuit, tree, top, bottom, 0, numbers)?;
    Ok(())
}

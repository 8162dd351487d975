//! The call that appends the devices of a simple or a compound cell.
ghost use Rattle.std.specs.Prelude.{◌≡◌, ◌≤◌, ◌<◌, ◌+◌, ◌++◌, IfOk, OnErr, OnOk, codes, length};
ghost use Rattle.std.specs.Fmt.{decimal};
ghost use Rattle.deck.specs.CircuitGrowth.{Grew};
ghost use Rattle.deck.specs.Limits.{most_devices};
ghost use Rattle.deck.specs.NamedDevices.{with_devices};
ghost use Rattle.deck.specs.Nets.{IsCircuit, net_name};
ghost use Rattle.sp_network.specs.Tree.{EachLeaf, Leaf, Series, inner_count, leaves};
ghost use Rattle.sp_network.specs.TypedTree.{tree_of};
ghost use Rattle.domino_cell.specs.HeldNames.{AreNamesOfCell, held_nets};
ghost use Rattle.domino_cell.specs.NamedTrees.{named_tree};
ghost use Rattle.domino_cell.specs.PushedNames.{HasRoomForGate, static_gate};
ghost use Rattle.domino_cell.specs.PushedPaths.{HoldsStage, IsDrivenByTree, JoinsWhereOne, MayJoinWhereNotZero};
ghost use Rattle.domino_cell.specs.StyledCells.{styled_stage};
ghost use Rattle.domino_cell.specs.declared.style.Style.TheVariants.{Precharge as WithPrecharge};
ghost use Rattle.compound_plan.specs.CellPlans.{clock_of, trees_of};
ghost use Rattle.compound_plan.specs.Plans.{Compound, cell_cost, compound_costs};
ghost use Rattle.compound_cell.specs.CompoundCells.{dynamic_names, named_cell, right_cell, whole_tree};
ghost use Rattle.compound_cell.specs.PushedCells.{EachStage, HasRoomForTrees, IsDrivenCell, output_name};

use crate::right_names::right_names;
use compound_plan::CellPlan;
use deck::{Circuit, numbered_name};
use dom_base::{NetName, OutOfMemory, ToVss};
use domino_cell::{CellNames, Style, push_domino, push_stage, push_static};
use sp_network::Sp;
use std::alloc::Global;

/// Appends the devices of cell `k`, on the clock of its plan: those of a simple cell with precharged inner nets, or of a
/// compound cell the left dynamic stage, the right one, and the static gate of both dynamic nets. Gate by gate `names` has
/// the net that gates it. Between the dynamic net and the foot net of each stage there is then, at all values of the nets, a
/// definite strong path exactly where its tree conducts, and a possible one exactly where it may. Where the values of both
/// dynamic nets are known, one supply alone drives the output of a compound cell: `vss` where both are 1. The one error is
/// out of memory, and it leaves the circuit as it was.
pub fn push_compound(
    alloc: Global,
    circuit: &mut Circuit,
    plan: &CellPlan,
    names: &[NetName],
    k: u32,
) -> Result<(), OutOfMemory>
    requires nets { HasRoomForTrees circuit.old (clock_of plan.now) k (trees_of plan.now) }
    requires gates { EachLeaf (λ gate. gate < length names.now) (whole_tree (trees_of plan.now)) }
    requires room { length circuit.old.devices + cell_cost compound_costs (trees_of plan.now) ≤ most_devices }
    ensures devices { OnOk result (circuit.new
        ≡ with_devices circuit.old (named_cell (net_name names.now) (clock_of plan.now) k (trees_of plan.now))) }
    ensures stages { OnOk result (EachStage (λ nets tree. HoldsStage WithPrecharge circuit.new nets tree)
        (net_name names.now) (clock_of plan.now) k (trees_of plan.now)) }
    ensures definite { OnOk result (EachStage (λ nets tree. JoinsWhereOne circuit.new nets.dynamic nets.foot tree)
        (net_name names.now) (clock_of plan.now) k (trees_of plan.now)) }
    ensures possible { OnOk result (EachStage (λ nets tree. MayJoinWhereNotZero circuit.new nets.dynamic nets.foot tree)
        (net_name names.now) (clock_of plan.now) k (trees_of plan.now)) }
    ensures driven { OnOk result (IsDrivenCell circuit.new (net_name names.now) (clock_of plan.now) k (trees_of plan.now)) }
    ensures refused { OnErr result (circuit.new ≡ circuit.old) }
{
    match plan {
        CellPlan::Simple(simple) => {
            push_domino(alloc, circuit, simple, names, k, Style::Precharge)
        }
        CellPlan::Compound { left, right, clock } => {
            push_two_sides(alloc, circuit, left, right, *clock, names, k)
        }
    }
}

/// Appends the devices of compound cell `k`. The one error is out of memory, and it leaves the circuit as it was.
fn push_two_sides(
    alloc: Global,
    circuit: &mut Circuit,
    left: &Sp<ToVss>,
    right: &Sp<ToVss>,
    clock: u8,
    names: &[NetName],
    k: u32,
) -> Result<(), OutOfMemory>
    requires nets { HasRoomForTrees circuit.old clock k (Compound (tree_of left.now) (tree_of right.now)) }
    requires left { EachLeaf (λ gate. gate < length names.now) (tree_of left.now) }
    requires right { EachLeaf (λ gate. gate < length names.now) (tree_of right.now) }
    requires room { length circuit.old.devices + leaves (tree_of left.now) + inner_count (tree_of left.now)
        + leaves (tree_of right.now) + inner_count (tree_of right.now) + 8 ≤ most_devices }
    ensures devices { OnOk result (circuit.new
        ≡ with_devices circuit.old (named_cell (net_name names.now) clock k (Compound (tree_of left.now) (tree_of right.now)))) }
    ensures stages { OnOk result (EachStage (λ nets tree. HoldsStage WithPrecharge circuit.new nets tree)
        (net_name names.now) clock k (Compound (tree_of left.now) (tree_of right.now))) }
    ensures definite { OnOk result (EachStage (λ nets tree. JoinsWhereOne circuit.new nets.dynamic nets.foot tree)
        (net_name names.now) clock k (Compound (tree_of left.now) (tree_of right.now))) }
    ensures possible { OnOk result (EachStage (λ nets tree. MayJoinWhereNotZero circuit.new nets.dynamic nets.foot tree)
        (net_name names.now) clock k (Compound (tree_of left.now) (tree_of right.now))) }
    ensures driven { OnOk result (IsDrivenByTree circuit.new (output_name k)
        (dynamic_names k (Compound (tree_of left.now) (tree_of right.now)))) }
    ensures refused { OnErr result (circuit.new ≡ circuit.old) }
{
    let before = circuit.device_count();
    match push_pair(alloc, circuit, left, right, clock, names, k) {
        Ok(()) => Ok(()),
        Err(failed) => {
            circuit.cut(before);
            Err(failed)
        }
    }
}

/// Appends the devices of compound cell `k`. After a refusal some of them may stand at the end.
fn push_pair(
    alloc: Global,
    circuit: &mut Circuit,
    left: &Sp<ToVss>,
    right: &Sp<ToVss>,
    clock: u8,
    names: &[NetName],
    k: u32,
) -> Result<(), OutOfMemory>
    requires whole { IsCircuit circuit.old.ports circuit.old.nets circuit.old.devices }
    requires nets { HasRoomForTrees circuit.old clock k (Compound (tree_of left.now) (tree_of right.now)) }
    requires left { EachLeaf (λ gate. gate < length names.now) (tree_of left.now) }
    requires right { EachLeaf (λ gate. gate < length names.now) (tree_of right.now) }
    requires room { length circuit.old.devices + leaves (tree_of left.now) + inner_count (tree_of left.now)
        + leaves (tree_of right.now) + inner_count (tree_of right.now) + 8 ≤ most_devices }
    ensures devices { OnOk result (circuit.new
        ≡ with_devices circuit.old (named_cell (net_name names.now) clock k (Compound (tree_of left.now) (tree_of right.now)))) }
    ensures driven { OnOk result (IsDrivenByTree circuit.new (output_name k)
        (dynamic_names k (Compound (tree_of left.now) (tree_of right.now)))) }
    ensures grew { Grew circuit.old circuit.new }
{
    let nets = CellNames::new(alloc, clock, k)?;
    push_parts(alloc, circuit, left, right, clock, names, k, &nets)
}

/// Appends the devices of compound cell `k`, where `nets` has the names of the nets of its left side. After a refusal
/// some of them may stand at the end.
fn push_parts(
    alloc: Global,
    circuit: &mut Circuit,
    left: &Sp<ToVss>,
    right: &Sp<ToVss>,
    clock: u8,
    names: &[NetName],
    k: u32,
    nets: &CellNames,
) -> Result<(), OutOfMemory>
    requires named { AreNamesOfCell clock k nets.now }
    requires whole { IsCircuit circuit.old.ports circuit.old.nets circuit.old.devices }
    requires nets { HasRoomForTrees circuit.old clock k (Compound (tree_of left.now) (tree_of right.now)) }
    requires left { EachLeaf (λ gate. gate < length names.now) (tree_of left.now) }
    requires right { EachLeaf (λ gate. gate < length names.now) (tree_of right.now) }
    requires room { length circuit.old.devices + leaves (tree_of left.now) + inner_count (tree_of left.now)
        + leaves (tree_of right.now) + inner_count (tree_of right.now) + 8 ≤ most_devices }
    ensures devices { OnOk result (circuit.new
        ≡ with_devices circuit.old (named_cell (net_name names.now) clock k (Compound (tree_of left.now) (tree_of right.now)))) }
    ensures driven { OnOk result (IsDrivenByTree circuit.new (output_name k)
        (dynamic_names k (Compound (tree_of left.now) (tree_of right.now)))) }
    ensures grew { Grew circuit.old circuit.new }
{
    push_side(alloc, circuit, left, clock, names, nets)?;
    push_right_side(alloc, circuit, right, clock, names, k)?;
    push_output(alloc, circuit, &nets.output, k)
}

/// Appends the dynamic stage of the right side of cell `k`. After a refusal some of its devices may stand at the end.
fn push_right_side(
    alloc: Global,
    circuit: &mut Circuit,
    tree: &Sp<ToVss>,
    clock: u8,
    names: &[NetName],
    k: u32,
) -> Result<(), OutOfMemory>
    requires gates { EachLeaf (λ gate. gate < length names.now) (tree_of tree.now) }
    requires room { length circuit.old.devices + leaves (tree_of tree.now) + inner_count (tree_of tree.now) + 2 ≤ most_devices }
    ensures devices { OnOk result (circuit.new
        ≡ with_devices circuit.old (styled_stage WithPrecharge (right_cell clock k) (named_tree names.now (tree_of tree.now)))) }
    ensures count { OnOk result (length circuit.new.devices
        ≡ length circuit.old.devices + leaves (tree_of tree.now) + inner_count (tree_of tree.now) + 2) }
    ensures grew { Grew circuit.old circuit.new }
{
    let nets = right_names(alloc, clock, k)?;
    push_side(alloc, circuit, tree, clock, names, &nets)
}

/// Appends the static gate of both dynamic nets of cell `k`, whose output is `out`. After a refusal none of its devices
/// stands at the end.
fn push_output(
    alloc: Global,
    circuit: &mut Circuit,
    out: &NetName,
    k: u32,
) -> Result<(), OutOfMemory>
    requires out { out.now ≡ output_name k }
    requires nets { HasRoomForGate circuit.old (output_name k) }
    requires room { length circuit.old.devices + 4 ≤ most_devices }
    ensures devices { OnOk result (circuit.new ≡ with_devices circuit.old
        (static_gate (output_name k) (Series (Leaf (codes "d" ++ decimal k)) (Leaf (codes "e" ++ decimal k))))) }
    ensures driven { OnOk result (IsDrivenByTree circuit.new (output_name k)
        (Series (Leaf (codes "d" ++ decimal k)) (Leaf (codes "e" ++ decimal k)))) }
    ensures grew { Grew circuit.old circuit.new }
{
    let gate = series_of_two(alloc)?;
    let first = numbered_name(alloc, b"d", k)?;
    let second = numbered_name(alloc, b"e", k)?;
    let dynamics = [first, second];
    push_static(alloc, circuit, &gate, &dynamics, out)?;
    Ok(())
}

/// Appends the dynamic stage of a side. After a refusal some of its devices may stand at the end.
#[tactic(auto, using(domino_cell::proofs::NetsAt::no_numbers))]
fn push_side(
    alloc: Global,
    circuit: &mut Circuit,
    tree: &Sp<ToVss>,
    clock: u8,
    names: &[NetName],
    nets: &CellNames,
) -> Result<(), OutOfMemory>
    requires gates { EachLeaf (λ gate. gate < length names.now) (tree_of tree.now) }
    requires room { length circuit.old.devices + leaves (tree_of tree.now) + inner_count (tree_of tree.now) + 2 ≤ most_devices }
    ensures devices { OnOk result (circuit.new
        ≡ with_devices circuit.old (styled_stage WithPrecharge (held_nets nets.now) (named_tree names.now (tree_of tree.now)))) }
    ensures count { OnOk result (length circuit.new.devices
        ≡ length circuit.old.devices + leaves (tree_of tree.now) + inner_count (tree_of tree.now) + 2) }
    ensures grew { Grew circuit.old circuit.new }
{
    let cell = nets.nets_at(circuit, clock);
    let mut numbers = Vec::new(alloc);
    let numbers = numbers.as_mut_slice();
    push_stage(
        alloc,
        circuit,
        Style::Precharge,
        tree,
        names,
        nets,
        cell,
        numbers,
    )?;
    Ok(())
}

/// Two leaves in series towards ground, with the gates 0 and 1. The one error is out of memory.
pub fn series_of_two(alloc: Global) -> Result<Sp<ToVss>, OutOfMemory>
    ensures { IfOk result (λ tree. tree_of tree ≡ Series (Leaf 0) (Leaf 1)) }
{
    let first = Sp::Leaf {
        gate: 0,
        rail: ToVss,
    };
    let second = Sp::Leaf {
        gate: 1,
        rail: ToVss,
    };
    Ok(Sp::Series(Box::new(alloc, first)?, Box::new(alloc, second)?))
}

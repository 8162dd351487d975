//! The circuit of a network with simple and compound cells.
ghost use Rattle.std.specs.Prelude.{◌≡◌, ◌≤◌, ◌+◌, All, Bool, IfOk, filter, length, map, ℕ};
ghost use Rattle.std.specs.List.{range_with_len};
ghost use Rattle.gate_decompose.specs.GateNodes.{AreGatesOf};
ghost use Rattle.gate_decompose.specs.GatesData.{GatesData};
ghost use Rattle.gate_decompose.specs.Sinks.{leaf_count};
ghost use Rattle.phase_assign.specs.Signs.{AreChosen};
ghost use Rattle.dual_rail.specs.Forests.{IsForestOf};
ghost use Rattle.dual_rail.specs.Uses.{IsEndThere};
ghost use Rattle.synth_flow.specs.SinkParts.{end_in};
ghost use Rattle.compound_law.specs.CompoundDecks.{IsChosenDeck};
ghost use Rattle.compound_law.specs.Laws.{AreByteNames};
ghost use Rattle.compound_flow.specs.MadeCells.{AreCompoundPlans, plain_cells};
ghost use Rattle.compound_flow.specs.MadeDecks.{compound_circuit};

use crate::clocked::{ClockedCells, clocked_cells};
use crate::groups::push_deck;
use compound_plan::CellPlan;
use deck::Circuit;
use dom_base::OutOfMemory;
use dual_rail::{End, Forest};
use network::Network;
use std::alloc::Global;
use synth_flow::{BareDeck, ChosenForest, bare_deck, chosen_forest};
use tree_map::Bounds;

/// The circuit of a network with these signs, plans of cells, leaves whose complements are named, ends of sinks and
/// numbers of cells. The one error is out of memory.
fn deck_of(
    alloc: Global,
    network: &Network,
    phases: u8,
    signs: &[bool],
    plans: &[CellPlan],
    complements: &[u32],
    ends: &[End],
    cells: &[u32],
) -> Result<Circuit, OutOfMemory>
    requires some_phase { 1 ≤ phases }
    requires few_phases { phases ≤ 4 }
    requires signs { length signs.now ≡ length network.now.outputs + length network.now.latches }
    requires plans { AreCompoundPlans (leaf_count network.now) plans.now }
    requires clocks { All (λ cell. (1 ≤ cell.1) × (cell.1 ≤ phases)) (plain_cells plans.now) }
    requires complements { (test : ℕ → Bool) × (complements.now ≡ filter test (range_with_len 0 (leaf_count network.now))) }
    requires ends { All (IsEndThere (length cells.now)) ends.now }
    requires one_end { length ends.now ≡ length network.now.outputs + length network.now.latches }
    ensures deck { IfOk result (λ circuit. circuit
        ≡ compound_circuit network.now phases signs.now (plain_cells plans.now) complements.now (map (end_in cells.now) ends.now)) }
    ensures names { IfOk result (λ _. AreByteNames network.now.names) }
{
    let BareDeck {
        circuit,
        pins,
        sinks,
    } = bare_deck(alloc, network, phases, signs)?;
    let mut circuit = circuit;
    push_deck(
        alloc,
        &mut circuit,
        pins.as_slice(),
        sinks.as_slice(),
        network.latches.as_slice(),
        plans,
        complements,
        ends,
        cells,
    )?;
    Ok(circuit)
}

/// The circuit of a network under signs with compound cells, where this is the forest of its gates under them.
fn deck_of_forest(
    alloc: Global,
    network: &Network,
    signs: &[bool],
    forest: &Forest,
    bounds: Bounds,
    phases: u8,
) -> Result<Circuit, OutOfMemory>
    requires some_width { 2 ≤ bounds.w }
    requires few_wide { bounds.w ≤ 8 }
    requires some_height { 2 ≤ bounds.h }
    requires few_high { bounds.h ≤ 6 }
    requires some_phase { 1 ≤ phases }
    requires few_phases { phases ≤ 4 }
    requires forest { (gates : GatesData) × AreGatesOf network.now gates × IsForestOf gates signs.now forest.now }
    ensures deck { IfOk result (λ circuit. (gates : GatesData) → AreGatesOf network.now gates → AreChosen gates signs.now
        → IsForestOf gates signs.now forest.now → IsChosenDeck network.now bounds.w bounds.h phases circuit) }
    ensures names { IfOk result (λ _. AreByteNames network.now.names) }
{
    let ClockedCells {
        cells,
        plans,
        complements,
    } = clocked_cells(alloc, forest, bounds, phases)?;
    let circuit = deck_of(
        alloc,
        network,
        phases,
        signs,
        plans.as_slice(),
        complements.as_slice(),
        forest.ends.as_slice(),
        cells.as_slice(),
    )?;
    Ok(circuit)
}

/// The circuit of a network with simple and compound cells, whose inner nets are precharged: a domino deck of the
/// chosen signs of its sinks and the chosen cover with compound roots, each of whose trees is within the bounds, on
/// so many clocks. The one error is out of memory.
pub fn synth_compound(
    alloc: Global,
    network: &Network,
    bounds: Bounds,
    phases: u8,
) -> Result<Circuit, OutOfMemory>
    requires some_width { 2 ≤ bounds.w }
    requires few_wide { bounds.w ≤ 8 }
    requires some_height { 2 ≤ bounds.h }
    requires few_high { bounds.h ≤ 6 }
    requires some_phase { 1 ≤ phases }
    requires few_phases { phases ≤ 4 }
    ensures deck { IfOk result (IsChosenDeck network.now bounds.w bounds.h phases) }
    ensures names { IfOk result (λ _. AreByteNames network.now.names) }
{
    let ChosenForest { signs, forest } = chosen_forest(alloc, network)?;
    let circuit = deck_of_forest(alloc, network, signs.as_slice(), &forest, bounds, phases)?;
    Ok(circuit)
}

//! The circuit of a network for clocks that overlap (Harris and Horowitz, Skew-tolerant domino circuits).
ghost use Rattle.std.specs.Prelude.{◌≤◌, ◌≡◌, IfOk};
ghost use Rattle.dual_rail.specs.Forests.{IsForestOf};
ghost use Rattle.gate_decompose.specs.GateNodes.{AreGatesOf};
ghost use Rattle.gate_decompose.specs.GatesData.{GatesData};
ghost use Rattle.synth_flow.specs.BufferedDecks.{IsBufferedDeckOfSigns, IsChosenBufferedDeck, skew_options};

use crate::bare::deck_of;
use crate::chosen::{ChosenForest, chosen_forest};
use crate::clocked::clocked_cover;
use crate::taken::{TakenCells, taken_cells};
use deck::Circuit;
use dom_base::OutOfMemory;
use domino_cell::Style;
use dual_rail::Forest;
use network::Network;
use phase_buffer::{Buffered, buffer};
use std::alloc::Global;
use tree_map::{Bounds, Cover};

/// The circuit of a network under signs with chains of buffers, where this is the forest of its gates under
/// them.
fn buffered_deck_of_forest(
    alloc: Global,
    network: &Network,
    signs: &[bool],
    forest: &Forest,
    bounds: Bounds,
    phases: u8,
) -> Result<Circuit, OutOfMemory>
    requires some_width { 2 ≤ bounds.w }
    requires few_wide { bounds.w ≤ 8 }
    requires some_height { 2 ≤ bounds.h }
    requires few_high { bounds.h ≤ 6 }
    requires some_phase { 1 ≤ phases }
    requires few_phases { phases ≤ 4 }
    requires forest { (gates : GatesData) × AreGatesOf network.now gates × IsForestOf gates signs.now forest.now }
    ensures { IfOk result (λ circuit. (gates : GatesData) → AreGatesOf network.now gates → IsForestOf gates signs.now forest.now
        → IsBufferedDeckOfSigns (λ g s. (g ≡ gates) × (s ≡ signs.now)) network.now (skew_options bounds phases) circuit) }
{
    let Cover { kept, cells, plans } = clocked_cover(alloc, forest, bounds, phases)?;
    drop(kept);
    let TakenCells { cells, ends } = taken_cells(alloc, cells.as_slice(), forest.ends.as_slice())?;
    let Buffered {
        plans,
        place,
        ends: last,
    } = buffer(
        alloc,
        plans.as_slice(),
        forest.leaves,
        phases,
        cells.as_slice(),
    )?;
    drop(place);
    let circuit = deck_of(
        alloc,
        network,
        phases,
        Style::Keeper,
        signs,
        plans.as_slice(),
        ends.as_slice(),
        last.as_slice(),
    )?;
    Ok(circuit)
}

/// The circuit of a network for clocks that overlap: a domino deck with keepers of the chosen signs of its
/// sinks and the chosen cover, by trees within the bounds and on so many clocks, with chains of buffers, so
/// that each cell reads cells of its own clock and of the one before alone, and sinks take from cells of the
/// last clock. On one clock there are no buffers. The one error is out of memory.
pub fn synth_skew(
    alloc: Global,
    network: &Network,
    bounds: Bounds,
    phases: u8,
) -> Result<Circuit, OutOfMemory>
    requires some_width { 2 ≤ bounds.w }
    requires few_wide { bounds.w ≤ 8 }
    requires some_height { 2 ≤ bounds.h }
    requires few_high { bounds.h ≤ 6 }
    requires some_phase { 1 ≤ phases }
    requires few_phases { phases ≤ 4 }
    ensures { IfOk result (IsChosenBufferedDeck network.now (skew_options bounds phases)) }
{
    let ChosenForest { signs, forest } = chosen_forest(alloc, network)?;
    let circuit = buffered_deck_of_forest(
        alloc,
        network,
        signs.as_slice(),
        &forest,
        bounds,
        phases,
    )?;
    Ok(circuit)
}

//! The figures of the deck of a network, without the deck.
ghost use Rattle.std.specs.Prelude.{◌≡◌, ◌≤◌, ◌<◌, ◌*◌, ◌^◌, All, IfOk, count_by, length};
ghost use Rattle.synth_flow.specs.ChosenForests.{IsChosenForest};
ghost use Rattle.synth_flow.specs.Summaries.{IsSummaryOf};
ghost use Rattle.style_costs.specs.Styles.{is_series};
ghost use Rattle.synth_flow.specs.SummaryParts.{cost_of_plan, figures_by};

use crate::both::both_signs;
use crate::chosen::{CountedForest, counted_forest};
use crate::counted::{CountedCover, counted_cover};
use crate::counts::{clock_counts, greatest_level, minus_count};
use crate::figures::Summary;
use deck_form::SynthOptions;
use dom_base::OutOfMemory;
use domino_cell::Style;
use dual_rail::{Forest, Pair};
use network::Network;
use std::alloc::Global;

/// The figures of the circuit that `synth` gives of a network with the same options. It doesn't make the
/// circuit, whose devices it counts: those of the cells, 2 for each complement, 9 for each latch and 2 for
/// each sink. The one error is out of memory.
pub fn summary(
    alloc: Global,
    network: &Network,
    options: SynthOptions,
) -> Result<Summary, OutOfMemory>
    requires some_width { 2 ≤ options.bounds.w }
    requires few_wide { options.bounds.w ≤ 8 }
    requires some_height { 2 ≤ options.bounds.h }
    requires few_high { options.bounds.h ≤ 6 }
    requires some_phase { 1 ≤ options.phases }
    requires few_phases { options.phases ≤ 4 }
    ensures { IfOk result (IsSummaryOf network.now options) }
{
    let CountedForest { chosen, nodes } = counted_forest(alloc, network)?;
    figures_of_forest(
        alloc,
        network,
        options,
        chosen.signs.as_slice(),
        &chosen.forest,
        nodes,
    )
}

/// The figures of the circuit that `synth` gives of a network with the same options, of its chosen signs and the forest of its
/// gates, which have so many nodes, under them. The one error is out of memory.
pub fn figures_of_forest(
    alloc: Global,
    network: &Network,
    options: SynthOptions,
    signs: &[bool],
    forest: &Forest,
    nodes: usize,
) -> Result<Summary, OutOfMemory>
    requires some_width { 2 ≤ options.bounds.w }
    requires few_wide { options.bounds.w ≤ 8 }
    requires some_height { 2 ≤ options.bounds.h }
    requires few_high { options.bounds.h ≤ 6 }
    requires some_phase { 1 ≤ options.phases }
    requires few_phases { options.phases ≤ 4 }
    requires chosen { (is : IsChosenForest network.now signs.now forest.now) × (nodes ≡ length is.gates.nodes) }
    ensures { IfOk result (IsSummaryOf network.now options) }
{
    let both = both_signs(alloc, forest.origin.as_slice(), nodes)?;
    let CountedCover {
        kept,
        cells,
        places,
        levels,
        complements,
    } = counted_cover(alloc, forest, options.bounds)?;
    drop(kept);
    drop(cells);
    drop(places);
    let figures = figures_of(
        alloc,
        network,
        options.phases,
        options.style,
        signs,
        forest,
        levels.as_slice(),
        complements.as_slice(),
        both,
    )?;
    Ok(figures)
}

/// What a plan with so many cells of these pairs costs: a device for each pair and 6 for each cell, or where inner nets
/// are precharged, one more for each series pair and 5 for each cell.
fn plan_cost(style: Style, pairs: &[Pair], cells: usize) -> u64
    requires pairs { length pairs.now ≤ 800000 }
    requires cells { cells ≤ length pairs.now }
    ensures cost { result ≡ cost_of_plan style pairs.now cells }
    ensures few { result ≤ 7 * length pairs.now }
{
    let pair_count = pairs.len() as u64;
    let cells = cells as u64;
    match style {
        Style::Keeper => pair_count + 6 * cells,
        Style::Precharge => pair_count + series_count(pairs) + 5 * cells,
    }
}

/// How many of the pairs are series.
fn series_count(pairs: &[Pair]) -> u64
    requires { length pairs.now ≤ 800000 }
    ensures count { result ≡ count_by is_series pairs.now }
    ensures few { result ≤ length pairs.now }
{
    let mut count: u64 = 0;
    'pairs: for pair in pairs {
        if is_series(*pair) {
            count += 1;
        }
    }
    count
}

/// Whether a pair is series.
fn is_series(pair: Pair) -> bool
    ensures { result ≡ is_series pair }
{
    match pair {
        Pair::And(_, _) => true,
        Pair::Or(_, _) => false,
    }
}

/// The figures, by the parts of the deck: the signs, the forest, the levels of the cells, the leaves whose complements
/// are named, and how many nodes are needed in both signs.
fn figures_of(
    alloc: Global,
    network: &Network,
    phases: u8,
    style: Style,
    signs: &[bool],
    forest: &Forest,
    levels: &[u32],
    named: &[u32],
    both: u64,
) -> Result<Summary, OutOfMemory>
    requires some_phase { 1 ≤ phases }
    requires few_phases { phases ≤ 4 }
    requires few_signs { length signs.now ≤ 8192 }
    requires few_cells { length levels.now ≤ 800000 }
    requires from_one { All (λ level. 1 ≤ level) levels.now }
    requires cells { length levels.now ≤ length forest.now.pairs }
    requires few_pairs { length forest.now.pairs ≤ 800000 }
    requires few_named { length named.now < 2 ^ 32 }
    ensures { IfOk result (λ s. s ≡ figures_by network.now phases signs.now forest.now levels.now
        (cost_of_plan style forest.now.pairs (length levels.now)) named.now both) }
{
    let outputs = network.outputs.len() as u32;
    let latches = network.latches.len() as u32;
    let sinks = outputs as u64 + latches as u64;
    let cost = plan_cost(style, forest.pairs.as_slice(), levels.len());
    Ok(Summary {
        inputs: network.inputs,
        outputs,
        latches,
        pairs: forest.pairs.len() as u64,
        both,
        minus: minus_count(signs),
        cells: levels.len() as u32,
        levels: greatest_level(levels),
        cost,
        devices: cost + 2 * named.len() as u64 + 9 * latches as u64 + 2 * sinks,
        clocks: clock_counts(alloc, levels, phases)?,
    })
}

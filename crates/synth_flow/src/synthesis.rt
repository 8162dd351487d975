//! The circuit of a network.
ghost use Rattle.std.specs.Prelude.{◌≤◌, ◌≡◌, ◌+◌, length, IfOk};
ghost use Rattle.dual_rail.specs.Forests.{IsForestOf};
ghost use Rattle.gate_decompose.specs.GateNodes.{AreGatesOf};
ghost use Rattle.gate_decompose.specs.GatesData.{GatesData};
ghost use Rattle.tree_map.specs.MappedCover.{plan_trees};
ghost use Rattle.deck_form.specs.ChosenDecks.{AreGiven, IsChosenDeck, IsDeckOfSigns};
ghost use Rattle.deck_form.specs.AskedOptions.{deck_options};
ghost use Rattle.synth_flow.specs.ChosenForests.{IsChosenForest};

use crate::bare::deck_of;
use crate::chosen::{ChosenForest, chosen_forest};
use crate::clocked::clocked_cover;
use deck::Circuit;
use deck_form::SynthOptions;
use dom_base::OutOfMemory;
use dual_rail::{Forest, rails};
use gate_decompose::decompose;
use network::Network;
use sp_network::GatePlan;
use std::alloc::Global;
use tree_map::Cover;

/// A circuit, and the plans of its cells.
#[derive(Drop)]
struct PlannedCircuit {
    pub circuit: Circuit,
    pub plans: Vec<GatePlan>,
}

/// The circuit of the chosen signs and the chosen cover, the plans of its cells, and its forest.
#[derive(Drop)]
pub struct ChosenDeck {
    pub circuit: Circuit,
    pub plans: Vec<GatePlan>,
    pub forest: Forest,
}

/// The circuit of a network under signs, where this is the forest of its gates under them.
fn deck_of_forest(
    alloc: Global,
    network: &Network,
    signs: &[bool],
    forest: &Forest,
    options: SynthOptions,
) -> Result<PlannedCircuit, OutOfMemory>
    requires some_width { 2 ≤ options.bounds.w }
    requires few_wide { options.bounds.w ≤ 8 }
    requires some_height { 2 ≤ options.bounds.h }
    requires few_high { options.bounds.h ≤ 6 }
    requires some_phase { 1 ≤ options.phases }
    requires few_phases { options.phases ≤ 4 }
    requires forest { (gates : GatesData) × AreGatesOf network.now gates × IsForestOf gates signs.now forest.now }
    ensures { IfOk result (λ made. (gates : GatesData) → AreGatesOf network.now gates → IsForestOf gates signs.now forest.now
        → (is : IsDeckOfSigns (λ g s. (g ≡ gates) × (s ≡ signs.now)) network.now (deck_options options) made.circuit)
        × (is.forest ≡ forest.now) × (is.trees ≡ plan_trees made.plans.items)) }
{
    let Cover { kept, cells, plans } = clocked_cover(
        alloc,
        forest,
        options.bounds,
        options.phases,
    )?;
    drop(kept);
    let circuit = deck_of(
        alloc,
        network,
        options.phases,
        options.style,
        signs,
        plans.as_slice(),
        forest.ends.as_slice(),
        cells.as_slice(),
    )?;
    Ok(PlannedCircuit { circuit, plans })
}

/// The circuit of a network for signs, one for each output and each latch (true is plus): a domino deck
/// of the chosen cover of the pairs that these signs need, by trees within the bounds and on so many
/// clocks, in cells of the asked style. The one error is out of memory.
pub fn synth_signs(
    alloc: Global,
    network: &Network,
    options: SynthOptions,
    signs: &[bool],
) -> Result<Circuit, OutOfMemory>
    requires some_width { 2 ≤ options.bounds.w }
    requires few_wide { options.bounds.w ≤ 8 }
    requires some_height { 2 ≤ options.bounds.h }
    requires few_high { options.bounds.h ≤ 6 }
    requires some_phase { 1 ≤ options.phases }
    requires few_phases { options.phases ≤ 4 }
    requires one_each { length signs.now ≡ length network.now.outputs + length network.now.latches }
    ensures { IfOk result (IsDeckOfSigns (AreGiven signs.now) network.now (deck_options options)) }
{
    let gates = decompose(alloc, network)?;
    let forest = rails(alloc, &gates, signs)?;
    drop(gates);
    let PlannedCircuit { circuit, plans } = deck_of_forest(
        alloc, network, signs, &forest, options,
    )?;
    drop(plans);
    Ok(circuit)
}

/// The circuit of a network under its chosen signs, and the chosen cover of the forest of its gates under them, with the plans
/// of its cells and its forest. The one error is out of memory.
pub fn deck_of_chosen(
    alloc: Global,
    network: &Network,
    chosen: ChosenForest,
    options: SynthOptions,
) -> Result<ChosenDeck, OutOfMemory>
    requires some_width { 2 ≤ options.bounds.w }
    requires few_wide { options.bounds.w ≤ 8 }
    requires some_height { 2 ≤ options.bounds.h }
    requires few_high { options.bounds.h ≤ 6 }
    requires some_phase { 1 ≤ options.phases }
    requires few_phases { options.phases ≤ 4 }
    requires chosen { IsChosenForest network.now chosen.signs.items chosen.forest }
    ensures { IfOk result (λ made. (is : IsChosenDeck network.now (deck_options options) made.circuit)
        × (is.forest ≡ made.forest) × (is.trees ≡ plan_trees made.plans.items)) }
{
    let ChosenForest { signs, forest } = chosen;
    let PlannedCircuit { circuit, plans } = deck_of_forest(
        alloc,
        network,
        signs.as_slice(),
        &forest,
        options,
    )?;
    Ok(ChosenDeck {
        circuit,
        plans,
        forest,
    })
}

/// The circuit of the chosen signs of a network's sinks and the chosen cover, with the plans of its cells
/// and its forest. The one error is out of memory.
pub fn chosen_deck(
    alloc: Global,
    network: &Network,
    options: SynthOptions,
) -> Result<ChosenDeck, OutOfMemory>
    requires some_width { 2 ≤ options.bounds.w }
    requires few_wide { options.bounds.w ≤ 8 }
    requires some_height { 2 ≤ options.bounds.h }
    requires few_high { options.bounds.h ≤ 6 }
    requires some_phase { 1 ≤ options.phases }
    requires few_phases { options.phases ≤ 4 }
    ensures { IfOk result (λ made. (is : IsChosenDeck network.now (deck_options options) made.circuit)
        × (is.forest ≡ made.forest) × (is.trees ≡ plan_trees made.plans.items)) }
{
    let chosen = chosen_forest(alloc, network)?;
    deck_of_chosen(alloc, network, chosen, options)
}

/// The circuit of a network: a domino deck of the chosen signs of its sinks and the chosen cover, by
/// trees within the bounds and on so many clocks, in cells of the asked style. The one error is out of memory.
pub fn synth(
    alloc: Global,
    network: &Network,
    options: SynthOptions,
) -> Result<Circuit, OutOfMemory>
    requires some_width { 2 ≤ options.bounds.w }
    requires few_wide { options.bounds.w ≤ 8 }
    requires some_height { 2 ≤ options.bounds.h }
    requires few_high { options.bounds.h ≤ 6 }
    requires some_phase { 1 ≤ options.phases }
    requires few_phases { options.phases ≤ 4 }
    ensures { IfOk result (IsChosenDeck network.now (deck_options options)) }
{
    let ChosenDeck {
        circuit,
        plans,
        forest,
    } = chosen_deck(alloc, network, options)?;
    drop(plans);
    drop(forest);
    Ok(circuit)
}

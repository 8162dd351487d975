//! The circuit of a network, and the places at which the groups of its devices end.
ghost use Rattle.std.specs.Prelude.{◌≡◌, ◌≤◌, ◌<◌, ◌+◌, ◌*◌, ◌^◌, All, IfOk, length};
ghost use Rattle.sp_network.specs.Tree.{leaves};
ghost use Rattle.sp_network.specs.TypedTree.{most_leaves, tree_of};
ghost use Rattle.sp_network.specs.declared.plan.GatePlan.{GatePlan};
ghost use Rattle.style_costs.specs.Styles.{costs_of};
ghost use Rattle.tree_map.specs.MappedCover.{plan_trees};
ghost use Rattle.tree_map.specs.Plans.{tree_cost_by, tree_sum};
ghost use Rattle.deck_form.specs.AskedOptions.{deck_options};
ghost use Rattle.deck_form.specs.DeckGroups.{IsGroupedDeck};
ghost use Rattle.synth_flow.specs.GroupEnds.{deck_sizes, ends_of, group_sizes};

use crate::complements::named_complements;
use crate::synthesis::{ChosenDeck, chosen_deck};
use deck::Circuit;
use deck_form::SynthOptions;
use dom_base::{OutOfMemory, ToVss};
use domino_cell::Style;
use dual_rail::End;
use network::Network;
use sp_network::{GatePlan, Sp};
use std::alloc::Global;
use tree_map::CELL_COST;

/// The circuit of a network, and the places at which the groups of its devices end: one group for each
/// cell, each complement that is named, each latch and each sink, in this order. The devices of a group
/// are those between two of these places; the last place is the number of devices.
#[derive(Drop)]
pub struct Grouped {
    pub circuit: Circuit,
    pub ends: Vec<u32>,
}

/// How many devices an inverter has.
const INVERTER: u32 = 2;

/// How many devices a latch has.
const LATCH: u32 = 9;

/// How many devices a tree has with those that precharge its inner nets, so many for each series node.
fn tree_devices(tree: &Sp<ToVss>, series: u32) -> u32
    requires small { leaves (tree_of tree.now) ≤ most_leaves }
    requires series { series ≤ 1 }
    ensures devices { result ≡ tree_sum series (tree_of tree.now) }
    ensures few { result + 1 ≤ 2 * leaves (tree_of tree.now) }
{
    match tree {
        Sp::Leaf { .. } => 1,
        Sp::Series(left, right) => {
            tree_devices(left, series) + tree_devices(right, series) + series
        }
        Sp::Parallel(left, right) => tree_devices(left, series) + tree_devices(right, series),
    }
}

/// How many devices the cell of a tree has in this style.
fn cell_devices(style: Style, tree: &Sp<ToVss>) -> u32
    requires { leaves (tree_of tree.now) ≤ 48 }
    ensures { result ≡ tree_cost_by (costs_of style) (tree_of tree.now) }
{
    match style {
        Style::Keeper => tree_devices(tree, 0) + CELL_COST,
        Style::Precharge => tree_devices(tree, 1) + 4,
    }
}

/// The sizes of the groups of the cells of these plans, and of so many complements, latches and sinks.
fn sizes_of(
    alloc: Global,
    style: Style,
    plans: &[GatePlan],
    complements: usize,
    latches: usize,
    sinks: usize,
) -> Result<Vec<u32>, OutOfMemory>
    requires small { All (λ (p : GatePlan). leaves (tree_of p.tree) ≤ 48) plans.now }
    requires few { length plans.now + complements + latches + sinks < 2 ^ 40 }
    ensures { IfOk result (λ sizes. sizes.items ≡ group_sizes style (plan_trees plans.now) complements latches sinks) }
{
    let mut sizes = Vec::new(alloc);
    'cells: for plan in plans {
        sizes.push(cell_devices(style, &plan.tree))?;
    }
    let named = plans.len() + complements;
    sizes.resize(named, INVERTER)?;
    sizes.resize(named + latches, LATCH)?;
    sizes.resize(named + latches + sinks, INVERTER)?;
    Ok(sizes)
}

/// The places at which groups of these sizes end, where the first begins at place 0.
fn places_of(alloc: Global, sizes: &[u32]) -> Result<Vec<u32>, OutOfMemory>
    requires { All (λ place. place < 2 ^ 32) (ends_of 0 sizes.now) }
    ensures { IfOk result (λ places. places.items ≡ ends_of 0 sizes.now) }
{
    let mut places = Vec::with_capacity(alloc, sizes.len())?;
    let mut end = 0;
    'groups: for k in 0..sizes.len() {
        end += sizes[k];
        places.push(end)?;
    }
    Ok(places)
}

/// The places at which the groups of a deck of these plans and ends end, over so many leaves, with so many latches.
fn deck_places(
    alloc: Global,
    style: Style,
    plans: &[GatePlan],
    ends: &[End],
    leaf_count: u32,
    latches: usize,
) -> Result<Vec<u32>, OutOfMemory>
    requires small { All (λ (p : GatePlan). leaves (tree_of p.tree) ≤ 48) plans.now }
    requires few_plans { length plans.now < 2 ^ 32 }
    requires few_latches { latches < 2 ^ 32 }
    requires few_ends { length ends.now < 2 ^ 32 }
    requires fit { All (λ place. place < 2 ^ 32) (ends_of 0 (deck_sizes style plans.now ends.now leaf_count latches)) }
    ensures { IfOk result (λ places. places.items ≡ ends_of 0 (deck_sizes style plans.now ends.now leaf_count latches)) }
{
    let named = named_complements(alloc, plans, ends, leaf_count)?;
    let sizes = sizes_of(alloc, style, plans, named.len(), latches, ends.len())?;
    let places = places_of(alloc, sizes.as_slice())?;
    Ok(places)
}

/// The circuit that `synth` gives of a network, and the places at which the groups of its devices end.
/// The one error is out of memory.
pub fn synth_grouped(
    alloc: Global,
    network: &Network,
    options: SynthOptions,
) -> Result<Grouped, OutOfMemory>
    requires some_width { 2 ≤ options.bounds.w }
    requires few_wide { options.bounds.w ≤ 8 }
    requires some_height { 2 ≤ options.bounds.h }
    requires few_high { options.bounds.h ≤ 6 }
    requires some_phase { 1 ≤ options.phases }
    requires few_phases { options.phases ≤ 4 }
    ensures { IfOk result (λ g. IsGroupedDeck network.now (deck_options options) g.circuit g.ends.items) }
{
    let ChosenDeck {
        circuit,
        plans,
        forest,
    } = chosen_deck(alloc, network, options)?;
    circuit.whole();
    let ends = deck_places(
        alloc,
        options.style,
        plans.as_slice(),
        forest.ends.as_slice(),
        forest.leaves,
        network.latches.len(),
    )?;
    Ok(Grouped { circuit, ends })
}

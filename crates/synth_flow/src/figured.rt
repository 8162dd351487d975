//! The circuit of a network with its figures.
ghost use Rattle.std.specs.Prelude.{◌≤◌, IfOk};
ghost use Rattle.deck_form.specs.AskedOptions.{deck_options};
ghost use Rattle.deck_form.specs.ChosenDecks.{IsChosenDeck};
ghost use Rattle.synth_flow.specs.Summaries.{IsSummaryOf};

use crate::chosen::{CountedForest, counted_forest};
use crate::figures::Summary;
use crate::summaries::figures_of_forest;
use crate::synthesis::{ChosenDeck, deck_of_chosen};
use deck::Circuit;
use deck_form::SynthOptions;
use dom_base::OutOfMemory;
use network::Network;
use std::alloc::Global;

/// The circuit that synthesis gives of a network, and its figures.
#[derive(Drop)]
pub struct FiguredCircuit {
    pub circuit: Circuit,
    pub figures: Summary,
}

/// The circuit of a network, as `synth` gives it, and its figures, as `summary` does, by one choice of signs. The one error is
/// out of memory.
pub fn synth_with_figures(
    alloc: Global,
    network: &Network,
    options: SynthOptions,
) -> Result<FiguredCircuit, OutOfMemory>
    requires some_width { 2 ≤ options.bounds.w }
    requires few_wide { options.bounds.w ≤ 8 }
    requires some_height { 2 ≤ options.bounds.h }
    requires few_high { options.bounds.h ≤ 6 }
    requires some_phase { 1 ≤ options.phases }
    requires few_phases { options.phases ≤ 4 }
    ensures circuit { IfOk result (λ made. IsChosenDeck network.now (deck_options options) made.circuit) }
    ensures figures { IfOk result (λ made. IsSummaryOf network.now options made.figures) }
{
    let CountedForest { chosen, nodes } = counted_forest(alloc, network)?;
    let figures = figures_of_forest(
        alloc,
        network,
        options,
        chosen.signs.as_slice(),
        &chosen.forest,
        nodes,
    )?;
    let ChosenDeck {
        circuit,
        plans,
        forest,
    } = deck_of_chosen(alloc, network, chosen, options)?;
    drop(plans);
    drop(forest);
    Ok(FiguredCircuit { circuit, figures })
}

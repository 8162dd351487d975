//! The product's own decks of generated networks.
ghost use Rattle.std.specs.Prelude.{◌≤◌};

use crate::audits::design::Design;
use comparison::{Trouble, network_of};
use plain_hierarchies::{one_model, written};
use plain_networks::{Sizes, drawn_network};
use plain_texts::Draws;
use spice_text::write;
use std::alloc::Global;
use synth_flow::{Style, SynthOptions, synth};
use tree_map::Bounds;

const SIZES: Sizes = Sizes {
    inputs: 3,
    latches: 2,
    tables: 4,
    outputs: 2,
};

/// Drawn options, with keepers.
fn drawn_options(draws: &mut Draws) -> SynthOptions
    ensures some_width { 2 ≤ result.bounds.w }
    ensures few_wide { result.bounds.w ≤ 8 }
    ensures some_height { 2 ≤ result.bounds.h }
    ensures few_high { result.bounds.h ≤ 6 }
    ensures some_phase { 1 ≤ result.phases }
    ensures few_phases { result.phases ≤ 4 }
{
    SynthOptions {
        bounds: Bounds {
            w: 2 + (draws.below(4) % 4) as u32,
            h: 2 + (draws.below(4) % 4) as u32,
        },
        phases: 1 + (draws.below(4) % 4) as u8,
        style: Style::Keeper,
    }
}

/// The text of a generated network.
fn drawn_text(alloc: Global, draws: &mut Draws) -> Result<String, Trouble> {
    let drawn = drawn_network(alloc, draws, SIZES)?;
    let mut file = one_model(alloc, &drawn)?;
    Ok(written(alloc, &mut file)?)
}

/// The deck of the network of a text.
fn deck_text(alloc: Global, text: &[u8], options: SynthOptions) -> Result<Vec<u8>, Trouble>
    requires some_width { 2 ≤ options.bounds.w }
    requires few_wide { options.bounds.w ≤ 8 }
    requires some_height { 2 ≤ options.bounds.h }
    requires few_high { options.bounds.h ≤ 6 }
    requires some_phase { 1 ≤ options.phases }
    requires few_phases { options.phases ≤ 4 }
{
    let network = network_of(alloc, text)?;
    let circuit = synth(alloc, &network, options)?;
    Ok(write(alloc, &circuit)?)
}

/// The product's own deck of a generated network.
pub fn own_deck(alloc: Global, draws: &mut Draws) -> Result<Design, Trouble> {
    let text = drawn_text(alloc, draws)?;
    let options = drawn_options(draws);
    let deck = deck_text(alloc, text.as_bytes(), options)?;
    Design::read(alloc, &deck)
}

//! The decks of the product.
ghost use Rattle.std.specs.Prelude.{◌≤◌};

use comparison::Trouble;
use network::Network;
use spice_text::write;
use std::alloc::Global;
use synth_flow::{Style, SynthOptions, synth, synth_skew};
use tree_map::Bounds;

/// How many options there are: both styles, widths from 2 to 8, heights from 2 to 6, and 1 to 4 clocks.
pub const OPTIONS: u32 = 2 * 7 * 5 * 4;

/// The options of this number: the clocks change first, then the heights, then the widths, then the style.
pub fn options_at(number: u32) -> SynthOptions
    ensures some_width { 2 ≤ result.bounds.w }
    ensures few_wide { result.bounds.w ≤ 8 }
    ensures some_height { 2 ≤ result.bounds.h }
    ensures few_high { result.bounds.h ≤ 6 }
    ensures some_phase { 1 ≤ result.phases }
    ensures few_phases { result.phases ≤ 4 }
{
    SynthOptions {
        bounds: Bounds {
            w: 2 + number / 20 % 7,
            h: 2 + number / 4 % 5,
        },
        phases: 1 + (number % 4) as u8,
        style: if number / 140 % 2 == 0 {
            Style::Keeper
        } else {
            Style::Precharge
        },
    }
}

/// The text of the deck of a network with chains of buffers, by the options of this number.
pub fn skew_deck_text(alloc: Global, network: &Network, number: u32) -> Result<Vec<u8>, Trouble> {
    let options = options_at(number);
    let circuit = synth_skew(alloc, network, options.bounds, options.phases)?;
    Ok(write(alloc, &circuit)?)
}

/// The text of the deck of a network, by the options of this number.
pub fn deck_text(alloc: Global, network: &Network, number: u32) -> Result<Vec<u8>, Trouble> {
    let circuit = synth(alloc, network, options_at(number))?;
    Ok(write(alloc, &circuit)?)
}

//! Decks, made twice.
use crate::synth::product::{OPTIONS, deck_text, options_at, skew_deck_text};
use crate::synth::tally::DeckTally;
use crate::texts::drawn_text;
use comparison::{Trouble, network_of};
use network::Network;
use plain_hierarchies::refusal;
use plain_networks::{PlainNetwork, Sizes};
use plain_synthesis::{
    PlainBounds, PlainOptions, PlainStyle, Synthesis, buffered, cards_of, cells_of, chosen_plan,
    chosen_signs, cover_tables, deck_of, forest_of, gates_of,
};
use plain_texts::{Draws, PlainDeck, write_deck};
use std::alloc::Global;
use synth_flow::{Style, SynthOptions};

const SIZES: Sizes = Sizes {
    inputs: 6,
    latches: 4,
    tables: 14,
    outputs: 8,
};

/// How many files have to be compared for each of all options once.
const STEP: u64 = 3;

pub fn plain_options(options: SynthOptions) -> PlainOptions {
    PlainOptions {
        bounds: PlainBounds {
            width: options.bounds.w as usize,
            height: options.bounds.h as usize,
        },
        clocks: options.phases as usize,
    }
}

fn plain_style(style: Style) -> PlainStyle {
    match style {
        Style::Keeper => PlainStyle::Keeper,
        Style::Precharge => PlainStyle::Precharge,
    }
}

/// What the decks of a network have in common by all options: its signs and its forest.
pub fn in_common(alloc: Global, network: &PlainNetwork) -> Result<Synthesis, Trouble> {
    let gates = gates_of(alloc, network)?;
    let signs = chosen_signs(alloc, &gates)?;
    Ok(Synthesis {
        forest: forest_of(alloc, &gates, &signs)?,
        signs,
        kept: Vec::new(alloc),
        cells: Vec::new(alloc),
    })
}

/// The deck of a network by some options, of its signs and its forest.
fn plain_deck(
    alloc: Global,
    network: &PlainNetwork,
    synthesis: &mut Synthesis,
    options: SynthOptions,
) -> Result<PlainDeck, Trouble> {
    let PlainOptions { bounds, clocks } = plain_options(options);
    let tables = cover_tables(alloc, &synthesis.forest, bounds)?;
    let Some(kept) = chosen_plan(alloc, &synthesis.forest, &tables)? else {
        return Err(Trouble::Refused);
    };
    synthesis.cells = cells_of(alloc, &synthesis.forest, &kept, clocks)?;
    for cell in synthesis.cells.iter_mut() {
        cell.style = plain_style(options.style);
    }
    synthesis.kept = kept;
    let cards = cards_of(alloc, network, synthesis)?;
    Ok(deck_of(alloc, network, &synthesis.signs, clocks, &cards)?)
}

/// Whether the deck of a network on several clocks with chains of buffers is that of the product, by the options of
/// this number, where the cells are those of the deck without buffers.
fn is_skew_deck(
    alloc: Global,
    network: &Network,
    plain: &PlainNetwork,
    synthesis: &mut Synthesis,
    number: u32,
) -> Result<bool, Trouble> {
    let clocks = options_at(number).phases as usize;
    let ends = &synthesis.forest.ends;
    synthesis.cells = buffered(alloc, &synthesis.cells, ends, clocks)?;
    let cards = cards_of(alloc, plain, synthesis)?;
    let deck = deck_of(alloc, plain, &synthesis.signs, clocks, &cards)?;
    let wanted = write_deck(alloc, &deck)?;
    let found = skew_deck_text(alloc, network, number)?;
    Ok(found.as_slice() == wanted.as_slice())
}

/// Compares decks of a network by the options whose numbers have this rest, and with keepers on several clocks those
/// with chains of buffers too, which aren't counted. It answers whether they are alike.
fn compare_network(
    alloc: Global,
    tally: &mut DeckTally,
    network: &Network,
    plain: &PlainNetwork,
    rest: u64,
) -> Result<bool, Trouble> {
    let mut synthesis = in_common(alloc, plain)?;
    for number in 0..OPTIONS {
        if number as u64 % STEP == rest {
            let options = options_at(number);
            let deck = plain_deck(alloc, plain, &mut synthesis, options)?;
            let wanted = write_deck(alloc, &deck)?;
            let found = deck_text(alloc, network, number)?;
            if found.as_slice() != wanted.as_slice() {
                return Ok(false);
            }
            tally.add_deck(deck.devices.len());
            let has_skew = options.style == Style::Keeper && options.phases > 1;
            if has_skew && !is_skew_deck(alloc, network, plain, &mut synthesis, number)? {
                return Ok(false);
            }
        }
    }
    tally.networks = tally.networks.saturating_add(1);
    Ok(true)
}

/// Compares the decks of so many generated files, and whether they are refused.
pub fn compare_decks(alloc: Global, files: u64) -> Result<DeckTally, Trouble> {
    let mut tally = DeckTally::new();
    for case in 0..files {
        let drawn = drawn_text(alloc, &mut Draws::of_case(case), SIZES)?;
        let is_refused = refusal(alloc, &drawn.file)?.is_some();
        let alike = match network_of(alloc, drawn.text.as_bytes()) {
            Ok(network) if !is_refused => {
                let plain = drawn.network(alloc)?;
                compare_network(alloc, &mut tally, &network, &plain, case % STEP)?
            }
            Err(Trouble::Refused) if is_refused => {
                tally.add_refused();
                true
            }
            Ok(_) | Err(Trouble::Refused) => false,
            Err(other) => return Err(other),
        };
        if !alike {
            tally.differs = Some(case);
            return Ok(tally);
        }
    }
    Ok(tally)
}

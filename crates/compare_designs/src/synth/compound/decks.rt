//! Decks with compound cells, made twice, and run.
use crate::synth::compound::all_plans::{least_cost, plan_cost};
use crate::synth::compound::cover::{Plan, chosen_plan, cover_tables};
use crate::synth::compound::product::{compound_marks, deck_text};
use crate::synth::decks::{in_common, plain_options};
use crate::synth::product::options_at;
use crate::texts::DrawnText;
use comparison::{Trouble, network_of};
use legal_runs::{Clocking, Style, Terms, drawn_run, run_by};
use network::Network;
use plain_networks::{PlainNetwork, Sizes, drawn_network};
use plain_synthesis::{
    PlainCell, PlainForest, PlainOptions, PlainStyle, Synthesis, cards_of, cells_of, deck_of,
    divide,
};
use plain_texts::{DeckReading, Draws, read_deck, write_deck};
use spice_read::read;
use std::alloc::{AllocError, Global};

const SIZES: Sizes = Sizes {
    inputs: 6,
    latches: 3,
    tables: 10,
    outputs: 4,
};

/// How many options there are, and how many of them each network has.
const OPTIONS: usize = 7 * 5 * 4;

const OPTIONS_OF_A_NETWORK: usize = 3;

/// One of so many networks has a deck that is run, in two orders, over so many cycles.
const ONE_RUN_OF: u64 = 4;

const CYCLES: usize = 3;

/// How many decks were compared, how many of them have compound cells, the plans of how many were held against all
/// plans, how many runs with how many events there were; and the first network with a deck that differs.
#[derive(Clone, Copy)]
pub struct Tally {
    pub decks: u64,
    pub compound: u64,
    pub tried: u64,
    pub runs: u64,
    pub events: u64,
    pub differs: Option<u64>,
}

/// What the decks of a network have in common by all options.
#[derive(Drop)]
struct Case {
    drawn: DrawnText,
    network: Network,
    plain: PlainNetwork,
    synthesis: Synthesis,
}

fn drawn_case(alloc: Global, draws: &mut Draws) -> Result<Case, Trouble> {
    let drawn = DrawnText::of(alloc, &drawn_network(alloc, draws, SIZES)?)?;
    let plain = drawn.network(alloc)?;
    Ok(Case {
        network: network_of(alloc, drawn.text.as_bytes())?,
        drawn,
        synthesis: in_common(alloc, &plain)?,
        plain,
    })
}

/// The cells of a plan on so many clocks, those of compound roots with two trees.
fn compound_cells(
    alloc: Global,
    forest: &PlainForest,
    plan: &Plan,
    clocks: usize,
) -> Result<Vec<PlainCell>, AllocError> {
    let mut cells = cells_of(alloc, forest, &plan.kept, clocks)?;
    for cell in cells.iter_mut() {
        cell.style = PlainStyle::Precharge;
        if plan.split.get(cell.root).copied().unwrap_or(false) {
            divide(alloc, cell)?;
        }
    }
    Ok(cells)
}

/// Whether those of the cells that are marked are the compound ones.
fn have_marks(cells: &[PlainCell], marks: &[bool]) -> bool {
    let mut pairs = cells.iter().zip(marks.iter());
    cells.len() == marks.len() && pairs.all(|(cell, mark)| cell.right.is_some() == *mark)
}

impl Tally {
    /// Nothing yet.
    fn new() -> Tally {
        Tally {
            decks: 0,
            compound: 0,
            tried: 0,
            runs: 0,
            events: 0,
            differs: None,
        }
    }

    /// Compares the deck of a network by the options of this number, and gives its text where it is alike.
    fn compare(
        &mut self,
        alloc: Global,
        case: &mut Case,
        number: u32,
    ) -> Result<Option<Vec<u8>>, Trouble> {
        let PlainOptions { bounds, clocks } = plain_options(options_at(number));
        let forest = &case.synthesis.forest;
        let Some(tables) = cover_tables(alloc, forest, bounds)? else {
            return Ok(None);
        };
        let Some(plan) = chosen_plan(alloc, forest, &tables)? else {
            return Ok(None);
        };
        if let Some(least) = least_cost(alloc, forest, bounds)? {
            self.tried = self.tried.saturating_add(1);
            if plan_cost(forest, &plan.kept, &plan.split, bounds) != Some(least) {
                return Ok(None);
            }
        }
        let cells = compound_cells(alloc, forest, &plan, clocks)?;
        if !have_marks(
            &cells,
            &compound_marks(alloc, case.drawn.text.as_str(), number)?,
        ) {
            return Ok(None);
        }
        if cells.iter().any(|cell| cell.right.is_some()) {
            self.compound = self.compound.saturating_add(1);
        }
        case.synthesis.cells = cells;
        case.synthesis.kept = plan.kept;
        let cards = cards_of(alloc, &case.plain, &case.synthesis)?;
        let deck = deck_of(alloc, &case.plain, &case.synthesis.signs, clocks, &cards)?;
        let wanted = write_deck(alloc, &deck)?;
        let found = deck_text(alloc, &case.network, number)?;
        self.decks = self.decks.saturating_add(1);
        if found.as_slice() == wanted.as_slice() {
            return Ok(Some(found));
        }
        Ok(None)
    }

    /// Runs a deck in two orders, as it is read back. It answers whether both keep the laws and are alike at rest.
    fn run(
        &mut self,
        alloc: Global,
        draws: &mut Draws,
        case: &Case,
        text: &[u8],
        number: u32,
    ) -> Result<bool, Trouble> {
        let circuit = read(alloc, text)?;
        let DeckReading::Deck(deck) = read_deck(alloc, text)? else {
            return Err(Trouble::Refused);
        };
        let terms = Terms {
            clocks: options_at(number).phases as usize,
            pins: case.plain.inputs,
            style: Style::Precharge,
            clocking: Clocking::Together,
        };
        let run = drawn_run(alloc, draws, &case.plain, CYCLES)?;
        let orders = draws.below(1_000_000) as u64;
        let later = orders.saturating_add(1_000_000);
        let first = run_by(alloc, &circuit, &deck, terms, &run, Draws::of_case(orders))?;
        let second = run_by(alloc, &circuit, &deck, terms, &run, Draws::of_case(later))?;
        self.runs = self.runs.saturating_add(2);
        self.events = self
            .events
            .saturating_add(first.events)
            .saturating_add(second.events);
        let alike = first.rests.as_slice() == second.rests.as_slice();
        Ok(first.breach.is_none() && second.breach.is_none() && alike)
    }

    /// Compares the decks of a network by some options. It answers whether all are alike.
    fn compare_network(&mut self, alloc: Global, number: u64) -> Result<bool, Trouble> {
        let mut draws = Draws::of_case(number);
        let mut case = drawn_case(alloc, &mut draws)?;
        for turn in 0..OPTIONS_OF_A_NETWORK {
            let options = u32::try_from(draws.below(OPTIONS)).unwrap_or(0);
            let Some(text) = self.compare(alloc, &mut case, options)? else {
                return Ok(false);
            };
            let is_run = turn == 0 && number % ONE_RUN_OF == 0;
            if is_run && !self.run(alloc, &mut draws, &case, &text, options)? {
                return Ok(false);
            }
        }
        Ok(true)
    }
}

/// Compares the decks of so many generated networks.
pub fn compare_decks(alloc: Global, networks: u64) -> Result<Tally, Trouble> {
    let mut tally = Tally::new();
    for number in 0..networks {
        if !tally.compare_network(alloc, number)? {
            tally.differs = Some(number);
            return Ok(tally);
        }
    }
    Ok(tally)
}

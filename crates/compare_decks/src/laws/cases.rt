//! The cases: networks with their decks, streams and wanted cycles.
use crate::laws::wrong::Wrong;
use comparison::Trouble;
use legal_runs::{Clocking, NetworkRun, Shown, Style, Terms, drawn_run, run_by};
use plain_networks::{PlainNetwork, Sizes, drawn_network};
use plain_synthesis::{
    Card, PlainBounds, PlainOptions, PlainStyle, Synthesis, buffered, cards_of, deck_of, divide,
    grouped_cards, pair_values, synthesised,
};
use plain_texts::{Draws, PlainDeck, write_deck};
use spice_read::read;
use std::alloc::Global;

const SIZES: Sizes = Sizes {
    inputs: 4,
    latches: 2,
    tables: 6,
    outputs: 3,
};

/// How many cycles a run has.
const CYCLES: usize = 4;

/// The kinds of decks: cells with keepers, cells with precharged inner nets, chains of buffers for clocks that
/// overlap, and compound cells.
#[derive(Clone, Copy, PartialEq, Eq)]
pub enum DeckKind {
    Keepers,
    Precharge,
    Buffers,
    Compound,
}

impl DeckKind {
    /// What is told of decks of this kind.
    pub fn words(self) -> &'static str {
        match self {
            DeckKind::Keepers => "laws",
            DeckKind::Precharge => "style precharge",
            DeckKind::Buffers => "overlapping clocks",
            DeckKind::Compound => "compound cells",
        }
    }
}

/// A network with its deck's cards, the ends of their groups, and its run over a stream.
#[derive(Drop)]
pub struct Case {
    network: PlainNetwork,
    synthesis: Synthesis,
    cards: Vec<Card>,
    pub ends: Vec<usize>,
    run: NetworkRun,
    terms: Terms,
}

/// Makes the cells of a deck those of this kind.
fn change_cells(
    alloc: Global,
    draws: &mut Draws,
    synthesis: &mut Synthesis,
    kind: DeckKind,
    clocks: usize,
) -> Result<(), Trouble> {
    if kind == DeckKind::Buffers {
        let ends = &synthesis.forest.ends;
        synthesis.cells = buffered(alloc, &synthesis.cells, ends, clocks)?;
    }
    if kind == DeckKind::Precharge || kind == DeckKind::Compound {
        for cell in synthesis.cells.iter_mut() {
            cell.style = PlainStyle::Precharge;
            if kind == DeckKind::Compound && draws.below(4) > 0 {
                divide(alloc, cell)?;
            }
        }
    }
    Ok(())
}

/// The values of the cells in each cycle: those of their roots.
fn cell_values(
    alloc: Global,
    synthesis: &Synthesis,
    run: &NetworkRun,
) -> Result<Vec<Vec<bool>>, Trouble> {
    let mut all = Vec::new(alloc);
    for (number, pins) in run.stream.iter().enumerate() {
        let before = match number.checked_sub(1) {
            Some(before) => run.cycles.get(before).map(|cycle| cycle.next.as_slice()),
            None => None,
        };
        let mut leaves = Vec::new(alloc);
        leaves.extend_from_slice(pins)?;
        leaves.extend_from_slice(before.unwrap_or(run.start.as_slice()))?;
        let pairs = pair_values(alloc, &synthesis.forest, &leaves)?;
        let mut values = Vec::new(alloc);
        for cell in synthesis.cells.iter() {
            values.push(pairs.get(cell.root).copied().unwrap_or(false))?;
        }
        all.push(values)?;
    }
    Ok(all)
}

/// The case of this number of decks of a kind.
pub fn drawn_case(alloc: Global, kind: DeckKind, number: u64) -> Result<Case, Trouble> {
    let mut draws = Draws::of_case(number);
    let network = drawn_network(alloc, &mut draws, SIZES)?;
    let clocks = match kind {
        DeckKind::Buffers => draws.below(3).saturating_add(2),
        _ => draws.below(4).saturating_add(1),
    };
    let least = if kind == DeckKind::Compound { 4 } else { 2 };
    let options = PlainOptions {
        bounds: PlainBounds {
            width: draws.below(3).saturating_add(least),
            height: draws.below(3).saturating_add(least),
        },
        clocks,
    };
    let Some(mut synthesis) = synthesised(alloc, &network, options)? else {
        return Err(Trouble::Refused);
    };
    let mut run = drawn_run(alloc, &mut draws, &network, CYCLES)?;
    change_cells(alloc, &mut draws, &mut synthesis, kind, clocks)?;
    run.cells = cell_values(alloc, &synthesis, &run)?;
    let terms = Terms {
        clocks,
        pins: network.inputs,
        style: match kind {
            DeckKind::Precharge | DeckKind::Compound => Style::Precharge,
            DeckKind::Keepers | DeckKind::Buffers => Style::Keeper,
        },
        clocking: match kind {
            DeckKind::Buffers => Clocking::Overlapping,
            _ => Clocking::Together,
        },
    };
    let grouped = grouped_cards(alloc, &network, &synthesis)?;
    Ok(Case {
        cards: grouped.cards,
        ends: grouped.ends,
        network,
        synthesis,
        run,
        terms,
    })
}

impl Case {
    /// The deck of the case.
    pub fn deck(&self, alloc: Global) -> Result<PlainDeck, Trouble> {
        let signs = &self.synthesis.signs;
        Ok(deck_of(alloc, &self.network, signs, self.terms.clocks, &self.cards)?)
    }

    /// One run of a deck in an order that these draws give.
    pub fn shown(&self, alloc: Global, deck: &PlainDeck, draws: Draws) -> Result<Shown, Trouble> {
        let text = write_deck(alloc, deck)?;
        let circuit = read(alloc, &text)?;
        run_by(alloc, &circuit, deck, self.terms, &self.run, draws)
    }

    /// Changes something in the case, and tells whether there was something to change.
    pub fn change(&mut self, alloc: Global, wrong: Wrong) -> Result<bool, Trouble> {
        if let Some(clocking) = wrong.clocking() {
            self.terms.clocking = clocking;
            return Ok(self.terms.clocks > 1 && !self.synthesis.cells.is_empty());
        }
        if wrong.change_cells(&mut self.synthesis.cells) {
            self.cards = cards_of(alloc, &self.network, &self.synthesis)?;
            return Ok(true);
        }
        Ok(wrong.change(alloc, &mut self.cards)?)
    }
}

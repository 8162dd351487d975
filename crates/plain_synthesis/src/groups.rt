//! The groups of cards of a deck: cells, complements, latches and what drives the sinks.
use crate::cards::{Card, Cards, GroupedCards, sink_nets};
use crate::cells::PlainGate;
use crate::forest::PlainEnd;
use crate::synthesis::Synthesis;
use plain_networks::PlainNetwork;
use std::alloc::{AllocError, Global};

/// Whether a tree or the gate of a sink is the complement of a leaf.
fn names_complement(synthesis: &Synthesis, leaf: usize) -> bool {
    let rail = PlainGate::Rail(leaf, false);
    for cell in synthesis.cells.iter() {
        if cell.reads(rail) {
            return true;
        }
    }
    synthesis
        .forest
        .ends
        .contains(&PlainEnd::Literal(leaf, true))
}

impl Cards {
    /// The complement of a leaf.
    fn add_complement(&mut self, leaf: usize) -> Result<(), AllocError> {
        let own = self.rail(leaf, true)?;
        let complement = self.rail(leaf, false)?;
        self.add_inverter(own.as_str(), complement.as_str())
    }

    /// All groups: the cells, the complements and the latches.
    fn add_groups(
        &mut self,
        network: &PlainNetwork,
        synthesis: &Synthesis,
    ) -> Result<(), AllocError> {
        for (number, cell) in synthesis.cells.iter().enumerate() {
            self.add_cell(number, cell)?;
            self.end_group()?;
        }
        for leaf in 0..network.leaves() {
            if names_complement(synthesis, leaf) {
                self.add_complement(leaf)?;
                self.end_group()?;
            }
        }
        for (number, latch) in network.latches.iter().enumerate() {
            self.add_latch(number, latch.init)?;
            self.end_group()?;
        }
        Ok(())
    }

    /// What drives the sinks, whose nets are these.
    fn add_sinks(&mut self, synthesis: &Synthesis, nets: &[String]) -> Result<(), AllocError> {
        for (net, end) in nets.iter().zip(synthesis.forest.ends.iter()) {
            self.add_sink(&synthesis.cells, *end, net.as_str())?;
            self.end_group()?;
        }
        Ok(())
    }
}

/// All cards of a deck in order, of which each cell, complement, latch and inverter of a sink is a group.
pub fn grouped_cards(
    alloc: Global,
    network: &PlainNetwork,
    synthesis: &Synthesis,
) -> Result<GroupedCards, AllocError> {
    let nets = sink_nets(alloc, network)?;
    let mut cards = Cards::new(alloc, network)?;
    cards.add_groups(network, synthesis)?;
    cards.add_sinks(synthesis, &nets)?;
    let Cards { grouped, .. } = cards;
    Ok(grouped)
}

/// All cards of a deck in order: the cells, the complements, the latches and the inverters of the sinks.
pub fn cards_of(
    alloc: Global,
    network: &PlainNetwork,
    synthesis: &Synthesis,
) -> Result<Vec<Card>, AllocError> {
    let GroupedCards { cards, .. } = grouped_cards(alloc, network, synthesis)?;
    Ok(cards)
}

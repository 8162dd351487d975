//! The cases: generated networks, each with its gates, signs and forest, and those by plain functions.
use crate::texts::DrawnText;
use comparison::{Trouble, gates_of};
use dual_rail::{Forest, rails};
use gate_decompose::Gates;
use phase_assign::assign;
use plain_networks::{Sizes, drawn_network};
use plain_synthesis::{PlainForest, PlainGates, chosen_signs, forest_of};
use plain_texts::Draws;
use std::alloc::Global;

/// Both kinds of gates of a network.
#[derive(Drop)]
pub struct Case {
    gates: Gates,
    plain: PlainGates,
}

/// The forests of the chosen signs.
#[derive(Drop)]
pub struct Forests {
    pub forest: Forest,
    pub plain: PlainForest,
}

/// The sizes of a drawn network: small ones, in which constants and repeated inputs weigh more, and larger ones.
fn drawn_sizes(draws: &mut Draws) -> Sizes {
    if draws.below(4) == 0 {
        Sizes {
            inputs: 3,
            latches: 2,
            tables: 4,
            outputs: 3,
        }
    } else {
        Sizes {
            inputs: 6,
            latches: 3,
            tables: 10,
            outputs: 4,
        }
    }
}

/// The case of this number.
pub fn drawn_case(alloc: Global, number: u64) -> Result<Case, Trouble> {
    let mut draws = Draws::of_case(number);
    let sizes = drawn_sizes(&mut draws);
    let drawn = DrawnText::of(alloc, &drawn_network(alloc, &mut draws, sizes)?)?;
    let network = drawn.network(alloc)?;
    Ok(Case {
        gates: gates_of(alloc, drawn.text.as_str())?,
        plain: plain_synthesis::gates_of(alloc, &network)?,
    })
}

impl Case {
    /// The forests of the chosen signs, where these are alike.
    pub fn forests(&self, alloc: Global) -> Result<Option<Forests>, Trouble> {
        let signs = assign(alloc, &self.gates)?;
        let plain_signs = chosen_signs(alloc, &self.plain)?;
        if signs.as_slice() != plain_signs.as_slice() || signs.len() != self.gates.sinks.len() {
            return Ok(None);
        }
        Ok(Some(Forests {
            forest: rails(alloc, &self.gates, &signs)?,
            plain: forest_of(alloc, &self.plain, &plain_signs)?,
        }))
    }
}

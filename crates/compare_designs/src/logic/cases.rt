//! The comparison of gates and forests.
use crate::logic::networks::{flattened, plain_network};
use crate::logic::same::{same_forest, same_gates};
use comparison::Trouble;
use dual_rail::{rails, size};
use exact_phase::exact;
use gate_decompose::{Gates, decompose};
use plain_networks::{PlainNetwork, Sizes, drawn_network};
use plain_synthesis::{
    PlainGates, PlainRef, all_plus, chosen_signs, exact_signs, forest_of, gates_of, needed,
};
use plain_texts::Draws;
use std::alloc::{AllocError, Global};

/// The most sinks of which exact signs are sought.
const MOST_EXACT_SINKS: usize = 12;

/// How many networks, gate nodes, constant sinks, forests, pairs and exact signs were compared, how many of these need fewer pairs than
/// the chosen ones, and whether all were alike.
#[derive(Clone, Copy)]
pub struct Compared {
    pub networks: u64,
    pub nodes: u64,
    pub constants: u64,
    pub forests: u64,
    pub pairs: u64,
    pub exact: u64,
    pub fewer: u64,
    pub alike: bool,
}

impl Compared {
    /// Nothing yet.
    pub fn new() -> Compared {
        Compared {
            networks: 0,
            nodes: 0,
            constants: 0,
            forests: 0,
            pairs: 0,
            exact: 0,
            fewer: 0,
            alike: true,
        }
    }

    fn add_gates(&mut self, plain: &PlainGates, alike: bool) {
        let constants = plain.sinks.iter().filter(|sink| is_constant(sink)).count();
        self.networks = self.networks.saturating_add(1);
        self.nodes = self.nodes.saturating_add(plain.nodes.len() as u64);
        self.constants = self.constants.saturating_add(constants as u64);
        self.alike = self.alike && alike;
    }

    fn add_forest(&mut self, pairs: u64, alike: bool) {
        self.forests = self.forests.saturating_add(1);
        self.pairs = self.pairs.saturating_add(pairs);
        self.alike = self.alike && alike;
    }

    /// Compares the gates of a network, and its forests under four lists of signs.
    fn compare(
        &mut self,
        alloc: Global,
        draws: &mut Draws,
        drawn: &PlainNetwork,
    ) -> Result<(), Trouble> {
        let network = flattened(alloc, drawn)?;
        let gates = decompose(alloc, &network)?;
        let plain = gates_of(alloc, &plain_network(alloc, &network)?)?;
        self.add_gates(&plain, same_gates(&gates, &plain));
        self.compare_forest(alloc, &gates, &plain, &all_plus(alloc, &plain)?)?;
        let chosen = chosen_signs(alloc, &plain)?;
        self.compare_forest(alloc, &gates, &plain, &chosen)?;
        self.compare_exact(alloc, &gates, &plain, &chosen)?;
        for _ in 0..2u32 {
            let signs = drawn_signs(alloc, draws, plain.sinks.len())?;
            self.compare_forest(alloc, &gates, &plain, &signs)?;
        }
        Ok(())
    }

    /// Compares the exact signs of few sinks, and counts those that need fewer pairs than the chosen ones.
    fn compare_exact(
        &mut self,
        alloc: Global,
        gates: &Gates,
        plain: &PlainGates,
        chosen: &[bool],
    ) -> Result<(), Trouble> {
        let Some((signs, pairs)) = exact_signs(alloc, plain)? else {
            return Ok(())
        };
        if gates.sinks.len() > MOST_EXACT_SINKS {
            self.alike = false;
            return Ok(());
        }
        let found = exact(alloc, gates)?;
        let same = found.pairs == pairs as u64 && found.signs.as_slice() == signs.as_slice();
        self.exact = self.exact.saturating_add(1);
        self.alike = self.alike && same;
        if pairs < needed(alloc, plain, chosen)?.len() {
            self.fewer = self.fewer.saturating_add(1);
        }
        Ok(())
    }

    fn compare_forest(
        &mut self,
        alloc: Global,
        gates: &Gates,
        plain: &PlainGates,
        signs: &[bool],
    ) -> Result<(), Trouble> {
        if signs.len() != gates.sinks.len() {
            self.alike = false;
            return Ok(());
        }
        let forest = rails(alloc, gates, signs)?;
        let wanted = forest_of(alloc, plain, signs)?;
        let pairs = needed(alloc, plain, signs)?.len() as u64;
        self.add_forest(
            pairs,
            size(&forest) == pairs && same_forest(&forest, &wanted),
        );
        Ok(())
    }
}

fn is_constant(sink: &PlainRef) -> bool {
    *sink == PlainRef::Const(false) || *sink == PlainRef::Const(true)
}

fn drawn_signs(alloc: Global, draws: &mut Draws, sinks: usize) -> Result<Vec<bool>, AllocError> {
    let mut signs = Vec::new(alloc);
    for _ in 0..sinks {
        signs.push(draws.below(2) == 0)?;
    }
    Ok(signs)
}

/// Compares so many generated networks of at most these sizes.
pub fn compare_networks(alloc: Global, cases: u64, sizes: Sizes) -> Result<Compared, Trouble> {
    let mut compared = Compared::new();
    for case in 0..cases {
        let mut draws = Draws::of_case(case);
        let drawn = drawn_network(alloc, &mut draws, sizes)?;
        compared.compare(alloc, &mut draws, &drawn)?;
    }
    Ok(compared)
}

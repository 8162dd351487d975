//! The comparison of needed pairs, signs and values.
use comparison::Trouble;
use plain_networks::{Sizes, cycle, drawn_network, drawn_stream};
use plain_synthesis::{
    PlainForest, PlainGates, all_plus, are_settled, chosen_signs, end_value, forest_of, gates_of,
    least_size, needed, needed_by_sets, node_values, pair_values, ref_value, size,
};
use plain_texts::Draws;
use std::alloc::{AllocError, Global};

const SIZES: Sizes = Sizes {
    inputs: 3,
    latches: 2,
    tables: 4,
    outputs: 3,
};

/// The most pairs of gates of which all sets are tried.
const MOST_PAIRS: usize = 10;

/// How many values of the leaves are tried of each network.
const VALUES: usize = 8;

/// What came of a comparison: of how many networks all sets of pairs were tried, and of how many the chosen
/// signs need the least number of pairs over all signs; else the first case that differs.
#[derive(Clone, Copy)]
pub enum RailResult {
    Alike(u64, u64),
    Differ(u64),
}

/// Compares needed pairs, signs and values of so many generated networks.
pub fn rails(alloc: Global, cases: u64) -> Result<RailResult, Trouble> {
    let mut by_sets = 0u64;
    let mut least = 0u64;
    for number in 0..cases {
        let mut draws = Draws::of_case(number);
        let network = drawn_network(alloc, &mut draws, SIZES)?;
        let gates = gates_of(alloc, &network)?;
        let signs = chosen_signs(alloc, &gates)?;
        let forest = forest_of(alloc, &gates, &signs)?;
        let mut alike = are_settled(alloc, &gates, &signs)?;
        let own = size(alloc, &gates, &signs)?;
        alike = alike && own <= size(alloc, &gates, &all_plus(alloc, &gates)?)?;
        if least_size(alloc, &gates)? == Some(own) {
            least = least.saturating_add(1);
        }
        if let Some(set) = needed_by_sets(alloc, &gates, &signs, MOST_PAIRS)? {
            by_sets = by_sets.saturating_add(1);
            alike = alike && set.as_slice() == needed(alloc, &gates, &signs)?.as_slice();
        }
        for leaves in drawn_stream(alloc, &mut draws, gates.leaves, VALUES)?.iter() {
            let (pins, state) = leaves.split_at(network.inputs.min(leaves.len()));
            let Some(found) = cycle(alloc, &network, pins, state)? else {
                return Ok(RailResult::Differ(number));
            };
            let mut wanted = Vec::new(alloc);
            wanted.extend_from_slice(&found.outputs)?;
            wanted.extend_from_slice(&found.next)?;
            alike = alike && values_are_kept(alloc, &gates, &forest, leaves, &wanted)?;
        }
        if !alike {
            return Ok(RailResult::Differ(number));
        }
    }
    Ok(RailResult::Alike(by_sets, least))
}

/// Whether each pair has its node's value with its sign, and each sink has the wanted value, by its signal
/// and by its end.
fn values_are_kept(
    alloc: Global,
    gates: &PlainGates,
    forest: &PlainForest,
    leaves: &[bool],
    wanted: &[bool],
) -> Result<bool, AllocError> {
    let nodes = node_values(alloc, gates, leaves)?;
    let pairs = pair_values(alloc, forest, leaves)?;
    for (pair, value) in forest.pairs.iter().zip(pairs.iter()) {
        let node = nodes.get(pair.origin.node).copied().unwrap_or(false);
        if *value != (node == pair.origin.plus) {
            return Ok(false);
        }
    }
    for (sink, value) in gates.sinks.iter().zip(wanted.iter()) {
        if ref_value(*sink, leaves, &nodes) != *value {
            return Ok(false);
        }
    }
    for (end, value) in forest.ends.iter().zip(wanted.iter()) {
        if end_value(*end, leaves, &pairs) != *value {
            return Ok(false);
        }
    }
    Ok(gates.sinks.len() == wanted.len() && forest.ends.len() == wanted.len())
}

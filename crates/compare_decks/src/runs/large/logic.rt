//! The gates and the forests of networks: how many nodes and pairs they have.
use comparison::{Trouble, gates_of};
use dual_rail::{rails, size};
use std::alloc::Global;

/// How many nodes and pairs there are.
#[derive(Clone, Copy)]
pub struct Counts {
    pub nodes: u64,
    pub pairs: u64,
}

/// The counts of the network of a text under the sign minus for each sink.
pub fn counts_of(alloc: Global, text: &str) -> Result<Counts, Trouble> {
    let gates = gates_of(alloc, text)?;
    let signs = vec![in alloc; false; gates.sinks.len()]?;
    let forest = rails(alloc, &gates, &signs)?;
    Ok(Counts {
        nodes: gates.nodes.len() as u64,
        pairs: size(&forest),
    })
}

//! The chosen signs of the sinks of a network.
ghost use Rattle.std.specs.Prelude.{◌≡◌, IfOk, length};
ghost use Rattle.synth_flow.specs.ChosenForests.{IsChosenForest};

use dom_base::OutOfMemory;
use dual_rail::{Forest, rails};
use gate_decompose::decompose;
use network::Network;
use phase_assign::assign;
use std::alloc::Global;

/// The chosen signs of the sinks of a network, and the forest of its gates under them.
#[derive(Drop)]
pub struct ChosenForest {
    pub signs: Vec<bool>,
    pub forest: Forest,
}

/// The same, and how many nodes the gates have.
#[derive(Drop)]
pub struct CountedForest {
    pub chosen: ChosenForest,
    pub nodes: usize,
}

/// The chosen signs of the sinks of a network, the forest of its gates under them, and how many nodes the gates have. The
/// one error is out of memory.
pub fn counted_forest(alloc: Global, network: &Network) -> Result<CountedForest, OutOfMemory>
    ensures { IfOk result (λ counted. (is : IsChosenForest network.now counted.chosen.signs.items counted.chosen.forest)
        × (counted.nodes ≡ length is.gates.nodes)) }
{
    let gates = decompose(alloc, network)?;
    let signs = assign(alloc, &gates)?;
    let forest = rails(alloc, &gates, signs.as_slice())?;
    let nodes = gates.nodes.len();
    let chosen = ChosenForest { signs, forest };
    Ok(CountedForest { chosen, nodes })
}

/// The chosen signs of the sinks of a network, and the forest of its gates under them. The one error is out of
/// memory.
pub fn chosen_forest(alloc: Global, network: &Network) -> Result<ChosenForest, OutOfMemory>
    ensures { IfOk result (λ chosen. IsChosenForest network.now chosen.signs.items chosen.forest) }
{
    let CountedForest { chosen, nodes: _ } = counted_forest(alloc, network)?;
    Ok(chosen)
}

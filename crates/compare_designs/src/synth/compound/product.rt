//! The decks of the product.
use crate::synth::product::options_at;
use comparison::{Trouble, gates_of};
use compound_flow::synth_compound;
use compound_plan::CellPlan;
use dual_rail::rails;
use network::Network;
use phase_assign::assign;
use spice_text::write;
use std::alloc::Global;
use tree_map::map_compound;

/// The text of the deck of a network with compound cells, by the options of this number.
pub fn deck_text(alloc: Global, network: &Network, number: u32) -> Result<Vec<u8>, Trouble> {
    let options = options_at(number);
    let circuit = synth_compound(alloc, network, options.bounds, options.phases)?;
    Ok(write(alloc, &circuit)?)
}

/// Which of the cells of the chosen plan of a text's network, by the options of this number, are compound ones.
pub fn compound_marks(alloc: Global, text: &str, number: u32) -> Result<Vec<bool>, Trouble> {
    let gates = gates_of(alloc, text)?;
    let signs = assign(alloc, &gates)?;
    if signs.len() != gates.sinks.len() {
        return Err(Trouble::Refused);
    }
    let forest = rails(alloc, &gates, &signs)?;
    let mut marks = Vec::new(alloc);
    for plan in map_compound(alloc, &forest, options_at(number).bounds)?.iter() {
        let is_compound = match plan {
            CellPlan::Simple(_) => false,
            CellPlan::Compound { .. } => true,
        };
        marks.push(is_compound)?;
    }
    Ok(marks)
}

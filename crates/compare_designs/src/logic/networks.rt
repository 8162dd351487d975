//! Networks of generated ones, and their plain forms.
use crate::texts::DrawnText;
use blif_ast::Letter;
use comparison::{Trouble, network_of};
use net_flatten::{NetTable, Network};
use plain_networks::{PlainLatch, PlainNetwork, PlainTable};
use std::alloc::{AllocError, Global};

/// The network of the text of a generated one. Its tables stand in order of level.
pub fn flattened(alloc: Global, drawn: &PlainNetwork) -> Result<Network, Trouble> {
    let drawn = DrawnText::of(alloc, drawn)?;
    network_of(alloc, drawn.text.as_bytes())
}

fn letters(alloc: Global, row: &[Letter]) -> Result<Vec<u8>, AllocError> {
    let mut letters = Vec::new(alloc);
    for letter in row {
        letters.push(match letter {
            Letter::Zero => b'0',
            Letter::One => b'1',
            Letter::Any => b'-',
        })?;
    }
    Ok(letters)
}

/// Numbers as they index.
fn indices(alloc: Global, numbers: &[u32]) -> Result<Vec<usize>, AllocError> {
    let mut indices = Vec::new(alloc);
    for number in numbers {
        indices.push(*number as usize)?;
    }
    Ok(indices)
}

fn plain_table(alloc: Global, table: &NetTable<'_>) -> Result<PlainTable, AllocError> {
    let mut rows = Vec::new(alloc);
    for k in 0..table.rows.len() {
        rows.push(letters(alloc, table.rows.list(k))?)?;
    }
    Ok(PlainTable {
        inputs: indices(alloc, table.inputs)?,
        on: table.on,
        rows,
    })
}

/// The plain form of a network, without names.
pub fn plain_network(alloc: Global, network: &Network) -> Result<PlainNetwork, AllocError> {
    let mut latches = Vec::new(alloc);
    for latch in network.latches.iter() {
        latches.push(PlainLatch {
            input: latch.input as usize,
            init: latch.init,
        })?;
    }
    let mut tables = Vec::new(alloc);
    for k in 0..network.tables.len() {
        tables.push(plain_table(alloc, &network.tables.table(k))?)?;
    }
    Ok(PlainNetwork {
        name: String::from_str(alloc, "m")?,
        names: Vec::new(alloc),
        inputs: network.inputs as usize,
        outputs: indices(alloc, &network.outputs)?,
        latches,
        tables,
    })
}

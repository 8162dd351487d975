//! Generated networks.
use crate::network::{PlainLatch, PlainNetwork, PlainTable};
use plain_texts::Draws;
use std::alloc::{AllocError, Global};

/// The most of each that a generated network has.
#[derive(Clone, Copy)]
pub struct Sizes {
    pub inputs: usize,
    pub latches: usize,
    pub tables: usize,
    pub outputs: usize,
}

/// A generated network of at most these sizes, with at least one signal and one output.
pub fn drawn_network(
    alloc: Global,
    draws: &mut Draws,
    sizes: Sizes,
) -> Result<PlainNetwork, AllocError> {
    let inputs = draws.below(sizes.inputs).saturating_add(1);
    let latch_count = draws.below(sizes.latches.saturating_add(1));
    let table_count = draws.below(sizes.tables).saturating_add(1);
    let leaves = inputs.saturating_add(latch_count);
    let signals = leaves.saturating_add(table_count);
    let mut tables = Vec::new(alloc);
    for index in 0..table_count {
        tables.push(drawn_table(alloc, draws, leaves.saturating_add(index))?)?;
    }
    let mut latches = Vec::new(alloc);
    for _ in 0..latch_count {
        latches.push(PlainLatch {
            input: drawn_signal(draws, leaves, signals),
            init: draws.below(2) == 1,
        })?;
    }
    let outputs = drawn_outputs(alloc, draws, leaves, signals, sizes.outputs)?;
    Ok(PlainNetwork {
        name: String::from_str(alloc, "m")?,
        names: names(alloc, inputs, latch_count, table_count)?,
        inputs,
        outputs,
        latches,
        tables,
    })
}

/// A table over signals below this number, mostly of the last ones.
fn drawn_table(alloc: Global, draws: &mut Draws, below: usize) -> Result<PlainTable, AllocError> {
    let mut inputs = Vec::new(alloc);
    for _ in 0..draws.below(4).saturating_add(draws.below(2)) {
        let back = draws.below(below.min(6)).saturating_add(1);
        inputs.push(below.saturating_sub(back))?;
    }
    let row_count = if draws.below(12) == 0 {
        0
    } else {
        draws.below(3).saturating_add(1)
    };
    let mut rows = Vec::new(alloc);
    for _ in 0..row_count {
        let mut row = Vec::new(alloc);
        for _ in 0..inputs.len() {
            row.push(drawn_letter(draws))?;
        }
        rows.push(row)?;
    }
    Ok(PlainTable {
        inputs,
        on: rows.is_empty() || draws.below(3) > 0,
        rows,
    })
}

fn drawn_letter(draws: &mut Draws) -> u8 {
    match draws.below(5) {
        0 | 1 => b'0',
        2 | 3 => b'1',
        _ => b'-',
    }
}

/// Any signal, mostly one that is a table's.
fn drawn_signal(draws: &mut Draws, leaves: usize, signals: usize) -> usize {
    if draws.below(5) == 0 {
        draws.below(signals)
    } else {
        leaves.saturating_add(draws.below(signals.saturating_sub(leaves)))
    }
}

/// Different outputs, at least one and at most so many.
fn drawn_outputs(
    alloc: Global,
    draws: &mut Draws,
    leaves: usize,
    signals: usize,
    most: usize,
) -> Result<Vec<usize>, AllocError> {
    let mut outputs = Vec::new(alloc);
    for _ in 0..draws.below(most).saturating_add(1) {
        let signal = drawn_signal(draws, leaves, signals);
        if !outputs.contains(&signal) {
            outputs.push(signal)?;
        }
    }
    Ok(outputs)
}

/// Names of signals: `a`, `s` and `t` with numbers.
fn names(
    alloc: Global,
    inputs: usize,
    latches: usize,
    tables: usize,
) -> Result<Vec<String>, AllocError> {
    let mut names = Vec::new(alloc);
    for index in 0..inputs {
        names.push(format!(in alloc; "a{index}")?)?;
    }
    for index in 0..latches {
        names.push(format!(in alloc; "S_{index}")?)?;
    }
    for index in 0..tables {
        names.push(format!(in alloc; "t{index}")?)?;
    }
    Ok(names)
}

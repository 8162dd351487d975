//! Runs of networks: in each cycle the one valuation of all signals in which all tables hold at once.
use crate::network::{PlainNetwork, PlainTable};
use plain_texts::Draws;
use std::alloc::{AllocError, Global};

/// The values of the outputs in a cycle, and the state after it.
#[derive(Drop)]
pub struct PlainCycle {
    pub outputs: Vec<bool>,
    pub next: Vec<bool>,
}

/// The most tables of a network whose cycles are found: all values of all tables are tried.
const MOST_TABLES: usize = 12;

fn value_at(values: &[bool], signal: usize) -> bool {
    match values.get(signal) {
        Some(value) => *value,
        None => false,
    }
}

/// Whether each letter `1` of a row stands at an input that is 1, and each `0` at one that is 0.
fn matches(row: &[u8], inputs: &[usize], values: &[bool]) -> bool {
    for (index, letter) in row.iter().enumerate() {
        let Some(signal) = inputs.get(index) else {
            return false;
        };
        let value = value_at(values, *signal);
        if (*letter == b'1' && !value) || (*letter == b'0' && value) {
            return false;
        }
    }
    true
}

/// The value of a table where the signals have these values.
fn table_value(table: &PlainTable, values: &[bool]) -> bool {
    for row in table.rows.iter() {
        if matches(row, &table.inputs, values) {
            return table.on;
        }
    }
    !table.on
}

/// Whether each table's signal has the value of the table.
fn all_hold(network: &PlainNetwork, values: &[bool]) -> bool {
    let leaves = network.leaves();
    for (index, table) in network.tables.iter().enumerate() {
        if value_at(values, leaves.saturating_add(index)) != table_value(table, values) {
            return false;
        }
    }
    true
}

/// The values of all signals with these leaves, and the bits of a number at the tables.
fn with_bits(
    alloc: Global,
    leaves: &[bool],
    tables: usize,
    number: usize,
) -> Result<Vec<bool>, AllocError> {
    let mut values = Vec::new(alloc);
    for leaf in leaves {
        values.push(*leaf)?;
    }
    let mut rest = number;
    for _ in 0..tables {
        values.push(rest % 2 == 1)?;
        rest /= 2;
    }
    Ok(values)
}

/// All valuations with these pins and this state, found by trying all values of all tables.
fn valuations(
    alloc: Global,
    network: &PlainNetwork,
    leaves: &[bool],
) -> Result<Vec<Vec<bool>>, AllocError> {
    let mut all = Vec::new(alloc);
    let tables = network.tables.len().min(MOST_TABLES);
    let mut count = 1usize;
    for _ in 0..tables {
        count = count.saturating_mul(2);
    }
    for number in 0..count {
        let values = with_bits(alloc, leaves, tables, number)?;
        if all_hold(network, &values) {
            all.push(values)?;
        }
    }
    Ok(all)
}

/// The cycle with these pins from this state, where there is exactly one valuation of its signals.
pub fn cycle(
    alloc: Global,
    network: &PlainNetwork,
    pins: &[bool],
    state: &[bool],
) -> Result<Option<PlainCycle>, AllocError> {
    let mut leaves = Vec::new(alloc);
    leaves.extend_from_slice(pins)?;
    leaves.extend_from_slice(state)?;
    let all = valuations(alloc, network, &leaves)?;
    match all.as_slice() {
        [values] => {
            let mut outputs = Vec::new(alloc);
            for signal in network.outputs.iter() {
                outputs.push(value_at(values, *signal))?;
            }
            let mut next = Vec::new(alloc);
            for latch in network.latches.iter() {
                next.push(value_at(values, latch.input))?;
            }
            Ok(Some(PlainCycle { outputs, next }))
        }
        _ => Ok(None),
    }
}

/// The state before the first cycle.
pub fn start_state(alloc: Global, network: &PlainNetwork) -> Result<Vec<bool>, AllocError> {
    let mut state = Vec::new(alloc);
    for latch in network.latches.iter() {
        state.push(latch.init)?;
    }
    Ok(state)
}

/// Generated pins of so many cycles.
pub fn drawn_stream(
    alloc: Global,
    draws: &mut Draws,
    pins: usize,
    cycles: usize,
) -> Result<Vec<Vec<bool>>, AllocError> {
    let mut stream = Vec::new(alloc);
    for _ in 0..cycles {
        let mut bits = Vec::new(alloc);
        for _ in 0..pins {
            bits.push(draws.below(2) == 1)?;
        }
        stream.push(bits)?;
    }
    Ok(stream)
}

//! The network of a file that isn't refused, and the file of one model of a network.
use crate::counts::names_of;
use crate::expand::{Expansion, PlacedPart, Signal, expanded};
use crate::file::{CardBody, NamedLatch, NamedTable, PlainCard, PlainFile, PlainModel};
use crate::refuse::control_signal;
use plain_networks::{PlainLatch, PlainNetwork, PlainTable};
use std::alloc::{AllocError, Global};

/// A table at a path, with its level and the signal that it drives.
#[derive(Clone, Copy)]
struct Levelled {
    part: PlacedPart,
    output: Signal,
    level: usize,
}

fn table_at(file: &PlainFile, part: PlacedPart) -> Option<&NamedTable> {
    match &file.card(part.model, part.card)?.body {
        CardBody::Table(table) => Some(table),
        _ => None,
    }
}

fn latch_at(file: &PlainFile, part: PlacedPart) -> Option<NamedLatch> {
    match &file.card(part.model, part.card)?.body {
        CardBody::Latch(latch) => Some(*latch),
        _ => None,
    }
}

/// The level of a signal: that of the table that drives it, else 0.
fn level_of(tables: &[Levelled], signal: Signal) -> usize {
    for table in tables {
        if table.output == signal {
            return table.level;
        }
    }
    0
}

/// All tables in expanded order, each on the first level.
fn all_tables(
    alloc: Global,
    file: &PlainFile,
    expansion: &Expansion,
) -> Result<Vec<Levelled>, AllocError> {
    let mut tables = Vec::new(alloc);
    for part in expansion.parts.iter() {
        if let Some(table) = table_at(file, *part) {
            tables.push(Levelled {
                part: *part,
                output: expansion.signal(file, part.path, table.output),
                level: 1,
            })?;
        }
    }
    Ok(tables)
}

/// One more than the greatest level of what a table reads.
fn next_level(
    alloc: Global,
    file: &PlainFile,
    expansion: &Expansion,
    tables: &[Levelled],
    part: PlacedPart,
) -> Result<usize, AllocError> {
    let mut level = 0usize;
    for end in expansion.reads(alloc, file, part)?.iter() {
        level = level.max(level_of(tables, end.signal));
    }
    Ok(level.saturating_add(1))
}

/// These tables, each one level above the greatest of its inputs.
fn next_levels(
    alloc: Global,
    file: &PlainFile,
    expansion: &Expansion,
    tables: &[Levelled],
) -> Result<Vec<Levelled>, AllocError> {
    let mut next = Vec::new(alloc);
    for table in tables {
        let level = next_level(alloc, file, expansion, tables, table.part)?;
        next.push(Levelled { level, ..*table })?;
    }
    Ok(next)
}

/// All tables with their levels, in order of level and within a level in expanded order. A level is one more
/// than the greatest of the inputs.
fn tables_by_level(
    alloc: Global,
    file: &PlainFile,
    expansion: &Expansion,
) -> Result<Vec<Levelled>, AllocError> {
    let mut tables = all_tables(alloc, file, expansion)?;
    for _ in 0..tables.len() {
        tables = next_levels(alloc, file, expansion, &tables)?;
    }
    tables.sort_by_key(|table| table.level)?;
    Ok(tables)
}

/// The place of a signal among these.
fn number_of(signals: &[Signal], signal: Signal) -> usize {
    signals
        .iter()
        .position(|other| *other == signal)
        .unwrap_or(signals.len())
}

/// Whether a name is this prefix and then digits only, at least one.
fn is_numbered(prefix: &str, name: &str) -> bool {
    match name.as_bytes().strip_prefix(prefix.as_bytes()) {
        Some(digits) => !digits.is_empty() && digits.iter().all(|digit| digit.is_ascii_digit()),
        None => false,
    }
}

/// The least number of letters `w` that no name of the main model is followed by digits.
fn least_prefix(alloc: Global, file: &PlainFile) -> Result<String, AllocError> {
    let mut prefix = String::from_str(alloc, "w")?;
    if let Some(main) = file.models.first() {
        let names = names_of(alloc, main)?;
        lengthen(file, &names, &mut prefix)?;
    }
    Ok(prefix)
}

/// Adds letters `w` until none of these names is the prefix and digits.
fn lengthen(file: &PlainFile, names: &[usize], prefix: &mut String) -> Result<(), AllocError> {
    for _ in names {
        let used = names
            .iter()
            .any(|name| is_numbered(prefix.as_str(), file.name(*name)));
        if !used {
            break;
        }
        prefix.push_str("w")?;
    }
    Ok(())
}

/// The inputs of the main model without the control.
pub fn main_pins(
    alloc: Global,
    file: &PlainFile,
    expansion: &Expansion,
) -> Result<Vec<Signal>, AllocError> {
    let control = control_signal(file, expansion).map(|found| found.0);
    let mut pins = Vec::new(alloc);
    if let Some(main) = file.models.first() {
        for input in main.inputs.iter() {
            let signal = expansion.signal(file, 0, *input);
            if control != Some(signal) {
                pins.push(signal)?;
            }
        }
    }
    Ok(pins)
}

/// The network of a file that isn't refused.
pub fn network_of(alloc: Global, file: &PlainFile) -> Result<PlainNetwork, AllocError> {
    let expansion = expanded(alloc, file)?;
    let ordered = tables_by_level(alloc, file, &expansion)?;
    network_by(alloc, file, &expansion, &ordered)
}

/// The network of a file, by its expansion and its tables in order.
fn network_by(
    alloc: Global,
    file: &PlainFile,
    expansion: &Expansion,
    ordered: &[Levelled],
) -> Result<PlainNetwork, AllocError> {
    let mut network = PlainNetwork {
        name: String::new(alloc),
        names: Vec::new(alloc),
        inputs: 0,
        outputs: Vec::new(alloc),
        latches: Vec::new(alloc),
        tables: Vec::new(alloc),
    };
    add_all(alloc, file, expansion, ordered, &mut network)?;
    Ok(network)
}

/// Adds all that a network has.
fn add_all(
    alloc: Global,
    file: &PlainFile,
    expansion: &Expansion,
    ordered: &[Levelled],
    network: &mut PlainNetwork,
) -> Result<(), AllocError> {
    let mut signals = main_pins(alloc, file, expansion)?;
    network.inputs = signals.len();
    add_driven(file, expansion, ordered, &mut signals)?;
    add_parts(alloc, file, expansion, ordered, &signals, network)
}

/// Adds the signals that latches and tables drive.
fn add_driven(
    file: &PlainFile,
    expansion: &Expansion,
    ordered: &[Levelled],
    signals: &mut Vec<Signal>,
) -> Result<(), AllocError> {
    for part in expansion.parts.iter() {
        if let Some(latch) = latch_at(file, *part) {
            signals.push(expansion.signal(file, part.path, latch.output))?;
        }
    }
    for table in ordered {
        signals.push(table.output)?;
    }
    Ok(())
}

/// Adds the names, the outputs, the latches and the tables of a network of these signals.
fn add_parts(
    alloc: Global,
    file: &PlainFile,
    expansion: &Expansion,
    ordered: &[Levelled],
    signals: &[Signal],
    network: &mut PlainNetwork,
) -> Result<(), AllocError> {
    if let Some(main) = file.models.first() {
        network.name.push_str(file.name(main.name))?;
        for output in main.outputs.iter() {
            let signal = expansion.signal(file, 0, *output);
            network.outputs.push(number_of(signals, signal))?;
        }
    }
    add_names(alloc, file, signals, &mut network.names)?;
    add_latches(file, expansion, signals, &mut network.latches)?;
    for levelled in ordered {
        let inputs = inputs_of(alloc, file, expansion, levelled.part, signals)?;
        add_table(alloc, file, levelled.part, inputs, &mut network.tables)?;
    }
    Ok(())
}

fn add_names(
    alloc: Global,
    file: &PlainFile,
    signals: &[Signal],
    names: &mut Vec<String>,
) -> Result<(), AllocError> {
    let prefix = least_prefix(alloc, file)?;
    for (number, signal) in signals.iter().enumerate() {
        names.push(if signal.path == 0 {
            String::from_str(alloc, file.name(signal.name))?
        } else {
            format!(in alloc; "{prefix}{number}")?
        })?;
    }
    Ok(())
}

fn add_latches(
    file: &PlainFile,
    expansion: &Expansion,
    signals: &[Signal],
    latches: &mut Vec<PlainLatch>,
) -> Result<(), AllocError> {
    for part in expansion.parts.iter() {
        if let Some(latch) = latch_at(file, *part) {
            latches.push(PlainLatch {
                input: number_of(signals, expansion.signal(file, part.path, latch.input)),
                init: latch.init == 1,
            })?;
        }
    }
    Ok(())
}

/// The numbers of what a table reads.
fn inputs_of(
    alloc: Global,
    file: &PlainFile,
    expansion: &Expansion,
    part: PlacedPart,
    signals: &[Signal],
) -> Result<Vec<usize>, AllocError> {
    let mut inputs = Vec::new(alloc);
    for end in expansion.reads(alloc, file, part)?.iter() {
        inputs.push(number_of(signals, end.signal))?;
    }
    Ok(inputs)
}

/// Adds a table with these inputs.
fn add_table(
    alloc: Global,
    file: &PlainFile,
    part: PlacedPart,
    inputs: Vec<usize>,
    tables: &mut Vec<PlainTable>,
) -> Result<(), AllocError> {
    if let Some(table) = table_at(file, part) {
        tables.push(PlainTable {
            inputs,
            on: table.on,
            rows: copied(alloc, &table.rows)?,
        })?;
    }
    Ok(())
}

fn copied(alloc: Global, rows: &[Vec<u8>]) -> Result<Vec<Vec<u8>>, AllocError> {
    let mut all = Vec::new(alloc);
    for row in rows {
        all.push(row.to_vec(alloc)?)?;
    }
    Ok(all)
}

/// The file of one model of a network: its tables in order, and then its latches without a control.
pub fn one_model(alloc: Global, network: &PlainNetwork) -> Result<PlainFile, AllocError> {
    let mut file = PlainFile {
        names: Vec::new(alloc),
        models: Vec::new(alloc),
    };
    add_model(alloc, network, &mut file)?;
    Ok(file)
}

/// Adds the names and the one model of a network.
fn add_model(
    alloc: Global,
    network: &PlainNetwork,
    file: &mut PlainFile,
) -> Result<(), AllocError> {
    for name in network.names.iter() {
        file.names.push(name.clone()?)?;
    }
    file.names.push(network.name.clone()?)?;
    file.models
        .push(PlainModel::new(alloc, network.names.len()))?;
    if let Some(model) = file.models.last_mut() {
        add_ports(network, model)?;
        add_cards(alloc, network, &mut model.cards)?;
    }
    Ok(())
}

fn add_ports(network: &PlainNetwork, model: &mut PlainModel) -> Result<(), AllocError> {
    for input in 0..network.inputs {
        model.inputs.push(input)?;
    }
    model.outputs.extend_from_slice(&network.outputs)?;
    Ok(())
}

/// The table of this output.
fn named_table(alloc: Global, table: &PlainTable, output: usize) -> Result<NamedTable, AllocError> {
    Ok(NamedTable {
        inputs: table.inputs.to_vec(alloc)?,
        output,
        on: table.on,
        rows: copied(alloc, &table.rows)?,
    })
}

fn add_cards(
    alloc: Global,
    network: &PlainNetwork,
    cards: &mut Vec<PlainCard>,
) -> Result<(), AllocError> {
    for (index, table) in network.tables.iter().enumerate() {
        let output = network.leaves().saturating_add(index);
        let body = CardBody::Table(named_table(alloc, table, output)?);
        cards.push(PlainCard { line: 0, body })?;
    }
    for (index, latch) in network.latches.iter().enumerate() {
        let body = CardBody::Latch(NamedLatch {
            input: latch.input,
            output: network.inputs.saturating_add(index),
            control: None,
            init: if latch.init { 1 } else { 0 },
        });
        cards.push(PlainCard { line: 0, body })?;
    }
    Ok(())
}

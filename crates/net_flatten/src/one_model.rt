//! A network as a file of one model.
ghost use Rattle.std.specs.Prelude.{ℕ, ◌≡◌, ◌<◌, All, IfOk, Some, length, map, slice_get, take};
ghost use Rattle.std.specs.List.{enumerate_from};
ghost use Rattle.blif_ast.specs.Good.{IsGoodFile};
ghost use Rattle.network.specs.declared.network.NetLatch.{NetLatch};
ghost use Rattle.network.specs.NetworkData.{NetTableData};
ghost use Rattle.network.specs.Networks.{IsNetwork};
ghost use Rattle.net_flatten.specs.OneModel.{file_of, latch_at, name_at, table_at};
ghost use Rattle.model_calls.specs.Refusal.{Refusal};
ghost use Rattle.model_calls.specs.Refusals.{HasRefusal};

use blif_ast::{BlifFile, BlifModel, InputNames, Latch, Letters, Row, Rows, Table};
use dom_base::{Name, OutOfMemory};
use network::{Network, TableRows};
use std::alloc::Global;

/// The file of one model that has the network's inputs, outputs, tables in order and untyped latches. It is
/// refused for nothing, and its network has the same runs.
pub fn to_file(alloc: Global, network: &Network) -> Result<BlifFile, OutOfMemory>
    ensures file { IfOk result (λ file. file ≡ file_of network.now) }
    ensures good { IfOk result IsGoodFile }
    ensures accepted { IfOk result (λ file. (r : Refusal) → HasRefusal file r → ⊥) }
{
    let models = vec![in alloc; model_of(alloc, network)?]?;
    Ok(BlifFile { models })
}

fn model_of(alloc: Global, network: &Network) -> Result<BlifModel, OutOfMemory>
    ensures model { IfOk result (λ model. slice_get (file_of network.now).models 0 ≡ Some model) }
    ensures network { IsNetwork network.now }
{
    Ok(BlifModel {
        name: network.name.clone()?,
        inputs: names_of_inputs(alloc, network)?,
        outputs: names_of(alloc, network, &network.outputs)?,
        tables: tables_of(alloc, network)?,
        latches: latches_of(alloc, network)?,
        instances: Vec::new(alloc),
        line: 1,
    })
}

/// The names of the inputs.
pub fn names_of_inputs(alloc: Global, network: &Network) -> Result<Vec<Name>, OutOfMemory>
    ensures { IfOk result (λ names. names.items ≡ take network.now.inputs network.now.names) }
{
    let mut names = Vec::with_capacity(alloc, network.inputs as usize)?;
    for k in 0..network.inputs as usize {
        names.push(name_of(alloc, network, k)?)?;
    }
    Ok(names)
}

/// The names of the signals of these numbers.
pub fn names_of(alloc: Global, network: &Network, signals: &[u32]) -> Result<Vec<Name>, OutOfMemory>
    requires { All (λ signal. signal < length network.now.names) signals.now }
    ensures { IfOk result (λ names. names.items ≡ map (name_at network.now) signals.now) }
{
    let mut names = Vec::with_capacity(alloc, signals.len())?;
    for signal in signals {
        names.push(name_of(alloc, network, *signal as usize)?)?;
    }
    Ok(names)
}

/// The names of the signals of these numbers, as a table reads them.
fn names_read(alloc: Global, network: &Network, signals: &[u32]) -> Result<InputNames, OutOfMemory>
    requires { All (λ signal. signal < length network.now.names) signals.now }
    ensures { IfOk result (λ names. names.items ≡ map (name_at network.now) signals.now) }
{
    let mut names = InputNames::with_capacity(alloc, signals.len())?;
    for signal in signals {
        names.push(name_of(alloc, network, *signal as usize)?)?;
    }
    Ok(names)
}

/// The name of the signal of a number.
fn name_of(alloc: Global, network: &Network, signal: usize) -> Result<Name, OutOfMemory>
    requires { signal < length network.now.names }
    ensures { IfOk result (λ name. name ≡ name_at network.now signal) }
{
    Name::from_bytes(alloc, network.names.list(signal))
}

fn tables_of(alloc: Global, network: &Network) -> Result<Vec<Table>, OutOfMemory>
    ensures { IfOk result (λ tables.
        tables.items ≡ map (λ (p : ℕ × NetTableData). table_at network.now p.0 p.1) (enumerate_from 0 network.now.tables)) }
{
    let mut tables = Vec::with_capacity(alloc, network.tables.len())?;
    for k in 0..network.tables.len() {
        tables.push(table_of(alloc, network, k)?)?;
    }
    Ok(tables)
}

/// The table at this place.
fn table_of(alloc: Global, network: &Network, k: usize) -> Result<Table, OutOfMemory>
    requires { k < length network.now.tables }
    ensures { IfOk result (λ table. (t : NetTableData) → slice_get network.now.tables k ≡ Some t → table ≡ table_at network.now k t) }
{
    let table = network.tables.table(k);
    let first = network.inputs as usize + network.latches.len();
    Ok(Table {
        inputs: names_read(alloc, network, table.inputs)?,
        output: name_of(alloc, network, first + k)?,
        on: table.on,
        rows: copies(alloc, &table.rows)?,
        line: 2 + k as u64,
    })
}

/// Copies of rows.
fn copies(alloc: Global, rows: &TableRows<'_>) -> Result<Rows, OutOfMemory>
    ensures { IfOk result (λ copies. copies.items ≡ rows.now) }
{
    let mut copies = Rows::with_capacity(alloc, rows.len())?;
    for k in 0..rows.len() {
        let letters = Letters::from_slice(alloc, rows.list(k))?;
        copies.push(Row { letters })?;
    }
    Ok(copies)
}

/// The latches of the file.
pub fn latches_of(alloc: Global, network: &Network) -> Result<Vec<Latch>, OutOfMemory>
    ensures { IfOk result (λ latches.
        latches.items ≡ map (λ (p : ℕ × NetLatch). latch_at network.now p.0 p.1) (enumerate_from 0 network.now.latches)) }
{
    let mut latches = Vec::with_capacity(alloc, network.latches.len())?;
    for k in 0..network.latches.len() {
        latches.push(latch_of(alloc, network, k)?)?;
    }
    Ok(latches)
}

/// The latch at this place.
fn latch_of(alloc: Global, network: &Network, k: usize) -> Result<Latch, OutOfMemory>
    requires { k < length network.now.latches }
    ensures { IfOk result (λ latch. (l : NetLatch) → slice_get network.now.latches k ≡ Some l → latch ≡ latch_at network.now k l) }
{
    let latch = network.latches[k];
    Ok(Latch {
        input: name_of(alloc, network, latch.input as usize)?,
        output: name_of(alloc, network, network.inputs as usize + k)?,
        control: None,
        init: if latch.init { 1 } else { 0 },
        line: 2 + network.tables.len() as u64 + k as u64,
    })
}

//! The network that is generated from a seed.
ghost use Rattle.std.specs.Prelude.{◌≡◌, ◌≤◌, ◌-◌, min, IfOk, map};
ghost use Rattle.std.specs.List.{range_with_len};
ghost use Rattle.net_gen.specs.Generated.{generated_latch, generated_network, generated_table, latch_count, table_signal};

use crate::draws::Draws;
use crate::names::names_of;
use crate::table::push_table;
use dom_base::{Name, OutOfMemory};
use net_flatten::{NetLatch, NetTables, Network};
use std::alloc::Global;

/// How many inputs there are, how many tables there are for each latch, and how many outputs at most.
const EACH: u32 = 16;

/// The outputs: the last 16 of so many tables, or all.
fn outputs_of(alloc: Global, tables: u32) -> Result<Vec<u32>, OutOfMemory>
    requires few { tables ≤ 30000 }
    ensures { IfOk result (λ outputs. outputs.items ≡ map (table_signal tables) (range_with_len (tables - 16) (min tables 16))) }
{
    let first = EACH + tables / EACH + tables.saturating_sub(EACH);
    let mut outputs = Vec::new(alloc);
    'outputs: for k in 0..tables.min(EACH) {
        outputs.push(first + k)?;
    }
    Ok(outputs)
}

/// The latches: one for each 16 tables.
fn latches_of(alloc: Global, tables: u32) -> Result<Vec<NetLatch>, OutOfMemory>
    requires few { tables ≤ 30000 }
    ensures { IfOk result (λ latches. latches.items ≡ map (generated_latch tables) (range_with_len 0 (latch_count tables))) }
{
    let first = EACH + tables / EACH;
    let mut latches = Vec::new(alloc);
    'latches: for latch in 0..tables / EACH {
        latches.push(NetLatch {
            input: first + EACH * latch,
            init: false,
        })?;
    }
    Ok(latches)
}

/// The tables, each by ten draws.
fn tables_of(alloc: Global, seed: u64, tables: u32) -> Result<NetTables, OutOfMemory>
    requires few { tables ≤ 30000 }
    ensures { IfOk result (λ all. all ≡ map (generated_table seed tables) (range_with_len 0 tables)) }
{
    let first = EACH + tables / EACH;
    let mut draws = Draws::new(seed);
    let mut all = NetTables::new(alloc);
    'tables: for table in 0..tables {
        push_table(&mut all, alloc, &mut draws, first + table)?;
    }
    Ok(all)
}

/// The network of a seed with so many tables, 1 to 30,000: 16 inputs, a latch for each 16 tables, and as
/// outputs the last 16 tables, or all. The one error is out of memory.
pub fn network_of(alloc: Global, seed: u64, tables: u32) -> Result<Network, OutOfMemory>
    requires some { 1 ≤ tables }
    requires few { tables ≤ 30000 }
    ensures { IfOk result (λ network. network ≡ generated_network seed tables) }
{
    Ok(Network {
        name: Name::from_bytes(alloc, b"gen")?,
        names: names_of(alloc, tables)?,
        inputs: EACH,
        outputs: outputs_of(alloc, tables)?,
        latches: latches_of(alloc, tables)?,
        tables: tables_of(alloc, seed, tables)?,
    })
}

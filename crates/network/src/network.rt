//! Networks.
use crate::list_pool::ListPool;
use crate::net_tables::NetTables;
use dom_base::Name;
use smallvec::SmallVec;
use std::marker::Model;

/// The numbers of the signals that a table or a latch reads. There is room for 4 within it; more stand in an allocation.
pub type Reads = SmallVec<u32, 4>;

/// A latch of a network: the number of the signal at its input, and its start value.
#[derive(Clone, Copy)]
pub struct NetLatch {
    pub input: u32,
    pub init: bool,
}

/// The network of a file of BLIF: the tables and latches at all paths of its instances as one list.
/// Signals are numbered: inputs first, then latch outputs, then table outputs. `names` has one name
/// per signal; they all differ, and each can stand as a word of a line of text. `inputs` is how many
/// signals are inputs, and `outputs` has the numbers of those that are outputs, each once.
///
/// A table reads only signals with smaller numbers than its own. There are at most 200,000 signals,
/// 400,000 letters, `(inputs + 1) * (rows + 1)` for each table, of at most 4,096 inputs each, and 8,192
/// outputs and latches.
#[derive(Drop)]
pub struct Network {
    pub name: Name,
    pub names: ListPool<u8>,
    pub inputs: u32,
    pub outputs: Vec<u32>,
    pub latches: Vec<NetLatch>,
    pub tables: NetTables,
}

impl Model for Network {
    ghost use Rattle.network.specs.NetworkData.{NetworkData};
    ghost use Rattle.network.specs.Networks.{IsNetwork};

    ghost Value = { NetworkData };

    ghost view = { λ n. record { name = n.name; names = n.names; inputs = n.inputs; outputs = n.outputs.items; latches = n.latches.items; tables = n.tables } };

    ghost invariant = { λ n. IsNetwork (record { name = n.name; names = n.names; inputs = n.inputs; outputs = n.outputs.items; latches = n.latches.items; tables = n.tables }) };
}

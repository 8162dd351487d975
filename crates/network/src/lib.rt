//! Networks of tables and latches, by the numbers of their signals; how large one may be.
#![tactic(auto)]

mod list_pool;
mod net_tables;
mod network;

pub use list_pool::{LentLists, ListAt, ListPool};
pub use net_tables::{NetTable, NetTables, RowsInText, TableAt, TableRows};
pub use network::{NetLatch, Network, Reads};

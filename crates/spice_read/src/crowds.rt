//! How crowded the names of a deck are.
use crate::recent_nets::RecentNets;
use dom_base::{Crowd, NameHash};
use std::alloc::Global;

/// The names of the subcircuits that were closed, and the nets of the one that is read or expanded, and those of them that
/// were named of late.
#[derive(Drop)]
pub struct Crowds {
    pub units: Crowd,
    pub nets: Crowd,
    pub recent: RecentNets,
}

impl Crowds {
    /// For names that are hashed so.
    pub fn new(alloc: Global, hash: NameHash) -> Crowds {
        Crowds {
            units: Crowd::new(alloc, hash),
            nets: Crowd::new(alloc, hash),
            recent: RecentNets::new(alloc),
        }
    }

    /// Whether so many names met that they are to be hashed with a key.
    pub fn are_crowded(&self) -> bool {
        self.units.is_crowded() || self.nets.is_crowded()
    }
}

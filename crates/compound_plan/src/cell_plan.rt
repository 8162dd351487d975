//! What a simple or a compound cell is made of.

use dom_base::ToVss;
use sp_network::{GatePlan, Sp};

/// A simple cell, or a compound one: its left and its right pull-down tree, and the number of their clock, from 1. Gates
/// of leaves are numbered as those of a simple cell.
#[derive(Drop)]
pub enum CellPlan {
    Simple(GatePlan),
    Compound {
        left: Sp<ToVss>,
        right: Sp<ToVss>,
        clock: u8,
    },
}

//! Plans of domino cells.
use crate::Sp;
use dom_base::ToVss;

/// What a domino cell is made of: its pull-down tree, and the number of its clock, from 1. A leaf's
/// gate is `2 * leaf` for the plus rail of a leaf of the network, `2 * leaf + 1` for its minus rail,
/// and `2 * leaves + k` for the output of cell k, where the network has so many leaves.
#[derive(Drop)]
pub struct GatePlan {
    pub tree: Sp<ToVss>,
    pub clock: u8,
}

//! The pending nets of a cell that were worked by hand.

use crate::targets::links_with_values;
use comparison::AND_DECK;
use deck::Circuit;
use pending_nets::Pending;
use spice_read::read;
use std::alloc::{AllocError, Global};
use std::process::Abort;
use std::test::Fail;

/// The numbers of pending nets.
fn numbers_of(alloc: Global, pending: &Pending) -> Result<Vec<u32>, AllocError> {
    let mut numbers = Vec::new(alloc);
    for place in 0..pending.count() {
        numbers.push(pending.nth(place))?;
    }
    Ok(numbers)
}

/// The numbers of the nets of a circuit that are pending at these values.
fn pending_at(
    rt: &impl Abort,
    alloc: Global,
    circuit: &Circuit,
    values: &str,
) -> Result<Vec<u32>, Fail> {
    let (mut links, values) = links_with_values(rt, alloc, circuit, values)?;
    let pending = links.pending(&values)?;
    Ok(numbers_of(alloc, &pending)?)
}

/// States of the cell, with the values of its nets and the numbers of those that are pending.
const PENDING: &[(&str, &str, &[u32])] = &[
    ("power", "10001011000XXXXX", &[12]),
    ("precharge", "10001010100010XX", &[]),
    ("an unknown keeper", "1010101011001X10", &[12, 13, 14]),
];

/// The smallest cell: in power `d0` alone, which is net 12; none at rest after precharge; three where the keeper is
/// unknown.
#[test]
fn pending_nets_of_a_cell(rt: HostRuntime) -> Result<(), Fail> {
    let alloc = rt.alloc();
    let circuit = read(alloc, AND_DECK)?;
    for (what, values, want) in PENDING {
        let found = pending_at(&rt, alloc, &circuit, values)?;
        assert!(rt; found.as_slice() == *want, "at {what}");
    }
    Ok(())
}

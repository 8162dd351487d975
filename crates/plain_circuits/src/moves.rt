//! The moves of the sources: power, and then each cycle.
use crate::sample::Sample;
use dom_base::Tri;
use std::alloc::{AllocError, Global};

/// Sources that change together, after which the circuit settles. Power is period 0, and cycle C is
/// period C + 1. After some moves the outputs are read.
#[derive(Drop)]
pub struct Move {
    pub period: usize,
    pub changes: Vec<(usize, Tri)>,
    pub read: bool,
}

/// All moves of power and of these cycles, in order.
pub fn all_moves(
    alloc: Global,
    sample: &Sample,
    cycles: &[Vec<bool>],
) -> Result<Vec<Move>, AllocError> {
    let reset = sample.first_latch_port().saturating_add(4);
    let mut moves = Vec::new(alloc);
    add(&mut moves, 0, Vec::new(alloc))?;
    add(&mut moves, 0, pair(alloc, reset, Tri::Zero)?)?;
    for (cycle, pins) in cycles.iter().enumerate() {
        let period = cycle.saturating_add(1);
        add_evaluation(alloc, sample, period, pins, &mut moves)?;
        add_latching(alloc, sample, period, &mut moves)?;
    }
    Ok(moves)
}

/// The pins are set, and the clocks rise one after the other.
fn add_evaluation(
    alloc: Global,
    sample: &Sample,
    period: usize,
    pins: &[bool],
    moves: &mut Vec<Move>,
) -> Result<(), AllocError> {
    let mut changes = Vec::new(alloc);
    for (pin, high) in pins.iter().enumerate() {
        let value = if *high { Tri::One } else { Tri::Zero };
        changes.push((sample.first_pin().saturating_add(pin), value))?;
    }
    add(moves, period, changes)?;
    for clock in 0..sample.clocks {
        let net = clock.saturating_add(2);
        moves.push(Move {
            period,
            changes: vec![in alloc; (net, Tri::One)]?,
            read: net.saturating_add(1) == sample.first_latch_port(),
        })?;
    }
    Ok(())
}

/// The masters open and close, the clocks fall together, and the slaves open and close.
fn add_latching(
    alloc: Global,
    sample: &Sample,
    period: usize,
    moves: &mut Vec<Move>,
) -> Result<(), AllocError> {
    let masters = sample.first_latch_port();
    let slaves = masters.saturating_add(2);
    add(moves, period, pair(alloc, masters, Tri::One)?)?;
    add(moves, period, pair(alloc, masters, Tri::Zero)?)?;
    let mut falls = Vec::new(alloc);
    for clock in 0..sample.clocks {
        falls.push((clock.saturating_add(2), Tri::Zero))?;
    }
    add(moves, period, falls)?;
    add(moves, period, pair(alloc, slaves, Tri::One)?)?;
    add(moves, period, pair(alloc, slaves, Tri::Zero)?)
}

/// Adds a move after which nothing is read.
fn add(moves: &mut Vec<Move>, period: usize, changes: Vec<(usize, Tri)>) -> Result<(), AllocError> {
    moves.push(Move {
        period,
        changes,
        read: false,
    })?;
    Ok(())
}

/// A source takes a value, and the next one the other value.
fn pair(alloc: Global, net: usize, value: Tri) -> Result<Vec<(usize, Tri)>, AllocError> {
    let next = net.saturating_add(1);
    Ok(vec![in alloc; (net, value), (next, value.not())]?)
}

//! Known parts of circuits, to which generated transistors are added.
use crate::sample::{Sample, Transistor};
use dom_base::Kind;
use plain_texts::Draws;
use std::alloc::{AllocError, Global};

/// How many nets of its own a part may have.
pub const MOST_NETS: usize = 3;

/// The parts: a ring of one gate that is held still for a time, a domino cell, and one half of a latch.
#[derive(Clone, Copy)]
pub enum Start {
    Nothing,
    Ring,
    Cell,
    Latch,
}

/// The transistors of a part whose own nets have numbers from this one on.
pub fn started(
    alloc: Global,
    sample: &Sample,
    draws: &mut Draws,
    start: Start,
    net: usize,
) -> Result<Vec<Transistor>, AllocError> {
    let others = (net.saturating_add(1), net.saturating_add(2));
    match start {
        Start::Nothing => Ok(Vec::new(alloc)),
        Start::Ring => ring(alloc, holding(sample, draws), net, others.0),
        Start::Cell => cell(alloc, sample, [net, others.0, others.1]),
        Start::Latch => latch(alloc, sample, [net, others.0, others.1]),
    }
}

/// The source that holds a ring still where it is One: `rs`, `lmb`, `lsb`, `ck1` or the first pin.
fn holding(sample: &Sample, draws: &mut Draws) -> usize {
    let first = sample.first_latch_port();
    match draws.below(5) {
        0 => first.saturating_add(4),
        1 => first.saturating_add(1),
        2 => first.saturating_add(3),
        3 => 2,
        _ => {
            if sample.pins == 0 {
                2
            } else {
                sample.first_pin()
            }
        }
    }
}

/// A Nor of the holding net and its own output.
fn ring(
    alloc: Global,
    holding: usize,
    output: usize,
    inner: usize,
) -> Result<Vec<Transistor>, AllocError> {
    Ok(vec![in alloc;
        Transistor::new(Kind::P, output, output, inner),
        Transistor::new(Kind::P, inner, holding, 0),
        Transistor::new(Kind::N, output, output, 1),
        Transistor::new(Kind::N, output, holding, 1),
    ]?)
}

/// A domino cell of the first pin, or of `rsb`; its output is the first output, if there is one.
fn cell(alloc: Global, sample: &Sample, nets: [usize; 3]) -> Result<Vec<Transistor>, AllocError> {
    let [dynamic, foot, inner] = nets;
    let input = if sample.pins == 0 {
        sample.first_latch_port().saturating_add(5)
    } else {
        sample.first_pin()
    };
    let output = if sample.outs == 0 {
        inner
    } else {
        sample.sources()
    };
    Ok(vec![in alloc;
        Transistor::new(Kind::P, dynamic, 2, 0),
        Transistor::new(Kind::Keep, dynamic, output, 0),
        Transistor::new(Kind::N, dynamic, input, foot),
        Transistor::new(Kind::N, foot, 2, 1),
        Transistor::new(Kind::P, output, dynamic, 0),
        Transistor::new(Kind::N, output, dynamic, 1),
    ]?)
}

/// The half of a latch that `lm` opens; its input is the first pin or `ck1`, and its output the last
/// output, if there is one.
fn latch(alloc: Global, sample: &Sample, nets: [usize; 3]) -> Result<Vec<Transistor>, AllocError> {
    let [inner, upper, lower] = nets;
    let master = sample.first_latch_port();
    let input = if sample.pins == 0 {
        2
    } else {
        sample.first_pin()
    };
    let output = if sample.outs == 0 {
        inner
    } else {
        sample.ports().saturating_sub(1)
    };
    Ok(vec![in alloc;
        Transistor::new(Kind::P, output, master.saturating_add(1), upper),
        Transistor::new(Kind::P, upper, input, 0),
        Transistor::new(Kind::N, output, master, lower),
        Transistor::new(Kind::N, lower, input, 1),
    ]?)
}

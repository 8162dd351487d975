//! A run, step by step.
use crate::moves::Move;
use crate::paths::{target, value_of};
use crate::sample::Sample;
use dom_base::Tri;
use std::alloc::{AllocError, Global};

/// A net takes its target in a period.
#[derive(Clone, Copy)]
pub struct Taken {
    pub period: usize,
    pub net: usize,
    pub before: Tri,
    pub after: Tri,
}

/// A settling that ended without rest, in a period and after so many events.
#[derive(Clone, Copy)]
pub struct Unsettled {
    pub period: usize,
    pub events: usize,
}

/// A whole run: its events, the outputs that were read, cycle by cycle, and whether it ended unsettled.
#[derive(Drop)]
pub struct Run {
    pub events: Vec<Taken>,
    pub reads: Vec<Vec<Tri>>,
    pub unsettled: Option<Unsettled>,
}

/// An order of events: the pending net of the least number comes first, or that of the greatest, or one
/// that a seed gives.
#[derive(Clone, Copy)]
pub enum PlainOrder {
    First,
    Last,
    Seed(u64),
}

impl PlainOrder {
    /// The index among so many pending nets at a step.
    fn index(self, step: usize, count: usize) -> usize {
        match self {
            PlainOrder::First => 0,
            PlainOrder::Last => count.saturating_sub(1),
            PlainOrder::Seed(seed) => {
                let mixed = (step as u64)
                    .wrapping_mul(6_364_136_223_846_793_005)
                    .wrapping_add(seed)
                    .wrapping_add(1_442_695_040_888_963_407);
                let high = (mixed / 8_589_934_592) as usize;
                high.checked_rem(count).unwrap_or(0)
            }
        }
    }
}

/// The run over these moves, from the power state up to one that ends without rest.
pub fn played(
    alloc: Global,
    sample: &Sample,
    moves: &[Move],
    order: PlainOrder,
) -> Result<Run, AllocError> {
    let mut values = power_values(alloc, sample)?;
    let mut run = Run {
        events: Vec::new(alloc),
        reads: Vec::new(alloc),
        unsettled: None,
    };
    for step in moves {
        for (net, value) in &step.changes {
            set(&mut values, *net, *value);
        }
        run.unsettled = settled(
            alloc,
            sample,
            &mut values,
            step.period,
            order,
            &mut run.events,
        )?;
        if run.unsettled.is_some() {
            return Ok(run);
        }
        if step.read {
            run.reads.push(outputs(alloc, sample, &values)?)?;
        }
    }
    Ok(run)
}

/// Settles. Where the most events were done and there is no rest, it answers so.
fn settled(
    alloc: Global,
    sample: &Sample,
    values: &mut Vec<Tri>,
    period: usize,
    order: PlainOrder,
    events: &mut Vec<Taken>,
) -> Result<Option<Unsettled>, AllocError> {
    let more = sample
        .names
        .len()
        .saturating_sub(sample.sources())
        .saturating_add(1);
    let most = more.saturating_mul(more);
    for _ in 0..most {
        let pending = pending(alloc, sample, values, period)?;
        let index = order.index(events.len(), pending.len());
        match pending.get(index) {
            Some(taken) => {
                set(values, taken.net, taken.after);
                events.push(*taken)?;
            }
            None => return Ok(None),
        }
    }
    if pending(alloc, sample, values, period)?.is_empty() {
        return Ok(None);
    }
    Ok(Some(Unsettled {
        period,
        events: most,
    }))
}

/// The nets that differ from their targets, by rising number, as the events in which they take them.
fn pending(
    alloc: Global,
    sample: &Sample,
    values: &[Tri],
    period: usize,
) -> Result<Vec<Taken>, AllocError> {
    let mut pending = Vec::new(alloc);
    for net in sample.sources()..values.len() {
        let before = value_of(values, net);
        let after = target(alloc, sample, values, net)?;
        if before != after {
            pending.push(Taken {
                period,
                net,
                before,
                after,
            })?;
        }
    }
    Ok(pending)
}

/// The values at power on: only the sources are known.
fn power_values(alloc: Global, sample: &Sample) -> Result<Vec<Tri>, AllocError> {
    let mut values = Vec::new(alloc);
    for _ in 0..sample.names.len() {
        values.push(Tri::Unknown)?;
    }
    for net in 0..sample.sources() {
        set(&mut values, net, Tri::Zero);
    }
    set(&mut values, 0, Tri::One);
    let first = sample.first_latch_port();
    for port in [1, 3, 4] {
        set(&mut values, first.saturating_add(port), Tri::One);
    }
    Ok(values)
}

fn set(values: &mut [Tri], net: usize, value: Tri) {
    if let Some(slot) = values.get_mut(net) {
        *slot = value;
    }
}

/// The values of the outputs.
fn outputs(alloc: Global, sample: &Sample, values: &[Tri]) -> Result<Vec<Tri>, AllocError> {
    let mut outputs = Vec::new(alloc);
    for net in sample.sources()..sample.ports() {
        outputs.push(value_of(values, net))?;
    }
    Ok(outputs)
}

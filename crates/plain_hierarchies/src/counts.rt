//! What a file has how many of, over all paths of instances.
use crate::file::{CardBody, PlainFile, PlainModel};
use std::alloc::{AllocError, Global};

/// What there can be too many of.
#[derive(Clone, Copy, PartialEq, Eq)]
pub enum Counted {
    Signals,
    Instances,
    Letters,
    Sinks,
}

impl Counted {
    /// The most that there may be.
    fn most(self) -> u64 {
        match self {
            Counted::Signals | Counted::Instances => 200_000,
            Counted::Letters => 400_000,
            Counted::Sinks => 8_192,
        }
    }

    /// How many a model has of its own.
    fn own(self, alloc: Global, model: &PlainModel) -> Result<u64, AllocError> {
        match self {
            Counted::Signals => Ok(names_of(alloc, model)?.len() as u64),
            Counted::Instances => Ok(1),
            Counted::Letters => Ok(letters(model)),
            Counted::Sinks => Ok(latches(model)),
        }
    }
}

/// The letters of a model's tables: one more than the inputs times one more than the rows, for each.
fn letters(model: &PlainModel) -> u64 {
    let mut count = 0u64;
    for card in model.cards.iter() {
        if let CardBody::Table(table) = &card.body {
            let columns = (table.inputs.len() as u64).saturating_add(1);
            let rows = (table.rows.len() as u64).saturating_add(1);
            count = count.saturating_add(columns.saturating_mul(rows));
        }
    }
    count
}

fn latches(model: &PlainModel) -> u64 {
    let mut count = 0u64;
    for card in model.cards.iter() {
        if let CardBody::Latch(_) = &card.body {
            count = count.saturating_add(1);
        }
    }
    count
}

/// Adds a name that is new.
fn add_name(names: &mut Vec<usize>, name: usize) -> Result<(), AllocError> {
    if !names.contains(&name) {
        names.push(name)?;
    }
    Ok(())
}

/// The different names of signals that occur in a model.
pub fn names_of(alloc: Global, model: &PlainModel) -> Result<Vec<usize>, AllocError> {
    let mut names = Vec::new(alloc);
    for port in model.inputs.iter().chain(model.outputs.iter()) {
        add_name(&mut names, *port)?;
    }
    for card in model.cards.iter() {
        add_names(&mut names, &card.body)?;
    }
    Ok(names)
}

/// Adds the names of signals on a card that are new.
fn add_names(names: &mut Vec<usize>, body: &CardBody) -> Result<(), AllocError> {
    match body {
        CardBody::Table(table) => {
            for input in table.inputs.iter() {
                add_name(names, *input)?;
            }
            add_name(names, table.output)
        }
        CardBody::Latch(latch) => {
            add_name(names, latch.input)?;
            add_name(names, latch.output)?;
            match latch.control.and_then(|control| control.signal) {
                Some(signal) => add_name(names, signal),
                None => Ok(()),
            }
        }
        CardBody::Instance(instance) => {
            for (_, actual) in instance.bindings.iter() {
                add_name(names, *actual)?;
            }
            Ok(())
        }
    }
}

/// The sum over all paths that begin at a model and are at most so deep, from the sums of one level less.
fn sum_of(
    alloc: Global,
    file: &PlainFile,
    counted: Counted,
    model: &PlainModel,
    less: &[u64],
) -> Result<u64, AllocError> {
    let mut sum = counted.own(alloc, model)?;
    for card in model.cards.iter() {
        if let CardBody::Instance(instance) = &card.body {
            if let Some(unit) = file.model_called(instance.unit) {
                sum = sum.saturating_add(less.get(unit).copied().unwrap_or(0));
            }
        }
    }
    Ok(sum)
}

/// The sums over all paths from each model, from those of one level less.
fn next_sums(
    alloc: Global,
    file: &PlainFile,
    counted: Counted,
    less: &[u64],
) -> Result<Vec<u64>, AllocError> {
    let mut sums = Vec::new(alloc);
    for model in file.models.iter() {
        let sum = sum_of(alloc, file, counted, model, less)?;
        sums.push(sum)?;
    }
    Ok(sums)
}

/// A count over all paths of a file, at most 2^64 - 1.
pub fn count_of(alloc: Global, file: &PlainFile, counted: Counted) -> Result<u64, AllocError> {
    let mut sums = Vec::new(alloc);
    for _ in file.models.iter() {
        sums = next_sums(alloc, file, counted, &sums)?;
    }
    let total = sums.first().copied().unwrap_or(0);
    match (counted, file.models.first()) {
        (Counted::Sinks, Some(main)) => Ok(total.saturating_add(main.outputs.len() as u64)),
        _ => Ok(total),
    }
}

/// The first count that is above its limit.
pub fn too_many(alloc: Global, file: &PlainFile) -> Result<Option<(Counted, u64)>, AllocError> {
    for counted in [
        Counted::Signals,
        Counted::Instances,
        Counted::Letters,
        Counted::Sinks,
    ] {
        let count = count_of(alloc, file, counted)?;
        if count > counted.most() {
            return Ok(Some((counted, count)));
        }
    }
    Ok(None)
}

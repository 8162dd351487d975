//! Chains of models with two instances each of the next one, so that a file has too many of something.
use crate::file::{
    CardBody, NamedInstance, NamedLatch, NamedTable, PlainCard, PlainFile, PlainModel,
};
use crate::sample::FIRST_SIGNAL;
use plain_texts::Draws;
use std::alloc::{AllocError, Global};

/// What stands in the last model of a chain.
#[derive(Clone, Copy)]
enum Base {
    Nothing,
    Constant,
    Letters,
    Latches,
}

/// Adds a chain below the main model: a low one, or one with too many instances, signals, letters or sinks.
pub fn add_chain(alloc: Global, draws: &mut Draws, file: &mut PlainFile) -> Result<(), AllocError> {
    let (levels, base) = match draws.below(8) {
        0 => (70, Base::Nothing),
        1 => (70, Base::Constant),
        2 => (18, Base::Nothing),
        3 => (18, Base::Constant),
        4 => (12, Base::Letters),
        5 => (12, Base::Latches),
        6 => (2, Base::Letters),
        _ => (1, Base::Latches),
    };
    let first = file.names.len();
    for level in 0..levels {
        file.names.push(format!(in alloc; "level{level}")?)?;
    }
    if let Some(main) = file.models.first_mut() {
        main.cards.push(instance(alloc, first))?;
    }
    for level in 0..levels {
        let name = first.saturating_add(level);
        let is_last = level.saturating_add(1) == levels;
        file.models.push(PlainModel::new(alloc, name))?;
        if let Some(model) = file.models.last_mut() {
            let base = if is_last { Some(base) } else { None };
            add_cards(alloc, base, name.saturating_add(1), &mut model.cards)?;
        }
    }
    Ok(())
}

fn card(body: CardBody) -> PlainCard {
    PlainCard { line: 0, body }
}

fn instance(alloc: Global, unit: usize) -> PlainCard {
    card(CardBody::Instance(NamedInstance {
        unit,
        bindings: Vec::new(alloc),
    }))
}

/// Adds the cards of a model of a chain: what stands in the last one, or two instances of the next one.
fn add_cards(
    alloc: Global,
    base: Option<Base>,
    next: usize,
    cards: &mut Vec<PlainCard>,
) -> Result<(), AllocError> {
    match base {
        Some(base) => add_base(alloc, base, cards),
        None => {
            cards.push(instance(alloc, next))?;
            cards.push(instance(alloc, next))?;
            Ok(())
        }
    }
}

/// Adds so many inputs, and a row for them that is repeated so often.
fn fill(
    alloc: Global,
    inputs: usize,
    rows: usize,
    table: &mut NamedTable,
) -> Result<(), AllocError> {
    table.inputs.resize(inputs, FIRST_SIGNAL.saturating_add(1))?;
    for _ in 0..rows {
        table.rows.push(vec![in alloc; b'1'; inputs]?)?;
    }
    Ok(())
}

/// Adds a table of this output with so many inputs, of one row that is repeated so often.
fn add_table(
    alloc: Global,
    output: usize,
    inputs: usize,
    rows: usize,
    cards: &mut Vec<PlainCard>,
) -> Result<(), AllocError> {
    let mut table = NamedTable {
        inputs: Vec::new(alloc),
        output,
        on: true,
        rows: Vec::new(alloc),
    };
    fill(alloc, inputs, rows, &mut table)?;
    cards.push(card(CardBody::Table(table)))?;
    Ok(())
}

fn add_base(alloc: Global, base: Base, cards: &mut Vec<PlainCard>) -> Result<(), AllocError> {
    match base {
        Base::Nothing => Ok(()),
        Base::Constant => add_table(alloc, FIRST_SIGNAL, 0, 1, cards),
        Base::Letters => {
            add_table(alloc, FIRST_SIGNAL.saturating_add(1), 0, 1, cards)?;
            add_table(alloc, FIRST_SIGNAL, 9, 39, cards)
        }
        Base::Latches => add_latches(cards),
    }
}

fn add_latches(cards: &mut Vec<PlainCard>) -> Result<(), AllocError> {
    for index in 0..6 {
        let name = FIRST_SIGNAL.saturating_add(index);
        cards.push(card(CardBody::Latch(NamedLatch {
            input: name,
            output: name,
            control: None,
            init: 0,
        })))?;
    }
    Ok(())
}

//! Networks some of whose cards stand in models of their own.
use plain_hierarchies::{
    CardBody, NamedControl, NamedInstance, PlainCard, PlainFile, PlainModel, one_model,
};
use plain_networks::{Sizes, drawn_network};
use plain_texts::Draws;
use std::alloc::{AllocError, Global};

/// How many names there are for the ports of a model other than the main one.
const FORMALS: usize = 40;

/// The names that cards read from elsewhere and those that they drive, each once.
#[derive(Drop)]
struct Ends {
    reads: Vec<usize>,
    drives: Vec<usize>,
}

fn add_name(names: &mut Vec<usize>, name: usize) -> Result<(), AllocError> {
    if !names.contains(&name) {
        names.push(name)?;
    }
    Ok(())
}

/// The signal that a latch's control is, where it is one.
fn signal_of(control: Option<NamedControl>) -> Option<usize> {
    control.and_then(|control| control.signal)
}

impl Ends {
    /// Adds the ends of a card.
    fn add(&mut self, models: &[PlainModel], card: &PlainCard) -> Result<(), AllocError> {
        match &card.body {
            CardBody::Table(table) => {
                for input in table.inputs.iter() {
                    add_name(&mut self.reads, *input)?;
                }
                add_name(&mut self.drives, table.output)
            }
            CardBody::Latch(latch) => {
                add_name(&mut self.reads, latch.input)?;
                if let Some(signal) = signal_of(latch.control) {
                    add_name(&mut self.reads, signal)?;
                }
                add_name(&mut self.drives, latch.output)
            }
            CardBody::Instance(instance) => {
                for (formal, actual) in instance.bindings.iter() {
                    let is_input = models.iter().any(|model| {
                        model.name == instance.unit && model.inputs.contains(formal)
                    });
                    if is_input {
                        add_name(&mut self.reads, *actual)?;
                    } else {
                        add_name(&mut self.drives, *actual)?;
                    }
                }
                Ok(())
            }
        }
    }

    /// The ends of cards, of which none reads what another one drives.
    fn of(alloc: Global, models: &[PlainModel], cards: &[PlainCard]) -> Result<Ends, AllocError> {
        let mut ends = Ends {
            reads: Vec::new(alloc),
            drives: Vec::new(alloc),
        };
        for card in cards {
            ends.add(models, card)?;
        }
        let Ends { mut reads, drives } = ends;
        reads.retain(|name| !drives.contains(name));
        Ok(Ends { reads, drives })
    }

    fn count(&self) -> usize {
        self.reads.len().saturating_add(self.drives.len())
    }

    /// The formal of an end, where the first formal has this number.
    fn formal(&self, first: usize, name: usize) -> usize {
        let mut ends = self.reads.iter().chain(self.drives.iter());
        first.saturating_add(ends.position(|other| *other == name).unwrap_or(0))
    }

    /// Gives the ends of a card the names of formals.
    fn rename(&self, first: usize, card: &mut PlainCard) {
        match &mut card.body {
            CardBody::Table(table) => {
                for input in table.inputs.iter_mut() {
                    *input = self.formal(first, *input);
                }
                table.output = self.formal(first, table.output);
            }
            CardBody::Latch(latch) => {
                latch.input = self.formal(first, latch.input);
                latch.output = self.formal(first, latch.output);
                if let Some(control) = &mut latch.control {
                    control.signal = control.signal.map(|signal| self.formal(first, signal));
                }
            }
            CardBody::Instance(instance) => {
                for binding in instance.bindings.iter_mut() {
                    binding.1 = self.formal(first, binding.1);
                }
            }
        }
    }

    /// The formals of these ends.
    fn formals(
        &self,
        alloc: Global,
        first: usize,
        ends: &[usize],
    ) -> Result<Vec<usize>, AllocError> {
        let mut formals = Vec::new(alloc);
        for name in ends {
            formals.push(self.formal(first, *name))?;
        }
        Ok(formals)
    }

    /// Each formal with its actual.
    fn bindings(&self, alloc: Global, first: usize) -> Result<Vec<(usize, usize)>, AllocError> {
        let mut bindings = Vec::new(alloc);
        for name in self.reads.iter().chain(self.drives.iter()) {
            bindings.push((self.formal(first, *name), *name))?;
        }
        Ok(bindings)
    }
}

/// Brings a drawn card to the end.
fn bring_last(draws: &mut Draws, cards: &mut [PlainCard]) {
    let drawn = draws.below(cards.len());
    let last = cards.len().saturating_sub(1);
    if drawn < cards.len() && last < cards.len() {
        cards.swap(drawn, last);
    }
}

/// Takes so many drawn cards of the main model.
fn take_cards(
    alloc: Global,
    draws: &mut Draws,
    file: &mut PlainFile,
    count: usize,
) -> Result<Vec<PlainCard>, AllocError> {
    let mut taken = Vec::new(alloc);
    if let Some(main) = file.models.first_mut() {
        for _ in 0..count {
            bring_last(draws, &mut main.cards);
            if let Some(card) = main.cards.pop() {
                taken.push(card)?;
            }
        }
    }
    Ok(taken)
}

/// Moves some drawn cards of the main model to a new model, and puts an instance of it there. The first formal has
/// this number.
fn divide(
    alloc: Global,
    draws: &mut Draws,
    file: &mut PlainFile,
    first: usize,
) -> Result<(), AllocError> {
    let count = draws.below(3).saturating_add(1);
    let mut cards = take_cards(alloc, draws, file, count)?;
    let ends = Ends::of(alloc, &file.models, &cards)?;
    let is_moved = ends.count() <= FORMALS;
    if is_moved {
        for card in cards.iter_mut() {
            ends.rename(first, card);
        }
        let unit = file.names.len();
        file.names.push(String::new(alloc))?;
        file.models.push(PlainModel {
            name: unit,
            inputs: ends.formals(alloc, first, &ends.reads)?,
            outputs: ends.formals(alloc, first, &ends.drives)?,
            cards,
            line: 0,
        })?;
        cards = Vec::new(alloc);
        cards.push(PlainCard {
            line: 0,
            body: CardBody::Instance(NamedInstance {
                unit,
                bindings: ends.bindings(alloc, first)?,
            }),
        })?;
    }
    if let Some(main) = file.models.first_mut() {
        main.cards.extend(cards)?;
    }
    Ok(())
}

/// Gives the latches of a model start values and this control.
fn set_latches(draws: &mut Draws, model: &mut PlainModel, control: Option<NamedControl>) {
    for card in model.cards.iter_mut() {
        if let CardBody::Latch(latch) = &mut card.body {
            latch.init = (draws.below(4) % 4) as u8;
            latch.control = control;
        }
    }
}

/// Draws what all latches of the main model are clocked by: nothing, `NIL` or the signal of this name, which is then an
/// input.
fn clock_latches(
    draws: &mut Draws,
    main: &mut PlainModel,
    signal: usize,
) -> Result<(), AllocError> {
    let rising = draws.below(2) == 0;
    let control = match draws.below(4) {
        0 => None,
        1 => Some(NamedControl {
            rising,
            signal: None,
        }),
        _ => {
            main.inputs.push(signal)?;
            Some(NamedControl {
                rising,
                signal: Some(signal),
            })
        }
    };
    set_latches(draws, main, control);
    Ok(())
}

/// A file of a generated network, and the number of its first formal. Its names have no texts behind those of the
/// main model.
pub fn divided_file(
    alloc: Global,
    draws: &mut Draws,
    sizes: Sizes,
) -> Result<(PlainFile, usize), AllocError> {
    let network = drawn_network(alloc, draws, sizes)?;
    let mut file = one_model(alloc, &network)?;
    let signal = file.names.len();
    file.names.push(String::new(alloc))?;
    if let Some(main) = file.models.first_mut() {
        clock_latches(draws, main, signal)?;
    }
    let first = file.names.len();
    for _ in 0..FORMALS {
        file.names.push(String::new(alloc))?;
    }
    for _ in 0..draws.below(5) {
        divide(alloc, draws, &mut file, first)?;
    }
    Ok((file, first))
}

//! The expanded list: each instance replaced by the expanded list of its model.
use crate::file::{CardBody, PlainFile};
use std::alloc::{AllocError, Global};

/// An occurrence of a model, by the occurrence above it and the card of the instance there. The main model has
/// none.
#[derive(Clone, Copy)]
pub struct Occurrence {
    pub model: usize,
    pub above: Option<(usize, usize)>,
}

/// A signal: a path and a name of its model.
#[derive(Clone, Copy, PartialEq, Eq)]
pub struct Signal {
    pub path: usize,
    pub name: usize,
}

/// A table or a latch at a path: the place of its card.
#[derive(Clone, Copy)]
pub struct PlacedPart {
    pub path: usize,
    pub model: usize,
    pub card: usize,
}

/// Where a signal is read or driven: its signal, the line of the card and the name on it.
#[derive(Clone, Copy)]
pub struct CardEnd {
    pub signal: Signal,
    pub line: u64,
    pub name: usize,
}

/// All paths and all parts of a file.
#[derive(Drop)]
pub struct Expansion {
    pub occurrences: Vec<Occurrence>,
    pub parts: Vec<PlacedPart>,
}

/// The expansion of a file whose instances form no circle.
pub fn expanded(alloc: Global, file: &PlainFile) -> Result<Expansion, AllocError> {
    let mut expansion = Expansion {
        occurrences: Vec::new(alloc),
        parts: Vec::new(alloc),
    };
    expansion.expand_main(file)?;
    Ok(expansion)
}

impl Expansion {
    /// Adds the main model.
    fn expand_main(&mut self, file: &PlainFile) -> Result<(), AllocError> {
        self.occurrences.push(Occurrence {
            model: 0,
            above: None,
        })?;
        self.expand(file, 0, 0, file.models.len())
    }

    /// Adds the parts of a model at a path, at most so many paths deep.
    fn expand(
        &mut self,
        file: &PlainFile,
        path: usize,
        model: usize,
        fuel: usize,
    ) -> Result<(), AllocError> {
        let Some(found) = file.models.get(model) else {
            return Ok(());
        };
        if fuel == 0 {
            return Ok(());
        }
        for (card, body) in found.cards.iter().enumerate() {
            let CardBody::Instance(instance) = &body.body else {
                self.parts.push(PlacedPart { path, model, card })?;
                continue;
            };
            if let Some(unit) = file.model_called(instance.unit) {
                let below = self.occurrences.len();
                self.occurrences.push(Occurrence {
                    model: unit,
                    above: Some((path, card)),
                })?;
                self.expand(file, below, unit, fuel - 1)?;
            }
        }
        Ok(())
    }

    /// The signal of a name at a path: a bound formal is its actual one level up.
    pub fn signal(&self, file: &PlainFile, path: usize, name: usize) -> Signal {
        let mut signal = Signal { path, name };
        for _ in 0..self.occurrences.len() {
            match self.actual(file, signal) {
                Some(above) => signal = above,
                None => return signal,
            }
        }
        signal
    }

    /// The actual of a name that is a bound formal at its path.
    fn actual(&self, file: &PlainFile, signal: Signal) -> Option<Signal> {
        let (path, card) = self.occurrences.get(signal.path)?.above?;
        let instance = file.instance(self.occurrences.get(path)?.model, card)?;
        for (formal, actual) in instance.bindings.iter() {
            if *formal == signal.name {
                return Some(Signal {
                    path,
                    name: *actual,
                });
            }
        }
        None
    }

    /// An end on a card of a part.
    fn end(&self, file: &PlainFile, path: usize, line: u64, name: usize) -> CardEnd {
        CardEnd {
            signal: self.signal(file, path, name),
            line,
            name,
        }
    }

    /// What a part reads.
    pub fn reads(
        &self,
        alloc: Global,
        file: &PlainFile,
        part: PlacedPart,
    ) -> Result<Vec<CardEnd>, AllocError> {
        let mut ends = Vec::new(alloc);
        let Some(card) = file.card(part.model, part.card) else {
            return Ok(ends);
        };
        match &card.body {
            CardBody::Table(table) => {
                for input in table.inputs.iter() {
                    ends.push(self.end(file, part.path, card.line, *input))?;
                }
            }
            CardBody::Latch(latch) => {
                ends.push(self.end(file, part.path, card.line, latch.input))?;
            }
            CardBody::Instance(_) => (),
        }
        Ok(ends)
    }

    /// What a part drives.
    pub fn drives(&self, file: &PlainFile, part: PlacedPart) -> Option<CardEnd> {
        let card = file.card(part.model, part.card)?;
        let name = match &card.body {
            CardBody::Table(table) => table.output,
            CardBody::Latch(latch) => latch.output,
            CardBody::Instance(_) => return None,
        };
        Some(self.end(file, part.path, card.line, name))
    }

    /// Adds the ends of these ports of the main model.
    pub fn add_ports(
        &self,
        file: &PlainFile,
        ports: &[usize],
        ends: &mut Vec<CardEnd>,
    ) -> Result<(), AllocError> {
        let line = file.models.first().map_or(0, |model| model.line);
        for port in ports {
            ends.push(self.end(file, 0, line, *port))?;
        }
        Ok(())
    }
}

//! Generated hierarchies: sound ones, of which most are then changed at one or two places.
use crate::chain::add_chain;
use crate::change::change_file;
use crate::file::{
    CardBody, NamedControl, NamedInstance, NamedLatch, NamedTable, PlainCard, PlainFile, PlainModel,
};
use plain_texts::Draws;
use std::alloc::{AllocError, Global};

/// The names of models and of signals, by number.
const NAMES: &[&str] = &[
    "top", "add", "mux", "reg", "a", "b", "c", "d", "e", "f", "g", "h", "w0", "w12", "w", "ww7",
    "wwx", "clk",
];

/// The number of the first name of a signal.
pub const FIRST_SIGNAL: usize = 4;

/// The number of the control.
const CONTROL: usize = 17;

/// How many names of signals there are, the control not among them.
const SIGNALS: usize = 13;

/// Any name of a signal.
pub fn drawn_name(draws: &mut Draws) -> usize {
    FIRST_SIGNAL.saturating_add(draws.below(SIGNALS.saturating_add(1)))
}

/// How the latches of a file are clocked: not at all, by `NIL`, or by the control.
#[derive(Clone, Copy, PartialEq, Eq)]
enum Clocked {
    Untyped,
    Nothing,
    Control,
}

/// A model that is being made, with its signals that are driven, and the next new name.
#[derive(Drop)]
struct ModelDraft {
    model: PlainModel,
    driven: Vec<usize>,
    offset: usize,
    used: usize,
}

/// A drawn row of so many letters.
fn drawn_row(alloc: Global, draws: &mut Draws, width: usize) -> Result<Vec<u8>, AllocError> {
    let mut row = Vec::new(alloc);
    for _ in 0..width {
        row.push(match draws.below(3) {
            0 => b'0',
            1 => b'1',
            _ => b'-',
        })?;
    }
    Ok(row)
}

/// Fewer than three drawn rows of so many letters.
fn drawn_rows(alloc: Global, draws: &mut Draws, width: usize) -> Result<Vec<Vec<u8>>, AllocError> {
    let mut rows = Vec::new(alloc);
    for _ in 0..draws.below(3) {
        rows.push(drawn_row(alloc, draws, width)?)?;
    }
    Ok(rows)
}

impl ModelDraft {
    /// A new name, or the last one again where all are used.
    fn fresh(&mut self) -> usize {
        let place = self.offset.saturating_add(self.used) % SIGNALS;
        self.used = self.used.saturating_add(1).min(SIGNALS.saturating_sub(1));
        FIRST_SIGNAL.saturating_add(place)
    }

    /// A new name, which is driven from now on.
    fn fresh_driven(&mut self) -> Result<usize, AllocError> {
        let name = self.fresh();
        self.driven.push(name)?;
        Ok(name)
    }

    /// One of the driven signals, if there is one.
    fn drawn(&self, draws: &mut Draws) -> Option<usize> {
        self.driven.get(draws.below(self.driven.len())).copied()
    }

    fn add(&mut self, body: CardBody) -> Result<(), AllocError> {
        self.model.cards.push(PlainCard { line: 0, body })?;
        Ok(())
    }

    /// Fewer than four drawn inputs.
    fn drawn_inputs(&self, alloc: Global, draws: &mut Draws) -> Result<Vec<usize>, AllocError> {
        let mut inputs = Vec::new(alloc);
        for _ in 0..draws.below(4) {
            if let Some(input) = self.drawn(draws) {
                inputs.push(input)?;
            }
        }
        Ok(inputs)
    }

    fn add_table(&mut self, alloc: Global, draws: &mut Draws) -> Result<(), AllocError> {
        let inputs = self.drawn_inputs(alloc, draws)?;
        let output = self.fresh_driven()?;
        let rows = drawn_rows(alloc, draws, inputs.len())?;
        let on = rows.is_empty() || draws.below(2) == 0;
        self.add(CardBody::Table(NamedTable {
            inputs,
            output,
            on,
            rows,
        }))
    }

    fn add_latch(&mut self, draws: &mut Draws, clocked: Clocked) -> Result<(), AllocError> {
        let output = self.fresh_driven()?;
        let input = self.drawn(draws).unwrap_or(output);
        let control = match clocked {
            Clocked::Untyped => None,
            Clocked::Nothing => Some(None),
            Clocked::Control => Some(Some(CONTROL)),
        };
        self.add(CardBody::Latch(NamedLatch {
            input,
            output,
            control: control.map(|signal| NamedControl {
                rising: true,
                signal,
            }),
            init: (draws.below(4) % 4) as u8,
        }))
    }

    /// Binds the inputs of a model, and most of its other outputs.
    fn bind(
        &mut self,
        draws: &mut Draws,
        unit: &PlainModel,
        bindings: &mut Vec<(usize, usize)>,
    ) -> Result<(), AllocError> {
        for input in unit.inputs.iter() {
            let actual = if *input == CONTROL {
                CONTROL
            } else {
                self.drawn(draws).unwrap_or(FIRST_SIGNAL)
            };
            bindings.push((*input, actual))?;
        }
        for output in unit.outputs.iter() {
            if !unit.inputs.contains(output) && draws.below(4) > 0 {
                bindings.push((*output, self.fresh_driven()?))?;
            }
        }
        Ok(())
    }

    fn add_instance(
        &mut self,
        alloc: Global,
        draws: &mut Draws,
        unit: &PlainModel,
    ) -> Result<(), AllocError> {
        let mut bindings = Vec::new(alloc);
        self.bind(draws, unit, &mut bindings)?;
        self.add(CardBody::Instance(NamedInstance {
            unit: unit.name,
            bindings,
        }))
    }

    /// Adds drawn inputs, cards and outputs.
    fn fill(
        &mut self,
        alloc: Global,
        draws: &mut Draws,
        later: &[PlainModel],
        clocked: Clocked,
    ) -> Result<(), AllocError> {
        for _ in 0..draws.below(3) {
            let input = self.fresh_driven()?;
            self.model.inputs.push(input)?;
        }
        self.add_table(alloc, draws)?;
        for _ in 0..draws.below(4) {
            match (draws.below(4), later.get(draws.below(later.len()))) {
                (0, _) => self.add_latch(draws, clocked)?,
                (1 | 2, Some(unit)) => self.add_instance(alloc, draws, unit)?,
                _ => self.add_table(alloc, draws)?,
            }
        }
        self.add_outputs(draws)?;
        if clocked == Clocked::Control {
            self.model.inputs.push(CONTROL)?;
        }
        Ok(())
    }

    /// Adds one or two of the driven signals as outputs, each once.
    fn add_outputs(&mut self, draws: &mut Draws) -> Result<(), AllocError> {
        for _ in 0..draws.below(2).saturating_add(1) {
            if let Some(output) = self.drawn(draws) {
                if !self.model.outputs.contains(&output) {
                    self.model.outputs.push(output)?;
                }
            }
        }
        Ok(())
    }
}

/// A generated model over later ones.
fn drawn_model(
    alloc: Global,
    draws: &mut Draws,
    name: usize,
    later: &[PlainModel],
    clocked: Clocked,
) -> Result<PlainModel, AllocError> {
    let mut draft = ModelDraft {
        model: PlainModel::new(alloc, name),
        driven: Vec::new(alloc),
        offset: draws.below(SIGNALS),
        used: 0,
    };
    draft.fill(alloc, draws, later, clocked)?;
    let ModelDraft { mut model, .. } = draft;
    shuffle(draws, &mut model.cards);
    Ok(model)
}

fn shuffle(draws: &mut Draws, cards: &mut [PlainCard]) {
    for place in 0..cards.len() {
        let other = draws.below(cards.len());
        if place < cards.len() && other < cards.len() {
            cards.swap(place, other);
        }
    }
}

/// A generated file.
pub fn drawn_file(alloc: Global, draws: &mut Draws) -> Result<PlainFile, AllocError> {
    let mut file = PlainFile {
        names: Vec::new(alloc),
        models: Vec::new(alloc),
    };
    add_models(alloc, draws, &mut file.models)?;
    add_rest(alloc, draws, &mut file)?;
    Ok(file)
}

/// Adds generated models, of which each has instances of later ones.
fn add_models(
    alloc: Global,
    draws: &mut Draws,
    models: &mut Vec<PlainModel>,
) -> Result<(), AllocError> {
    let clocked = match draws.below(4) {
        0 => Clocked::Untyped,
        1 => Clocked::Nothing,
        _ => Clocked::Control,
    };
    let count = draws.below(FIRST_SIGNAL);
    for index in 0..count.saturating_add(1) {
        let name = count.saturating_sub(index);
        let model = drawn_model(alloc, draws, name, models.as_slice(), clocked)?;
        models.push(model)?;
    }
    models.reverse();
    Ok(())
}

/// Adds the names, here and there a chain of models, and up to three changes.
fn add_rest(alloc: Global, draws: &mut Draws, file: &mut PlainFile) -> Result<(), AllocError> {
    for name in NAMES {
        file.names.push(String::from_str(alloc, name)?)?;
    }
    if draws.below(12) == 0 {
        add_chain(alloc, draws, file)?;
    }
    for _ in 0..draws.below(4) {
        change_file(draws, file)?;
    }
    Ok(())
}

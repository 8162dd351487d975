//! What a file is refused for, order by order.
use crate::counts::{Counted, too_many};
use crate::expand::{CardEnd, Expansion, PlacedPart, Signal, expanded};
use crate::file::{CardBody, NamedControl, NamedInstance, PlainFile, PlainModel};
use std::alloc::{AllocError, Global};

/// Why a file has no network: the number of the kind, from 10 to 19, with the line and the number of the name
/// that are told; or what there is too many of, and its count.
#[derive(Clone, Copy)]
pub enum PlainRefusal {
    At(u64, u64, usize),
    TooMany(Counted, u64),
}

/// The first refusal of a file in the order in which they are looked for.
pub fn refusal(alloc: Global, file: &PlainFile) -> Result<Option<PlainRefusal>, AllocError> {
    let models = [
        duplicate_model(file),
        duplicate_port(file),
        unknown_model(file),
        bad_formal(file),
        recursion(alloc, file)?,
    ];
    let found = first_of(&models);
    if found.is_some() {
        return Ok(found);
    }
    if let Some((counted, count)) = too_many(alloc, file)? {
        return Ok(Some(PlainRefusal::TooMany(counted, count)));
    }
    let mut ends = Ends::new(alloc, expanded(alloc, file)?);
    ends.refusal(alloc, file)
}

/// The first of these refusals that is one.
fn first_of(found: &[Option<PlainRefusal>]) -> Option<PlainRefusal> {
    for one in found {
        if one.is_some() {
            return *one;
        }
    }
    None
}

fn duplicate_model(file: &PlainFile) -> Option<PlainRefusal> {
    for (place, model) in file.models.iter().enumerate() {
        if file.model_called(model.name) != Some(place) {
            return Some(PlainRefusal::At(10, model.line, model.name));
        }
    }
    None
}

/// How often a name stands in a list.
fn times_in(names: &[usize], name: usize) -> usize {
    names.iter().filter(|other| **other == name).count()
}

fn duplicate_port(file: &PlainFile) -> Option<PlainRefusal> {
    for model in file.models.iter() {
        for ports in [&model.inputs, &model.outputs] {
            for port in ports.iter() {
                if times_in(ports, *port) > 1 {
                    return Some(PlainRefusal::At(11, model.line, *port));
                }
            }
        }
    }
    None
}

fn unknown_model(file: &PlainFile) -> Option<PlainRefusal> {
    for model in file.models.iter() {
        for card in model.cards.iter() {
            if let CardBody::Instance(instance) = &card.body {
                if file.model_called(instance.unit).is_none() {
                    return Some(PlainRefusal::At(12, card.line, instance.unit));
                }
            }
        }
    }
    None
}

/// How often an instance binds a formal.
fn bound(instance: &NamedInstance, name: usize) -> usize {
    instance
        .bindings
        .iter()
        .filter(|binding| binding.0 == name)
        .count()
}

/// The first formal of an instance that is no port or is bound twice, else the first input that isn't bound.
fn faulty_formal(instance: &NamedInstance, unit: &PlainModel) -> Option<usize> {
    for (formal, _) in instance.bindings.iter() {
        let is_port = unit.inputs.contains(formal) || unit.outputs.contains(formal);
        if !is_port || bound(instance, *formal) > 1 {
            return Some(*formal);
        }
    }
    unit.inputs
        .iter()
        .copied()
        .find(|input| bound(instance, *input) == 0)
}

fn bad_formal(file: &PlainFile) -> Option<PlainRefusal> {
    for model in file.models.iter() {
        for card in model.cards.iter() {
            if let CardBody::Instance(instance) = &card.body {
                let unit = file
                    .model_called(instance.unit)
                    .and_then(|place| file.models.get(place));
                if let Some(name) = unit.and_then(|unit| faulty_formal(instance, unit)) {
                    return Some(PlainRefusal::At(13, card.line, name));
                }
            }
        }
    }
    None
}

/// The names of the models that a model of this name reaches through one instance or more.
fn reached_models(alloc: Global, file: &PlainFile, name: usize) -> Result<Vec<usize>, AllocError> {
    let mut reached = Vec::new(alloc);
    for _ in 0..file.models.len().saturating_add(1) {
        let before = reached.len();
        for model in file.models.iter() {
            if model.name == name || reached.contains(&model.name) {
                for card in model.cards.iter() {
                    if let CardBody::Instance(instance) = &card.body {
                        if !reached.contains(&instance.unit) {
                            reached.push(instance.unit)?;
                        }
                    }
                }
            }
        }
        if reached.len() == before {
            break;
        }
    }
    Ok(reached)
}

fn recursion(alloc: Global, file: &PlainFile) -> Result<Option<PlainRefusal>, AllocError> {
    for model in file.models.iter() {
        for card in model.cards.iter() {
            if let CardBody::Instance(instance) = &card.body {
                let reached = reached_models(alloc, file, instance.unit)?;
                if instance.unit == model.name || reached.contains(&model.name) {
                    return Ok(Some(PlainRefusal::At(14, card.line, instance.unit)));
                }
            }
        }
    }
    Ok(None)
}

/// The control of a latch at a path, with its signal, its line and its output.
#[derive(Clone, Copy)]
struct Clocking {
    control: NamedControl,
    signal: Option<Signal>,
    line: u64,
    output: usize,
}

/// The control of a part that is a latch with one.
fn control_of(file: &PlainFile, expansion: &Expansion, part: PlacedPart) -> Option<Clocking> {
    let card = file.card(part.model, part.card)?;
    let CardBody::Latch(latch) = &card.body else {
        return None;
    };
    let control = latch.control?;
    Some(Clocking {
        control,
        signal: control
            .signal
            .map(|name| expansion.signal(file, part.path, name)),
        line: card.line,
        output: latch.output,
    })
}

/// The signal that controls the latches, with its name on the card of the first latch that has one.
pub fn control_signal(file: &PlainFile, expansion: &Expansion) -> Option<(Signal, usize)> {
    for part in expansion.parts.iter() {
        let found = control_of(file, expansion, *part);
        if let Some(
            Clocking {
                signal: Some(signal),
                control: NamedControl {
                    signal: Some(name),
                    ..
                },
                ..
            },
        ) = found
        {
            return Some((signal, name));
        }
    }
    None
}

/// All ends of a file's expansion: what the parts read and drive, in their order, and the main ports.
#[derive(Drop)]
struct Ends {
    expansion: Expansion,
    reads: Vec<Vec<CardEnd>>,
    drives: Vec<CardEnd>,
    inputs: Vec<CardEnd>,
    outputs: Vec<CardEnd>,
    clockings: Vec<Clocking>,
}

/// Whether one of these ends is of a signal.
fn has_signal(ends: &[CardEnd], signal: Signal) -> bool {
    ends.iter().any(|end| end.signal == signal)
}

impl Ends {
    /// An expansion, of which no end is known yet.
    fn new(alloc: Global, expansion: Expansion) -> Ends {
        Ends {
            expansion,
            reads: Vec::new(alloc),
            drives: Vec::new(alloc),
            inputs: Vec::new(alloc),
            outputs: Vec::new(alloc),
            clockings: Vec::new(alloc),
        }
    }

    /// Finds all ends, and the first refusal for one of them.
    fn refusal(
        &mut self,
        alloc: Global,
        file: &PlainFile,
    ) -> Result<Option<PlainRefusal>, AllocError> {
        self.add_parts(alloc, file)?;
        if let Some(main) = file.models.first() {
            self.expansion
                .add_ports(file, &main.inputs, &mut self.inputs)?;
            self.expansion
                .add_ports(file, &main.outputs, &mut self.outputs)?;
        }
        let found = [
            self.driven_twice(),
            self.undriven(),
            self.on_cycle(alloc, file)?,
            self.two_controls(),
            self.control_used(alloc, file)?,
        ];
        Ok(first_of(&found))
    }

    /// Adds what the parts read and drive, and the controls of latches.
    fn add_parts(&mut self, alloc: Global, file: &PlainFile) -> Result<(), AllocError> {
        let expansion = &self.expansion;
        for part in expansion.parts.iter() {
            self.reads.push(expansion.reads(alloc, file, *part)?)?;
            if let Some(end) = expansion.drives(file, *part) {
                self.drives.push(end)?;
            }
            if let Some(found) = control_of(file, expansion, *part) {
                self.clockings.push(found)?;
            }
        }
        Ok(())
    }

    fn driven_twice(&self) -> Option<PlainRefusal> {
        for (place, end) in self.drives.iter().enumerate() {
            let before = self.drives.get(..place).unwrap_or(&[]);
            if has_signal(&self.inputs, end.signal) || has_signal(before, end.signal) {
                return Some(PlainRefusal::At(15, end.line, end.name));
            }
        }
        None
    }

    fn is_driven(&self, signal: Signal) -> bool {
        has_signal(&self.inputs, signal) || has_signal(&self.drives, signal)
    }

    fn undriven(&self) -> Option<PlainRefusal> {
        for ends in self.reads.iter() {
            for end in ends.iter() {
                if !self.is_driven(end.signal) {
                    return Some(PlainRefusal::At(16, end.line, end.name));
                }
            }
        }
        for end in self.outputs.iter() {
            if !self.is_driven(end.signal) {
                return Some(PlainRefusal::At(16, end.line, end.name));
            }
        }
        None
    }

    fn is_table(&self, file: &PlainFile, place: usize) -> bool {
        let Some(part) = self.expansion.parts.get(place) else {
            return false;
        };
        match file.card(part.model, part.card) {
            Some(card) => match &card.body {
                CardBody::Table(_) => true,
                _ => false,
            },
            None => false,
        }
    }

    /// The signals that a table's output depends on through tables.
    fn depends(
        &self,
        alloc: Global,
        file: &PlainFile,
        signal: Signal,
    ) -> Result<Vec<Signal>, AllocError> {
        let mut found: Vec<Signal> = Vec::new(alloc);
        for _ in 0..self.drives.len().saturating_add(1) {
            let before = found.len();
            for (place, end) in self.drives.iter().enumerate() {
                let asked = end.signal == signal || found.contains(&end.signal);
                if asked && self.is_table(file, place) {
                    for read in self
                        .reads
                        .get(place)
                        .map_or([].as_slice(), |ends| ends.as_slice())
                    {
                        if !found.contains(&read.signal) {
                            found.push(read.signal)?;
                        }
                    }
                }
            }
            if found.len() == before {
                break;
            }
        }
        Ok(found)
    }

    fn on_cycle(
        &self,
        alloc: Global,
        file: &PlainFile,
    ) -> Result<Option<PlainRefusal>, AllocError> {
        for (place, end) in self.drives.iter().enumerate() {
            if self.is_table(file, place)
                && self.depends(alloc, file, end.signal)?.contains(&end.signal)
            {
                return Ok(Some(PlainRefusal::At(17, end.line, end.name)));
            }
        }
        Ok(None)
    }

    fn two_controls(&self) -> Option<PlainRefusal> {
        for (place, later) in self.clockings.iter().enumerate() {
            for earlier in self.clockings.iter().take(place) {
                let other = match (earlier.signal, later.signal) {
                    (Some(one), Some(two)) => one != two,
                    _ => false,
                };
                if other || earlier.control.rising != later.control.rising {
                    return Some(PlainRefusal::At(18, later.line, later.output));
                }
            }
        }
        None
    }

    fn control_used(
        &self,
        alloc: Global,
        file: &PlainFile,
    ) -> Result<Option<PlainRefusal>, AllocError> {
        let Some((control, name)) = control_signal(file, &self.expansion) else {
            return Ok(None);
        };
        let mut ends: Vec<CardEnd> = Vec::new(alloc);
        for (place, drive) in self.drives.iter().enumerate() {
            if let Some(reads) = self.reads.get(place) {
                ends.extend_from_slice(reads)?;
            }
            ends.push(*drive)?;
        }
        ends.extend_from_slice(&self.outputs)?;
        for end in ends.iter() {
            if end.signal == control {
                return Ok(Some(PlainRefusal::At(19, end.line, name)));
            }
        }
        Ok(None)
    }
}

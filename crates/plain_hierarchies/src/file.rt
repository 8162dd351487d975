//! Hierarchies: files of models, and their text.
use std::alloc::{AllocError, Global};

/// A table of a model.
#[derive(Drop)]
pub struct NamedTable {
    pub inputs: Vec<usize>,
    pub output: usize,
    pub on: bool,
    pub rows: Vec<Vec<u8>>,
}

/// What a latch is clocked by: a rising or a falling edge, of a signal or of `NIL`.
#[derive(Clone, Copy)]
pub struct NamedControl {
    pub rising: bool,
    pub signal: Option<usize>,
}

/// A latch of a model.
#[derive(Clone, Copy)]
pub struct NamedLatch {
    pub input: usize,
    pub output: usize,
    pub control: Option<NamedControl>,
    pub init: u8,
}

/// An instance of the first model of a name, with the formals that it binds and their actuals.
#[derive(Drop)]
pub struct NamedInstance {
    pub unit: usize,
    pub bindings: Vec<(usize, usize)>,
}

/// What a card is.
#[derive(Drop)]
pub enum CardBody {
    Table(NamedTable),
    Latch(NamedLatch),
    Instance(NamedInstance),
}

/// A card with its line.
#[derive(Drop)]
pub struct PlainCard {
    pub line: u64,
    pub body: CardBody,
}

/// A model with its ports, and its cards in order.
#[derive(Drop)]
pub struct PlainModel {
    pub name: usize,
    pub inputs: Vec<usize>,
    pub outputs: Vec<usize>,
    pub cards: Vec<PlainCard>,
    pub line: u64,
}

impl PlainModel {
    /// A model of this name, without anything.
    pub fn new(alloc: Global, name: usize) -> PlainModel {
        PlainModel {
            name,
            inputs: Vec::new(alloc),
            outputs: Vec::new(alloc),
            cards: Vec::new(alloc),
            line: 0,
        }
    }
}

/// A file, the main model first. Names are numbers of `names`, which all differ.
#[derive(Drop)]
pub struct PlainFile {
    pub names: Vec<String>,
    pub models: Vec<PlainModel>,
}

impl PlainFile {
    /// A name.
    pub fn name(&self, number: usize) -> &str {
        name_in(&self.names, number)
    }

    /// The place of the first model of a name.
    pub fn model_called(&self, name: usize) -> Option<usize> {
        for (place, model) in self.models.iter().enumerate() {
            if model.name == name {
                return Some(place);
            }
        }
        None
    }

    /// A card of a model.
    pub fn card(&self, model: usize, card: usize) -> Option<&PlainCard> {
        self.models.get(model)?.cards.get(card)
    }

    /// An instance of a model.
    pub fn instance(&self, model: usize, card: usize) -> Option<&NamedInstance> {
        match &self.card(model, card)?.body {
            CardBody::Instance(instance) => Some(instance),
            _ => None,
        }
    }
}

/// The text of a file so far, with the number of its lines.
#[derive(Drop)]
struct Lines {
    text: String,
    count: u64,
}

impl Lines {
    fn word(&mut self, word: &str) -> Result<(), AllocError> {
        self.text.push_str(" ")?;
        self.text.push_str(word)
    }

    /// Ends a line, and gives its number.
    fn end(&mut self) -> Result<u64, AllocError> {
        self.text.push_str("\n")?;
        self.count = self.count.saturating_add(1);
        Ok(self.count)
    }

    fn ports(&mut self, names: &[String], card: &str, ports: &[usize]) -> Result<(), AllocError> {
        if ports.is_empty() {
            return Ok(());
        }
        self.text.push_str(card)?;
        for port in ports {
            self.word(name_in(names, *port))?;
        }
        self.end()?;
        Ok(())
    }

    /// Appends a card and its rows, and gives the line of the card.
    fn card(&mut self, names: &[String], body: &CardBody) -> Result<u64, AllocError> {
        match body {
            CardBody::Table(table) => self.table(names, table),
            CardBody::Latch(latch) => self.latch(names, *latch),
            CardBody::Instance(instance) => {
                self.text.push_str(".subckt")?;
                self.word(name_in(names, instance.unit))?;
                for (formal, actual) in instance.bindings.iter() {
                    self.word(name_in(names, *formal))?;
                    self.text.push_str("=")?;
                    self.text.push_str(name_in(names, *actual))?;
                }
                self.end()
            }
        }
    }

    /// Appends a model. It and its cards take the numbers of their lines.
    fn model(&mut self, names: &[String], model: &mut PlainModel) -> Result<(), AllocError> {
        self.text.push_str(".model")?;
        self.word(name_in(names, model.name))?;
        model.line = self.end()?;
        self.ports(names, ".inputs", &model.inputs)?;
        self.ports(names, ".outputs", &model.outputs)?;
        for card in model.cards.iter_mut() {
            card.line = self.card(names, &card.body)?;
        }
        self.text.push_str(".end")?;
        self.end()?;
        Ok(())
    }

    fn table(&mut self, names: &[String], table: &NamedTable) -> Result<u64, AllocError> {
        self.text.push_str(".names")?;
        for input in table.inputs.iter() {
            self.word(name_in(names, *input))?;
        }
        self.word(name_in(names, table.output))?;
        let line = self.end()?;
        for row in table.rows.iter() {
            for letter in row.iter() {
                self.text.push_str(letter_text(*letter))?;
            }
            if !row.is_empty() {
                self.text.push_str(" ")?;
            }
            self.text.push_str(if table.on { "1" } else { "0" })?;
            self.end()?;
        }
        Ok(line)
    }

    fn latch(&mut self, names: &[String], latch: NamedLatch) -> Result<u64, AllocError> {
        self.text.push_str(".latch")?;
        self.word(name_in(names, latch.input))?;
        self.word(name_in(names, latch.output))?;
        if let Some(control) = latch.control {
            self.word(if control.rising { "re" } else { "fe" })?;
            self.word(match control.signal {
                Some(signal) => name_in(names, signal),
                None => "NIL",
            })?;
        }
        self.word(match latch.init {
            0 => "0",
            1 => "1",
            2 => "2",
            _ => "3",
        })?;
        self.end()
    }
}

fn letter_text(letter: u8) -> &'static str {
    match letter {
        b'0' => "0",
        b'1' => "1",
        _ => "-",
    }
}

fn name_in(names: &[String], number: usize) -> &str {
    match names.get(number) {
        Some(name) => name.as_str(),
        None => "",
    }
}

/// The text of a file. Its models and cards take the numbers of their lines.
pub fn written(alloc: Global, file: &mut PlainFile) -> Result<String, AllocError> {
    let mut lines = Lines {
        text: String::new(alloc),
        count: 0,
    };
    let names = file.names.as_slice();
    for model in file.models.iter_mut() {
        lines.model(names, model)?;
    }
    let Lines { text, .. } = lines;
    Ok(text)
}

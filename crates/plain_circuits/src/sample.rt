//! Generated circuits.
use crate::starts::{MOST_NETS, Start, started};
use dom_base::{Kind, Tri};
use plain_texts::Draws;
use std::alloc::{AllocError, Global};

/// A transistor between two nets, switched by a third.
#[derive(Clone, Copy)]
pub struct Transistor {
    pub kind: Kind,
    pub drain: usize,
    pub gate: usize,
    pub source: usize,
}

impl Transistor {
    /// A transistor of a kind, with its drain, its gate and its source.
    pub fn new(kind: Kind, drain: usize, gate: usize, source: usize) -> Transistor {
        Transistor {
            kind,
            drain,
            gate,
            source,
        }
    }

    /// The other end of the channel, where this net is one of its ends.
    pub fn across(&self, net: usize) -> Option<usize> {
        if self.drain == net {
            Some(self.source)
        } else if self.source == net {
            Some(self.drain)
        } else {
            None
        }
    }
}

/// A circuit: the names of its nets by number, the counts of its clocks, pins and outputs, and its
/// transistors. The ports come first, and the other nets in order of first appearance.
#[derive(Drop)]
pub struct Sample {
    pub names: Vec<String>,
    pub clocks: usize,
    pub pins: usize,
    pub outs: usize,
    pub transistors: Vec<Transistor>,
}

impl Sample {
    /// The number of `lm`, the first port behind the clocks.
    pub fn first_latch_port(&self) -> usize {
        self.clocks.saturating_add(2)
    }

    /// The number of the first pin.
    pub fn first_pin(&self) -> usize {
        self.clocks.saturating_add(8)
    }

    /// How many nets are sources: all ports but the outputs.
    pub fn sources(&self) -> usize {
        self.first_pin().saturating_add(self.pins)
    }

    /// How many nets are ports.
    pub fn ports(&self) -> usize {
        self.sources().saturating_add(self.outs)
    }

    /// Whether a net is a source.
    pub fn is_source(&self, net: usize) -> bool {
        net < self.sources()
    }

    /// The name of a net.
    pub fn name(&self, net: usize) -> &str {
        match self.names.get(net) {
            Some(name) => name.as_str(),
            None => "",
        }
    }
}

/// A generated circuit: a known part, and then other transistors. The nets that only the part has are
/// gates of the others, but no ends of their channels.
pub fn sampled(alloc: Global, draws: &mut Draws, start: Start) -> Result<Sample, AllocError> {
    let clocks = draws.below(2).saturating_add(1);
    let pins = draws.below(3);
    let outs = draws.below(3);
    let mut sample = Sample {
        names: port_names(alloc, clocks, pins, outs)?,
        clocks,
        pins,
        outs,
        transistors: Vec::new(alloc),
    };
    let ports = sample.ports();
    let all = ports.saturating_add(3).saturating_add(draws.below(4));
    let mut numbers = Vec::new(alloc);
    for net in 0..ports {
        numbers.push(net)?;
    }
    for known in &started(alloc, &sample, draws, start, all)? {
        add(alloc, &mut sample, &mut numbers, *known)?;
    }
    for _ in 0..count_of_others(draws, start) {
        let drawn = drawn_transistor(&sample, draws, all);
        add(alloc, &mut sample, &mut numbers, drawn)?;
    }
    Ok(sample)
}

/// How many transistors are added to a known part.
fn count_of_others(draws: &mut Draws, start: Start) -> usize {
    match start {
        Start::Nothing => draws.below(8).saturating_add(1),
        Start::Ring | Start::Latch => draws.below(5),
        Start::Cell => draws.below(4),
    }
}

/// Adds a transistor between nets of the generator's numbers, of which those in `numbers` have names.
fn add(
    alloc: Global,
    sample: &mut Sample,
    numbers: &mut Vec<usize>,
    drawn: Transistor,
) -> Result<(), AllocError> {
    let drain = numbered(alloc, sample, numbers, drawn.drain)?;
    let gate = numbered(alloc, sample, numbers, drawn.gate)?;
    let source = numbered(alloc, sample, numbers, drawn.source)?;
    sample
        .transistors
        .push(Transistor::new(drawn.kind, drain, gate, source))?;
    Ok(())
}

/// The number of a net, the next one where it has none.
fn numbered(
    alloc: Global,
    sample: &mut Sample,
    numbers: &mut Vec<usize>,
    net: usize,
) -> Result<usize, AllocError> {
    for (number, known) in numbers.iter().enumerate() {
        if *known == net {
            return Ok(number);
        }
    }
    numbers.push(net)?;
    let number = sample.names.len();
    sample.names.push(format!(in alloc; "n{net}")?)?;
    Ok(number)
}

/// A transistor between the first so many nets.
fn drawn_transistor(sample: &Sample, draws: &mut Draws, all: usize) -> Transistor {
    let kind = match draws.below(5) {
        0 | 1 => Kind::N,
        2 | 3 => Kind::P,
        _ => Kind::Keep,
    };
    Transistor {
        kind,
        drain: drawn_end(sample, draws, all),
        gate: draws.below(all.saturating_add(MOST_NETS)),
        source: drawn_end(sample, draws, all),
    }
}

/// An end of a channel: a supply, any net, or mostly one that is no source.
fn drawn_end(sample: &Sample, draws: &mut Draws, all: usize) -> usize {
    let sources = sample.sources();
    match draws.below(8) {
        0 | 1 => draws.below(2),
        2 => draws.below(all),
        _ => sources.saturating_add(draws.below(all.saturating_sub(sources))),
    }
}

/// The names of the ports.
fn port_names(
    alloc: Global,
    clocks: usize,
    pins: usize,
    outs: usize,
) -> Result<Vec<String>, AllocError> {
    let mut names = Vec::new(alloc);
    for name in ["vdd", "vss"] {
        names.push(String::from_str(alloc, name)?)?;
    }
    for clock in 0..clocks {
        let number = clock.saturating_add(1);
        names.push(format!(in alloc; "ck{number}")?)?;
    }
    for name in ["lm", "lmb", "ls", "lsb", "rs", "rsb"] {
        names.push(String::from_str(alloc, name)?)?;
    }
    for pin in 0..pins {
        names.push(format!(in alloc; "i_{pin}")?)?;
    }
    for out in 0..outs {
        names.push(format!(in alloc; "o_{out}")?)?;
    }
    Ok(names)
}

/// The circuit as a deck.
pub fn deck_text(alloc: Global, sample: &Sample) -> Result<String, AllocError> {
    let mut text = String::from_str(alloc, ".subckt t")?;
    for port in 0..sample.ports() {
        let name = sample.name(port);
        write!(text, " {name}")?;
    }
    text.push_str("\n")?;
    for (number, transistor) in sample.transistors.iter().enumerate() {
        let drain = sample.name(transistor.drain);
        let gate = sample.name(transistor.gate);
        let source = sample.name(transistor.source);
        let model = match transistor.kind {
            Kind::N => "vss nch",
            Kind::P => "vdd pch",
            Kind::Keep => "vdd pkeep",
        };
        writeln!(text, "m{number} {drain} {gate} {source} {model}")?;
    }
    text.push_str(".ends t\n")?;
    Ok(text)
}

/// One of the three values.
fn drawn_value(draws: &mut Draws) -> Tri {
    match draws.below(3) {
        0 => Tri::Zero,
        1 => Tri::One,
        _ => Tri::Unknown,
    }
}

/// A value that is seldom unknown.
fn drawn_level(draws: &mut Draws) -> Tri {
    match draws.below(9) {
        0 => Tri::Unknown,
        1..=4 => Tri::Zero,
        _ => Tri::One,
    }
}

/// Generated values of all nets.
pub fn drawn_values(
    alloc: Global,
    sample: &Sample,
    draws: &mut Draws,
) -> Result<Vec<Tri>, AllocError> {
    let mut values = Vec::new(alloc);
    for net in 0..sample.names.len() {
        if sample.is_source(net) {
            values.push(drawn_level(draws))?;
        } else {
            values.push(drawn_value(draws))?;
        }
    }
    Ok(values)
}

//! Shorts and contests, from the paths between sources.
use crate::nets::{VDD, VSS, is_marked};
use dom_base::{Kind, Tri};
use plain_texts::{PlainDeck, PlainDevice};
use std::alloc::{AllocError, Global};

/// Which devices paths go through: those that aren't off, of these the strong ones, or those that are on
/// and strong.
#[derive(Clone, Copy, PartialEq, Eq)]
enum Through {
    Possible,
    PossibleStrong,
    DefiniteStrong,
}

/// The value of a net.
pub fn value_of(values: &[Tri], net: usize) -> Tri {
    values.get(net).copied().unwrap_or(Tri::Unknown)
}

/// Whether such paths go through a device.
fn goes(through: Through, device: &PlainDevice, values: &[Tri]) -> bool {
    let gate = value_of(values, device.gate);
    let on = match device.kind {
        Kind::N => Tri::One,
        Kind::P | Kind::Keep => Tri::Zero,
    };
    let strong = device.kind != Kind::Keep;
    match through {
        Through::Possible => gate == on || gate == Tri::Unknown,
        Through::PossibleStrong => strong && (gate == on || gate == Tri::Unknown),
        Through::DefiniteStrong => strong && gate == on,
    }
}

/// A deck with its number of sources and a value of each net.
#[derive(Clone, Copy)]
pub struct Valued<'a> {
    pub deck: &'a PlainDeck,
    pub sources: usize,
    pub values: &'a [Tri],
}

impl<'a> Valued<'a> {
    /// The nets that such paths join to a net, as marks. No source stands inside a path.
    fn reached(
        self,
        alloc: Global,
        through: Through,
        start: usize,
    ) -> Result<Vec<bool>, AllocError> {
        let mut marks = Vec::new(alloc);
        for net in 0..self.deck.nets.len() {
            marks.push(net == start)?;
        }
        for _ in 0..self.deck.nets.len() {
            let mut grew = false;
            for device in self.deck.devices.iter() {
                if goes(through, device, self.values) {
                    for (from, to) in [
                        (device.drain, device.source),
                        (device.source, device.drain),
                    ] {
                        if self.leads(&marks, start, from) && !is_marked(&marks, to) {
                            grew = mark(&mut marks, to) || grew;
                        }
                    }
                }
            }
            if !grew {
                break;
            }
        }
        Ok(marks)
    }

    /// The nets that a definite strong path joins to a net, as marks.
    pub fn held(self, alloc: Global, start: usize) -> Result<Vec<bool>, AllocError> {
        self.reached(alloc, Through::DefiniteStrong, start)
    }

    /// Whether a possible path joins a net to one that isn't 0.
    pub fn joins_charge(self, alloc: Global, start: usize) -> Result<bool, AllocError> {
        let marks = self.reached(alloc, Through::Possible, start)?;
        Ok(
            marks
                .iter()
                .zip(self.values.iter())
                .any(|(is_joined, value)| *is_joined && *value != Tri::Zero),
        )
    }

    /// Whether a path goes on from a net that is reached.
    fn leads(self, marks: &[bool], start: usize, net: usize) -> bool {
        is_marked(marks, net) && (net == start || net >= self.sources)
    }

    /// Whether a possible strong path joins two sources of different values.
    pub fn has_short(self, alloc: Global) -> Result<bool, AllocError> {
        for start in 0..self.sources {
            if self.is_end(start) {
                let marks = self.reached(alloc, Through::PossibleStrong, start)?;
                for other in 0..self.sources {
                    let differ = value_of(self.values, other) != value_of(self.values, start);
                    if differ && is_marked(&marks, other) {
                        return Ok(true);
                    }
                }
            }
        }
        Ok(false)
    }

    /// Whether a net is the end of a channel.
    fn is_end(self, net: usize) -> bool {
        self.deck
            .devices
            .iter()
            .any(|device| device.drain == net || device.source == net)
    }

    /// How many keepers contend, and whether each of them is overpowered.
    pub fn contests(self, alloc: Global) -> Result<(usize, bool), AllocError> {
        let mut count = 0usize;
        let mut overpowered = true;
        if !self.has_keeper() {
            return Ok((count, overpowered));
        }
        let supply = self.reached(alloc, Through::Possible, VDD)?;
        let ground = self.reached(alloc, Through::Possible, VSS)?;
        let strong = self.reached(alloc, Through::DefiniteStrong, VSS)?;
        for device in self.deck.devices.iter() {
            if device.kind == Kind::Keep && goes(Through::Possible, device, self.values) {
                let (drain, source) = (device.drain, device.source);
                let joins = |one, other| {
                    self.leads(&supply, VDD, one) && self.leads(&ground, VSS, other)
                };
                if joins(source, drain) || joins(drain, source) {
                    count = count.saturating_add(1);
                    let loses = value_of(self.values, device.gate) == Tri::Zero
                        && source == VDD
                        && is_marked(&strong, drain);
                    overpowered = overpowered && loses;
                }
            }
        }
        Ok((count, overpowered))
    }

    fn has_keeper(self) -> bool {
        self.deck
            .devices
            .iter()
            .any(|device| device.kind == Kind::Keep)
    }
}

fn mark(marks: &mut [bool], net: usize) -> bool {
    match marks.get_mut(net) {
        Some(slot) => {
            *slot = true;
            true
        }
        None => false,
    }
}

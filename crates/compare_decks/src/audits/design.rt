//! Circuits as the plain audit has them: ports, names of nets, and devices between nets by their numbers.
use comparison::Trouble;
use dom_base::Kind;
use plain_texts::{
    DeckReading, PlainDeck, PlainDevice, PlainRoles, find_roles, read_deck, write_deck,
};
use std::alloc::{AllocError, Global};

/// The number of `vdd`.
pub const VDD: usize = 0;

/// The number of `vss`.
pub const VSS: usize = 1;

/// How many ports are clocks, pins and outputs.
#[derive(Clone, Copy)]
pub struct Ports {
    pub clocks: usize,
    pub pins: usize,
    pub outs: usize,
}

/// A device of a kind between the nets of these numbers.
#[derive(Clone, Copy, PartialEq, Eq)]
pub struct Card {
    pub kind: Kind,
    pub drain: usize,
    pub gate: usize,
    pub source: usize,
}

/// A circuit. The names of the ports stand first.
#[derive(Drop)]
pub struct Design {
    pub ports: Ports,
    pub names: Vec<Vec<u8>>,
    pub cards: Vec<Card>,
}

impl Ports {
    /// The number of `lm`. `lmb`, `ls`, `lsb`, `rs` and `rsb` follow.
    pub fn first_control(self) -> usize {
        self.clocks.saturating_add(2)
    }

    pub fn first_pin(self) -> usize {
        self.clocks.saturating_add(8)
    }

    /// How many nets are sources: the ports before the outputs.
    pub fn sources(self) -> usize {
        self.first_pin().saturating_add(self.pins)
    }

    /// How many ports there are.
    pub fn count(self) -> usize {
        self.sources().saturating_add(self.outs)
    }

    pub fn is_source(self, net: usize) -> bool {
        net < self.sources()
    }

    pub fn is_port(self, net: usize) -> bool {
        net < self.count()
    }

    pub fn is_pin(self, net: usize) -> bool {
        net >= self.first_pin() && net < self.sources()
    }

    pub fn is_out(self, net: usize) -> bool {
        net >= self.sources() && net < self.count()
    }

    pub fn is_clock(self, net: usize) -> bool {
        net >= 2 && net < self.first_control()
    }

    pub fn is_control(self, net: usize) -> bool {
        net >= self.first_control() && net < self.first_pin()
    }
}

impl Card {
    /// Whether a net is one of its ends.
    pub fn ends_at(self, net: usize) -> bool {
        self.drain == net || self.source == net
    }

    /// Whether its ends are these two.
    pub fn joins(self, one: usize, other: usize) -> bool {
        (self.drain == one && self.source == other) || (self.drain == other && self.source == one)
    }

    /// Its end that isn't this net.
    pub fn far(self, net: usize) -> usize {
        if self.drain == net {
            self.source
        } else {
            self.drain
        }
    }

    /// Whether it is between the two nets, of this kind and with this gate.
    pub fn is(self, kind: Kind, gate: usize, one: usize, other: usize) -> bool {
        self.kind == kind && self.gate == gate && self.joins(one, other)
    }
}

impl Design {
    /// What a deck says, where its ports have roles.
    pub fn read(alloc: Global, text: &[u8]) -> Result<Design, Trouble> {
        let DeckReading::Deck(deck) = read_deck(alloc, text)? else {
            return Err(Trouble::Refused);
        };
        let ports = ports_of(alloc, deck.nets.get(..deck.ports).unwrap_or(&[]))?;
        let cards = cards_of(alloc, &deck.devices)?;
        Ok(Design {
            ports,
            names: deck.nets,
            cards,
        })
    }

    /// The same circuit.
    pub fn copied(&self, alloc: Global) -> Result<Design, AllocError> {
        let cards = self.cards.to_vec(alloc)?;
        Ok(Design {
            ports: self.ports,
            names: copied_names(alloc, &self.names)?,
            cards,
        })
    }

    /// The numbers of the ports.
    fn port_numbers(&self, alloc: Global) -> Result<Vec<usize>, AllocError> {
        let mut numbers = Vec::new(alloc);
        for port in 0..self.ports.count() {
            numbers.push(port)?;
        }
        Ok(numbers)
    }

    /// The devices between nets by their places in a list, to which those that are new are added.
    fn numbered_cards(
        &self,
        alloc: Global,
        nets: &mut Vec<usize>,
    ) -> Result<Vec<Card>, AllocError> {
        let mut cards = Vec::new(alloc);
        for card in self.cards.iter() {
            cards.push(numbered_card(nets, *card)?)?;
        }
        Ok(cards)
    }

    /// The name of a net.
    fn name(&self, net: usize) -> &[u8] {
        match self.names.get(net) {
            Some(name) => name.as_slice(),
            None => b"",
        }
    }

    /// The names of these nets.
    fn names_of(&self, alloc: Global, nets: &[usize]) -> Result<Vec<Vec<u8>>, AllocError> {
        let mut names = Vec::new(alloc);
        for net in nets {
            names.push(Vec::from_slice(alloc, self.name(*net))?)?;
        }
        Ok(names)
    }

    /// The circuit whose nets behind the ports are those of the devices alone, in order of first appearance.
    pub fn numbered(&self, alloc: Global) -> Result<Design, AllocError> {
        let mut nets = self.port_numbers(alloc)?;
        let cards = self.numbered_cards(alloc, &mut nets)?;
        Ok(Design {
            ports: self.ports,
            names: self.names_of(alloc, &nets)?,
            cards,
        })
    }

    /// Its devices as a deck has them.
    fn devices(&self, alloc: Global) -> Result<Vec<PlainDevice>, AllocError> {
        let mut devices = Vec::new(alloc);
        for card in self.cards.iter() {
            devices.push(PlainDevice {
                kind: card.kind,
                drain: card.drain,
                gate: card.gate,
                source: card.source,
            })?;
        }
        Ok(devices)
    }

    /// The text of its deck.
    pub fn text(&self, alloc: Global) -> Result<Vec<u8>, Trouble> {
        let name = Vec::from_slice(alloc, b"t")?;
        let devices = self.devices(alloc)?;
        let deck = PlainDeck {
            name,
            phases: Vec::new(alloc),
            ports: self.ports.count(),
            nets: copied_names(alloc, &self.names)?,
            devices,
        };
        Ok(write_deck(alloc, &deck)?)
    }
}

/// How many of ports of these names have which roles, where they have roles.
fn ports_of(alloc: Global, names: &[Vec<u8>]) -> Result<Ports, Trouble> {
    match find_roles(alloc, names)? {
        PlainRoles::Roles(clocks, pins, outs) => Ok(Ports { clocks, pins, outs }),
        _ => Err(Trouble::Refused),
    }
}

/// The devices of a deck.
fn cards_of(alloc: Global, devices: &[PlainDevice]) -> Result<Vec<Card>, AllocError> {
    let mut cards = Vec::new(alloc);
    for device in devices {
        cards.push(Card {
            kind: device.kind,
            drain: device.drain,
            gate: device.gate,
            source: device.source,
        })?;
    }
    Ok(cards)
}

/// The same names.
fn copied_names(alloc: Global, names: &[Vec<u8>]) -> Result<Vec<Vec<u8>>, AllocError> {
    let mut copied = Vec::new(alloc);
    for name in names {
        copied.push(name.to_vec(alloc)?)?;
    }
    Ok(copied)
}

/// The device between nets by their places in a list, to which those that are new are added.
fn numbered_card(nets: &mut Vec<usize>, card: Card) -> Result<Card, AllocError> {
    Ok(Card {
        kind: card.kind,
        drain: number_of(nets, card.drain)?,
        gate: number_of(nets, card.gate)?,
        source: number_of(nets, card.source)?,
    })
}

/// The place of a net in a list, to which it is added where it is new.
fn number_of(nets: &mut Vec<usize>, net: usize) -> Result<usize, AllocError> {
    match nets.iter().position(|other| *other == net) {
        Some(place) => Ok(place),
        None => {
            nets.push(net)?;
            Ok(nets.len().saturating_sub(1))
        }
    }
}

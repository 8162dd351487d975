//! What the nets of a deck are, from its devices and names alone.
use crate::parts::{CellNets, LatchNets, cell_nets, complement_nets, latch_nets};
use dom_base::Kind;
use plain_texts::{PlainDeck, PlainDevice};
use std::alloc::{AllocError, Global};

/// The number of `vdd`.
pub const VDD: usize = 0;

/// The number of `vss`.
pub const VSS: usize = 1;

/// The style of cells: a keeper at the dynamic net, or inner nets that are precharged as well.
#[derive(Clone, Copy, PartialEq, Eq)]
pub enum Style {
    Keeper,
    Precharge,
}

/// The style of the cells; the clocks of dynamic nets and of domino outputs, by net; the numbers of those that
/// gate a device or are outputs, of those that are always known, of the outputs and of the nets of cells and
/// latches; and the complements, each behind its leaf.
#[derive(Drop)]
pub struct NetKinds {
    pub style: Style,
    pub clocks: usize,
    pub sources: usize,
    pub dynamic: Vec<Option<usize>>,
    pub domino: Vec<Option<usize>>,
    pub watched: Vec<usize>,
    pub known: Vec<usize>,
    pub outputs: Vec<usize>,
    pub cells: Vec<CellNets>,
    pub latches: Vec<LatchNets>,
    pub complements: Vec<(usize, usize)>,
}

impl NetKinds {
    /// The number of `lm`, the first port behind the clocks.
    pub fn first_latch_port(&self) -> usize {
        self.clocks.saturating_add(2)
    }

    /// The number of the first pin.
    pub fn first_pin(&self) -> usize {
        self.clocks.saturating_add(8)
    }
}

/// Whether a net is marked.
pub fn is_marked(marks: &[bool], net: usize) -> bool {
    marks.get(net).copied().unwrap_or(false)
}

/// What stands in a list for a net, if anything does.
pub fn clock_at(clocks: &[Option<usize>], net: usize) -> Option<usize> {
    clocks.get(net).copied().unwrap_or(None)
}

/// Whether a device of the kind `pch` joins a net to `vdd`.
fn pulls_up(device: &PlainDevice, net: usize) -> bool {
    let ends = (device.drain, device.source);
    device.kind == Kind::P && (ends == (net, VDD) || ends == (VDD, net))
}

/// The clock of the first gate with a clock of a `pch` that joins a net to `vdd`.
pub fn clock_of(deck: &PlainDeck, clocks: &[Option<usize>], net: usize) -> Option<usize> {
    for device in deck.devices.iter() {
        let clock = clock_at(clocks, device.gate);
        if pulls_up(device, net) && clock.is_some() {
            return clock;
        }
    }
    None
}

/// The clocks of the nets that a `pch` joins to `vdd` whose gate has a clock.
fn pulled_up(
    alloc: Global,
    deck: &PlainDeck,
    clocks: &[Option<usize>],
) -> Result<Vec<Option<usize>>, AllocError> {
    let mut found = Vec::new(alloc);
    for net in 0..deck.nets.len() {
        found.push(clock_of(deck, clocks, net))?;
    }
    Ok(found)
}

/// Whether a name is one of these letters with a number.
fn is_numbered(name: &[u8], letters: &[u8]) -> bool {
    match name {
        [first, digits @ ..] => {
            letters.contains(first)
                && !digits.is_empty()
                && digits.iter().all(|digit| digit.is_ascii_digit())
        }
        _ => false,
    }
}

/// The nets whose names are one of these letters with a number, in order of the numbers' first use.
fn numbered_nets(
    alloc: Global,
    deck: &PlainDeck,
    letters: &[u8],
) -> Result<Vec<usize>, AllocError> {
    let mut nets = Vec::new(alloc);
    for (net, name) in deck.nets.iter().enumerate() {
        if net >= deck.ports && is_numbered(name, letters) {
            nets.push(net)?;
        }
    }
    Ok(nets)
}

/// Whether a net gates a device.
fn is_gate(deck: &PlainDeck, net: usize) -> bool {
    deck.devices.iter().any(|device| device.gate == net)
}

/// The kinds of the nets of a deck with so many clocks, pins and latches, whose cells are of this style.
pub fn net_kinds(
    alloc: Global,
    deck: &PlainDeck,
    clocks: usize,
    pins: usize,
    latches: usize,
    style: Style,
) -> Result<NetKinds, AllocError> {
    let sources = clocks.saturating_add(8).saturating_add(pins);
    let mut own: Vec<Option<usize>> = Vec::new(alloc);
    for net in 0..deck.nets.len() {
        let is_clock = net >= 2 && net < clocks.saturating_add(2);
        own.push(if is_clock { Some(net) } else { None })?;
    }
    let dynamic = pulled_up(alloc, deck, &own)?;
    let domino = pulled_up(alloc, deck, &dynamic)?;
    let mut outputs = Vec::new(alloc);
    for net in sources..deck.ports {
        outputs.push(net)?;
    }
    let mut watched = Vec::new(alloc);
    for net in sources..deck.nets.len() {
        if net < deck.ports || is_gate(deck, net) {
            watched.push(net)?;
        }
    }
    let mut known = numbered_nets(alloc, deck, b"dezcqx")?;
    known.extend_from_slice(&outputs)?;
    let latches = latch_nets(alloc, deck, latches)?;
    let first_pin = clocks.saturating_add(8);
    Ok(NetKinds {
        cells: cell_nets(alloc, deck, &own, style)?,
        complements: complement_nets(alloc, deck, first_pin, pins, &latches)?,
        latches,
        style,
        clocks,
        sources,
        dynamic,
        domino,
        watched,
        known,
        outputs,
    })
}

//! The nets of cells, latches and complements, by their names.
use crate::nets::{Style, clock_of};
use plain_texts::PlainDeck;
use std::alloc::{AllocError, Global};

/// The dynamic net of a cell, of a compound one its two, all nets that its clock precharges, its output and
/// its clock.
#[derive(Drop)]
pub struct CellNets {
    pub dynamic: Vec<usize>,
    pub precharged: Vec<usize>,
    pub output: usize,
    pub clock: usize,
}

/// The output, the master and the data of a latch.
#[derive(Clone, Copy)]
pub struct LatchNets {
    pub slave: usize,
    pub master: usize,
    pub data: usize,
}

/// The net that is called a letter and a number.
fn net_called(
    alloc: Global,
    deck: &PlainDeck,
    letter: &str,
    number: usize,
) -> Result<Option<usize>, AllocError> {
    let name = format!(in alloc; "{letter}{number}")?;
    Ok(
        deck.nets
            .iter()
            .position(|other| other.as_slice() == name.as_bytes()),
    )
}

/// The nets that are called a letter, a number and the numbers from 0 on.
fn inner_nets(
    alloc: Global,
    deck: &PlainDeck,
    letter: &str,
    number: usize,
) -> Result<Vec<usize>, AllocError> {
    let mut nets = Vec::new(alloc);
    let name = format!(in alloc; "{letter}{number}_")?;
    for index in 0..deck.nets.len() {
        match net_called(alloc, deck, name.as_str(), index)? {
            Some(net) => nets.push(net)?,
            None => break,
        }
    }
    Ok(nets)
}

/// The nets of a cell that its clock precharges: a dynamic net, of a compound cell two, and in the style with
/// precharged inner nets those.
fn precharged_nets(
    alloc: Global,
    deck: &PlainDeck,
    dynamic: &[usize],
    number: usize,
    style: Style,
) -> Result<Vec<usize>, AllocError> {
    let mut nets = Vec::new(alloc);
    nets.extend_from_slice(dynamic)?;
    if style == Style::Precharge {
        nets.extend_from_slice(&inner_nets(alloc, deck, "t", number)?)?;
        nets.extend_from_slice(&inner_nets(alloc, deck, "u", number)?)?;
    }
    Ok(nets)
}

/// The nets of all cells of this style, in order.
pub fn cell_nets(
    alloc: Global,
    deck: &PlainDeck,
    clocks: &[Option<usize>],
    style: Style,
) -> Result<Vec<CellNets>, AllocError> {
    let mut cells = Vec::new(alloc);
    for number in 0..deck.nets.len() {
        let left = net_called(alloc, deck, "d", number)?;
        let output = net_called(alloc, deck, "z", number)?;
        let (Some(left), Some(output)) = (left, output) else {
            break;
        };
        let mut dynamic = Vec::new(alloc);
        dynamic.push(left)?;
        if let Some(right) = net_called(alloc, deck, "e", number)? {
            dynamic.push(right)?;
        }
        if let Some(clock) = clock_of(deck, clocks, left) {
            cells.push(CellNets {
                precharged: precharged_nets(alloc, deck, &dynamic, number, style)?,
                dynamic,
                output,
                clock,
            })?;
        }
    }
    Ok(cells)
}

/// The nets of so many latches.
pub fn latch_nets(
    alloc: Global,
    deck: &PlainDeck,
    latches: usize,
) -> Result<Vec<LatchNets>, AllocError> {
    let none = deck.nets.len();
    let mut nets = Vec::new(alloc);
    for number in 0..latches {
        nets.push(LatchNets {
            slave: net_called(alloc, deck, "q", number)?.unwrap_or(none),
            master: net_called(alloc, deck, "m", number)?.unwrap_or(none),
            data: net_called(alloc, deck, "x", number)?.unwrap_or(none),
        })?;
    }
    Ok(nets)
}

/// The complements that there are, each behind its leaf.
pub fn complement_nets(
    alloc: Global,
    deck: &PlainDeck,
    first_pin: usize,
    pins: usize,
    latches: &[LatchNets],
) -> Result<Vec<(usize, usize)>, AllocError> {
    let mut nets = Vec::new(alloc);
    for leaf in 0..pins.saturating_add(latches.len()) {
        let own = match latches.get(leaf.saturating_sub(pins)) {
            Some(latch) if leaf >= pins => latch.slave,
            _ => first_pin.saturating_add(leaf),
        };
        if let Some(complement) = net_called(alloc, deck, "c", leaf)? {
            nets.push((own, complement))?;
        }
    }
    Ok(nets)
}

//! The words of an audit: inverter outputs, dynamic nets, and what gates or ends at a net.
use crate::audits::design::{Card, Design, VDD, VSS};
use dom_base::Kind;
use std::alloc::{AllocError, Global};

/// Whether a net gates no device.
pub fn gates_none(design: &Design, net: usize) -> bool {
    design.cards.iter().all(|card| card.gate != net)
}

/// Whether no device ends at a net.
pub fn ends_none(design: &Design, net: usize) -> bool {
    design.cards.iter().all(|card| !card.ends_at(net))
}

/// The input of a net as an inverter output, where it is one: exactly two devices end at it, a `pch` to `vdd` and an `nch`
/// to `vss`, with one gate.
fn inverted(design: &Design, net: usize) -> Option<usize> {
    let mut up: Option<usize> = None;
    let mut down: Option<usize> = None;
    for card in design.cards.iter() {
        if card.ends_at(net) {
            if card.kind == Kind::P && card.joins(net, VDD) && up.is_none() {
                up = Some(card.gate);
            } else if card.kind == Kind::N && card.joins(net, VSS) && down.is_none() {
                down = Some(card.gate);
            } else {
                return None;
            }
        }
    }
    if up == down { up } else { None }
}

/// The input of each net that is an inverter output.
pub fn inputs_of(alloc: Global, design: &Design) -> Result<Vec<Option<usize>>, AllocError> {
    let mut inputs = Vec::new(alloc);
    for net in 0..design.names.len() {
        inputs.push(inverted(design, net))?;
    }
    Ok(inputs)
}

/// The input of a net, where it is an inverter output.
pub fn input_of(inputs: &[Option<usize>], net: usize) -> Option<usize> {
    inputs.get(net).copied().unwrap_or(None)
}

/// Whether a device makes a net dynamic: it is a keeper that ends there, or a `pch` from it to `vdd` that a clock gates.
fn makes_dynamic(design: &Design, card: Card, net: usize) -> bool {
    match card.kind {
        Kind::Keep => card.ends_at(net),
        Kind::P => design.ports.is_clock(card.gate) && card.joins(net, VDD),
        Kind::N => false,
    }
}

/// The dynamic nets, the smaller numbers first.
pub fn dynamic_nets(alloc: Global, design: &Design) -> Result<Vec<usize>, AllocError> {
    let mut nets = Vec::new(alloc);
    for net in design.ports.sources()..design.names.len() {
        if design
            .cards
            .iter()
            .any(|card| makes_dynamic(design, *card, net))
        {
            nets.push(net)?;
        }
    }
    Ok(nets)
}

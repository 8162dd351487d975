//! Drawn subcircuits that call one another, expanded by two ways; and what comes of it where a port of a call is
//! taken for an inner net.
use crate::laws::laws::{Kept, Tally};
use comparison::Trouble;
use dom_base::Kind;
use plain_circuits::{CallCard, NamedDevice, Subckt, by_stack, by_substitution, same_devices};
use plain_texts::Draws;
use std::alloc::{AllocError, Global};

/// The names of nets, of which the first are the ports of a subcircuit.
const NETS: [&str; 5] = ["a", "b", "c", "n", "m"];

/// The most steps of an expansion.
const STEPS: usize = 100_000;

/// So many drawn nets.
fn drawn_nets(alloc: Global, draws: &mut Draws, count: usize) -> Result<Vec<Vec<u8>>, AllocError> {
    let mut nets = Vec::new(alloc);
    for _ in 0..count {
        nets.push(Vec::from_slice(alloc, draws.pick(&NETS).as_bytes())?)?;
    }
    Ok(nets)
}

/// A device, or a call of one of these subcircuits.
fn drawn_card(
    alloc: Global,
    draws: &mut Draws,
    before: &[Subckt],
    number: usize,
) -> Result<CallCard, AllocError> {
    let is_call = draws.below(3) > 0;
    match before.get(draws.below(before.len())) {
        Some(called) if is_call => {
            let name = format!(in alloc; "x{number}")?;
            Ok(CallCard::Call(
                Vec::from_slice(alloc, name.as_bytes())?,
                drawn_nets(alloc, draws, called.ports.len())?,
                Vec::from_slice(alloc, &called.name)?,
            ))
        }
        _ => Ok(CallCard::Device(Kind::N, drawn_nets(alloc, draws, 3)?)),
    }
}

/// The subcircuits of the case of this number.
fn drawn_subckts(alloc: Global, number: u64) -> Result<Vec<Subckt>, AllocError> {
    let mut draws = Draws::of_case(number);
    let mut all: Vec<Subckt> = Vec::new(alloc);
    for place in 0..draws.below(4).saturating_add(2) {
        let name = format!(in alloc; "s{place}")?;
        let mut ports = Vec::new(alloc);
        for port in NETS.iter().take(draws.below(3).saturating_add(1)) {
            ports.push(Vec::from_slice(alloc, port.as_bytes())?)?;
        }
        let mut cards = Vec::new(alloc);
        for number in 0..draws.below(3).saturating_add(1) {
            cards.push(drawn_card(alloc, &mut draws, &all, number)?)?;
        }
        all.push(Subckt {
            name: Vec::from_slice(alloc, name.as_bytes())?,
            ports,
            cards,
        })?;
    }
    Ok(all)
}

/// Whether two lists of devices are there and the same.
fn are_same(devices: &Option<Vec<NamedDevice>>, others: &[NamedDevice]) -> bool {
    match devices {
        Some(devices) => same_devices(devices, others),
        None => false,
    }
}

/// Expands so many drawn texts by both ways.
pub fn nested_kept(alloc: Global, cases: u64) -> Result<Kept, Trouble> {
    let mut count = 0u64;
    for number in 0..cases {
        let subckts = drawn_subckts(alloc, number)?;
        let devices = by_substitution(alloc, &subckts)?;
        if !are_same(&by_stack(alloc, &subckts, None, STEPS)?, &devices) {
            return Ok(Kept::Broken(number));
        }
        count = count.saturating_add(devices.len() as u64);
    }
    Ok(Kept::Events(count))
}

/// Expands so many drawn texts where the first port of each call is taken for an inner net.
pub fn lost_nets_found(alloc: Global, cases: u64) -> Result<Tally, Trouble> {
    let mut all = Tally {
        decks: 0,
        broken: 0,
    };
    for number in 0..cases {
        let subckts = drawn_subckts(alloc, number)?;
        let devices = by_substitution(alloc, &subckts)?;
        all.decks = all.decks.saturating_add(1);
        if !are_same(&by_stack(alloc, &subckts, Some(0), STEPS)?, &devices) {
            all.broken = all.broken.saturating_add(1);
        }
    }
    Ok(all)
}

//! Whether the order of a Yes is that of a deck: cells, complements, latches, outputs and then latch data.
use crate::audits::cells::Cell;
use crate::audits::design::{Card, Design, VDD, VSS};
use crate::audits::latches::Group;
use crate::audits::leaves::reads;
use crate::audits::parts::Parts;
use crate::audits::words::input_of;
use dom_base::Kind;
use std::alloc::{AllocError, Global};

/// Whether two parts of a tree meet at a net other than these.
fn meet(left: &[Card], right: &[Card], but: &[usize]) -> bool {
    left.iter().any(|card| {
        [card.drain, card.source].iter().any(|net| {
            !but.contains(net) && right.iter().any(|other| other.ends_at(*net))
        })
    })
}

/// The nets at which two parts of a tree may be joined, the bottom of the left part and the top of the right one: those of
/// the whole, in parallel, or in series an end of the left part's last device.
fn joints(left: &[Card], top: usize, bottom: usize) -> [(usize, usize); 3] {
    let (drain, source) = left
        .last()
        .map_or((top, top), |card| (card.drain, card.source));
    [(bottom, top), (drain, drain), (source, source)]
}

/// Whether two parts meet at no net but those at which they are joined.
fn fits(left: &[Card], right: &[Card], joint: (usize, usize), top: usize, bottom: usize) -> bool {
    if joint == (bottom, top) {
        !meet(left, right, &[top, bottom])
    } else {
        joint.0 != top && joint.0 != bottom && !meet(left, right, &[joint.0])
    }
}

/// Whether devices in this order are a tree from a top to a bottom: in a parallel or a series the left part stands first.
fn spells(cards: &[Card], top: usize, bottom: usize, fuel: usize) -> bool {
    if fuel == 0 {
        return false;
    }
    if let [card] = cards {
        return top != bottom && card.joins(top, bottom);
    }
    for split in 1..cards.len() {
        let left = cards.get(..split).unwrap_or(&[]);
        let right = cards.get(split..).unwrap_or(&[]);
        for joint in joints(left, top, bottom) {
            let fit = fits(left, right, joint, top, bottom);
            if fit
                && spells(left, top, joint.0, fuel - 1)
                && spells(right, joint.1, bottom, fuel - 1)
            {
                return true;
            }
        }
    }
    false
}

/// What is left of an order behind its first so many places, which are to be these; nothing where they aren't.
fn behind<'a>(order: &'a [usize], wanted: &[usize]) -> Option<&'a [usize]> {
    if order.starts_with(wanted) {
        order.get(wanted.len()..)
    } else {
        None
    }
}

/// Adds the places of the devices of a kind between a net and a supply.
fn push_devices(
    design: &Design,
    kind: Kind,
    net: usize,
    rail: usize,
    places: &mut Vec<usize>,
) -> Result<(), AllocError> {
    for (place, card) in design.cards.iter().enumerate() {
        if card.kind == kind && card.joins(net, rail) {
            places.push(place)?;
        }
    }
    Ok(())
}

/// Adds the places of the inverter whose output is a net: its `pch` and then its `nch`.
fn push_inverter(design: &Design, net: usize, places: &mut Vec<usize>) -> Result<(), AllocError> {
    push_devices(design, Kind::P, net, VDD, places)?;
    push_devices(design, Kind::N, net, VSS, places)
}

/// The devices of a cell's tree in an order, as far as they are its first ones.
fn tree_of(
    alloc: Global,
    design: &Design,
    cell: &Cell,
    order: &[usize],
) -> Result<Vec<Card>, AllocError> {
    let mut tree = Vec::new(alloc);
    for place in order.iter().take(cell.tree.len()) {
        if let (true, Some(card)) = (cell.tree.contains(place), design.cards.get(*place)) {
            tree.push(*card)?;
        }
    }
    Ok(tree)
}

/// Whether an order begins with the devices of a cell's tree, in the order of a deck.
fn starts_with_tree(
    alloc: Global,
    design: &Design,
    cell: &Cell,
    order: &[usize],
) -> Result<bool, AllocError> {
    let count = cell.tree.len();
    let tree = tree_of(alloc, design, cell, order)?;
    let fuel = count.saturating_add(1).saturating_mul(4);
    Ok(tree.len() == count && spells(&tree, cell.front.dynamic, cell.bottom, fuel))
}

/// The places of a cell's devices behind its tree: its foot and the inverter of its output.
fn end_of(alloc: Global, design: &Design, cell: &Cell) -> Result<Vec<usize>, AllocError> {
    let mut places = Vec::new(alloc);
    places.push(cell.foot)?;
    push_inverter(design, cell.front.output, &mut places)?;
    Ok(places)
}

/// What is left of an order behind a cell's devices, in the order of a deck.
fn behind_cell<'a>(
    alloc: Global,
    design: &Design,
    cell: &Cell,
    order: &'a [usize],
) -> Result<Option<&'a [usize]>, AllocError> {
    let Some(rest) = behind(order, &[cell.front.precharge, cell.front.keeper]) else {
        return Ok(None);
    };
    if !starts_with_tree(alloc, design, cell, rest)? {
        return Ok(None);
    }
    let end = end_of(alloc, design, cell)?;
    Ok(behind(rest.get(cell.tree.len()..).unwrap_or(&[]), &end))
}

/// The cell whose precharge device is the first of an order, where it reads only cells with these dynamic nets.
fn first_cell<'a>(
    design: &Design,
    parts: &'a Parts,
    order: &[usize],
    had: &[usize],
) -> Option<&'a Cell> {
    let first = *order.first()?;
    let cell = parts
        .cells
        .iter()
        .find(|cell| cell.front.precharge == first)?;
    let reads_later = parts.cells.iter().any(|other| {
        !had.contains(&other.front.dynamic) && reads(design, cell, other.front.output)
    });
    if reads_later { None } else { Some(cell) }
}

/// What is left of an order behind its first cell, whose dynamic net is added to those of the cells before it.
fn behind_next<'a>(
    alloc: Global,
    design: &Design,
    parts: &Parts,
    order: &'a [usize],
    had: &mut Vec<usize>,
) -> Result<Option<&'a [usize]>, AllocError> {
    match first_cell(design, parts, order, had) {
        Some(cell) => {
            had.push(cell.front.dynamic)?;
            behind_cell(alloc, design, cell, order)
        }
        None => Ok(None),
    }
}

/// What is left of an order behind the cells, each behind those that it reads.
fn behind_cells<'a>(
    alloc: Global,
    design: &Design,
    parts: &Parts,
    order: &'a [usize],
) -> Result<Option<&'a [usize]>, AllocError> {
    let mut rest = Some(order);
    let mut had: Vec<usize> = Vec::new(alloc);
    for _ in 0..parts.cells.len() {
        if let Some(left) = rest {
            rest = behind_next(alloc, design, parts, left, &mut had)?;
        }
    }
    Ok(rest)
}

/// The groups in the order in which their first devices stand.
fn latches_in_order(
    alloc: Global,
    groups: &[Group],
    order: &[usize],
) -> Result<Vec<Group>, AllocError> {
    let mut latches = Vec::new(alloc);
    for place in order {
        for group in groups {
            if group.places.first() == Some(place) {
                latches.push(*group)?;
            }
        }
    }
    Ok(latches)
}

/// Adds the places of the inverters of the complements of a net.
fn push_complements(
    design: &Design,
    parts: &Parts,
    input: usize,
    places: &mut Vec<usize>,
) -> Result<(), AllocError> {
    for net in parts.complements.iter() {
        if input_of(&parts.inputs, *net) == Some(input) {
            push_inverter(design, *net, places)?;
        }
    }
    Ok(())
}

/// Adds the places of the complements' inverters by rising signal: those of pins, then those of the outputs of latches as
/// they are listed.
fn push_all_complements(
    design: &Design,
    parts: &Parts,
    latches: &[Group],
    places: &mut Vec<usize>,
) -> Result<(), AllocError> {
    for pin in design.ports.first_pin()..design.ports.sources() {
        push_complements(design, parts, pin, places)?;
    }
    for latch in latches {
        push_complements(design, parts, latch.output, places)?;
    }
    Ok(())
}

/// Adds the places of the sinks' inverters: those of output ports, then those of the data of latches as they are listed.
fn push_sinks(
    design: &Design,
    latches: &[Group],
    places: &mut Vec<usize>,
) -> Result<(), AllocError> {
    for out in design.ports.sources()..design.ports.count() {
        push_inverter(design, out, places)?;
    }
    for latch in latches {
        push_inverter(design, latch.data, places)?;
    }
    Ok(())
}

/// The places behind the cells, where the latches stand in this order.
fn places_behind(
    alloc: Global,
    design: &Design,
    parts: &Parts,
    latches: &[Group],
) -> Result<Vec<usize>, AllocError> {
    let mut places = Vec::new(alloc);
    push_all_complements(design, parts, latches, &mut places)?;
    for latch in latches {
        places.extend_from_slice(&latch.places)?;
    }
    push_sinks(design, latches, &mut places)?;
    Ok(places)
}

/// Whether the places of an order are those of all devices, each once.
fn has_all(design: &Design, order: &[usize]) -> bool {
    let count = design.cards.len();
    order.len() == count && (0..count).all(|place| order.contains(&place))
}

/// Whether the places of an order are those of all devices, each once, as they stand in a deck.
pub fn is_order(
    alloc: Global,
    design: &Design,
    parts: &Parts,
    order: &[usize],
) -> Result<bool, AllocError> {
    if !has_all(design, order) {
        return Ok(false);
    }
    let Some(rest) = behind_cells(alloc, design, parts, order)? else {
        return Ok(false);
    };
    let latches = latches_in_order(alloc, &parts.groups, rest)?;
    let wanted = places_behind(alloc, design, parts, &latches)?;
    Ok(rest == wanted.as_slice())
}

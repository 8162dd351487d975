//! The cells of a circuit, by the first three rules.
use crate::audits::design::{Card, Design, VDD, VSS};
use crate::audits::reduction::{Link, reduced};
use crate::audits::words::{gates_none, input_of};
use dom_base::Kind;
use std::alloc::{AllocError, Global};

/// What stands above the tree of a cell: its dynamic net, its clock, its output, and the places of its precharge device
/// and of its keeper.
#[derive(Clone, Copy)]
pub struct Front {
    pub dynamic: usize,
    pub clock: usize,
    pub output: usize,
    pub precharge: usize,
    pub keeper: usize,
}

/// A cell: what stands above its tree, the other end and the place of its foot, the nets that are reached, the places of
/// its tree, and the tree's width and height.
#[derive(Drop)]
pub struct Cell {
    pub front: Front,
    pub bottom: usize,
    pub foot: usize,
    pub nets: Vec<usize>,
    pub tree: Vec<usize>,
    pub width: usize,
    pub height: usize,
}

/// The one device of a kind that ends at a net, with its place.
fn only_device(design: &Design, kind: Kind, net: usize) -> Option<(usize, Card)> {
    let mut found: Option<(usize, Card)> = None;
    for (place, card) in design.cards.iter().enumerate() {
        if card.kind == kind && card.ends_at(net) {
            if found.is_some() {
                return None;
            }
            found = Some((place, *card));
        }
    }
    found
}

/// The front of a dynamic net that keeps the first rule.
pub fn front_of(design: &Design, dynamic: usize) -> Option<Front> {
    let (precharge, up) = only_device(design, Kind::P, dynamic)?;
    let (keeper, weak) = only_device(design, Kind::Keep, dynamic)?;
    let holds = !design.ports.is_port(dynamic)
        && up.joins(dynamic, VDD)
        && design.ports.is_clock(up.gate)
        && weak.joins(dynamic, VDD);
    if !holds {
        return None;
    }
    Some(Front {
        dynamic,
        clock: up.gate,
        output: weak.gate,
        precharge,
        keeper,
    })
}

/// Whether a front keeps the second rule.
pub fn has_output(design: &Design, inputs: &[Option<usize>], front: Front) -> bool {
    !design.ports.is_port(front.output) && input_of(inputs, front.output) == Some(front.dynamic)
}

/// The end of an `nch` device to which it leads from these nets, where that is none of them and no source.
fn new_end(design: &Design, card: Card, nets: &[usize]) -> Option<usize> {
    let end = match (nets.contains(&card.drain), nets.contains(&card.source)) {
        (true, false) => card.source,
        (false, true) => card.drain,
        _ => return None,
    };
    if card.kind == Kind::N && !design.ports.is_source(end) {
        Some(end)
    } else {
        None
    }
}

/// A net to which an `nch` device leads from these nets, where that is none of them and no source.
fn next_net(design: &Design, nets: &[usize]) -> Option<usize> {
    for card in design.cards.iter() {
        if let Some(net) = new_end(design, *card, nets) {
            return Some(net);
        }
    }
    None
}

/// The nets that `nch` devices lead to from a net, itself first, with no source among them.
fn reached_nets(alloc: Global, design: &Design, start: usize) -> Result<Vec<usize>, AllocError> {
    let mut nets = Vec::new(alloc);
    nets.push(start)?;
    for _ in 0..design.names.len() {
        match next_net(design, &nets) {
            Some(net) => nets.push(net)?,
            None => break,
        }
    }
    Ok(nets)
}

/// The places of the `nch` devices that end at one of these nets.
fn reached_places(
    alloc: Global,
    design: &Design,
    nets: &[usize],
) -> Result<Vec<usize>, AllocError> {
    let mut places = Vec::new(alloc);
    for (place, card) in design.cards.iter().enumerate() {
        let ends = nets.contains(&card.drain) || nets.contains(&card.source);
        if card.kind == Kind::N && ends {
            places.push(place)?;
        }
    }
    Ok(places)
}

/// Whether one of the ends of the device at a place is a source.
fn is_at_source(design: &Design, place: usize) -> bool {
    match design.cards.get(place) {
        Some(card) => { design.ports.is_source(card.drain) || design.ports.is_source(card.source) }
        None => false,
    }
}

/// The place of the foot and its end at the tree, where of the reached devices one alone ends at a source, as a foot
/// does.
fn foot_of(design: &Design, front: Front, places: &[usize]) -> Option<(usize, usize)> {
    let mut at_source = places.iter().filter(|place| is_at_source(design, **place));
    let foot = *at_source.next()?;
    if at_source.next().is_some() {
        return None;
    }
    let card = design.cards.get(foot).copied()?;
    let bottom = card.far(VSS);
    let holds = card.is(Kind::N, front.clock, bottom, VSS)
        && bottom != front.dynamic
        && !design.ports.is_source(bottom);
    if holds { Some((foot, bottom)) } else { None }
}

/// Whether a net is inside a cell: only `nch` devices end at it, it gates nothing and is no port.
fn is_inside(design: &Design, net: usize) -> bool {
    let only = design
        .cards
        .iter()
        .all(|card| card.kind == Kind::N || !card.ends_at(net));
    only && gates_none(design, net) && !design.ports.is_port(net)
}

/// The devices at these places as links.
fn links_of(alloc: Global, design: &Design, places: &[usize]) -> Result<Vec<Link>, AllocError> {
    let mut links = Vec::new(alloc);
    for place in places {
        if let Some(card) = design.cards.get(*place) {
            links.push(Link {
                ends: (card.drain, card.source),
                width: 1,
                height: 1,
            })?;
        }
    }
    Ok(links)
}

/// Whether all reached nets but the dynamic one are inside a cell.
fn are_inside(design: &Design, dynamic: usize, nets: &[usize]) -> bool {
    nets.iter()
        .all(|net| *net == dynamic || is_inside(design, *net))
}

/// The places but one.
fn without(alloc: Global, places: &[usize], one: usize) -> Result<Vec<usize>, AllocError> {
    let mut left = Vec::new(alloc);
    for place in places {
        if *place != one {
            left.push(*place)?;
        }
    }
    Ok(left)
}

/// The cell of a front with these reached nets, where the devices at these places are its tree and its foot.
fn cell_with(
    alloc: Global,
    design: &Design,
    front: Front,
    nets: Vec<usize>,
    places: &[usize],
) -> Result<Option<Cell>, AllocError> {
    let Some((foot, bottom)) = foot_of(design, front, places) else {
        return Ok(None);
    };
    let tree = without(alloc, places, foot)?;
    let links = links_of(alloc, design, &tree)?;
    Ok(match reduced(alloc, links, front.dynamic, bottom)? {
        Some((width, height)) => Some(Cell {
            front,
            bottom,
            foot,
            nets,
            tree,
            width,
            height,
        }),
        None => None,
    })
}

/// The cell of a front that keeps the third rule.
pub fn cell_of(alloc: Global, design: &Design, front: Front) -> Result<Option<Cell>, AllocError> {
    let nets = reached_nets(alloc, design, front.dynamic)?;
    if !are_inside(design, front.dynamic, &nets) {
        return Ok(None);
    }
    let places = reached_places(alloc, design, &nets)?;
    cell_with(alloc, design, front, nets, &places)
}

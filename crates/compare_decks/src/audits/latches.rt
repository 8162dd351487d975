//! The latches of a circuit, by the fourth rule.
use crate::audits::design::{Card, Design, VDD, VSS};
use dom_base::Kind;
use std::alloc::{AllocError, Global};

/// Two devices in series from a net to a supply: their places, the net between them and the gate of the one at the
/// supply.
#[derive(Clone, Copy)]
struct Stack {
    switch: usize,
    end: usize,
    inner: usize,
    data: usize,
}

/// Half a latch: a clocked inverter from its data to a net.
#[derive(Clone, Copy)]
struct Half {
    net: usize,
    up: Stack,
    down: Stack,
}

/// Nine devices of the form of a latch: its master, its output and its data, its four inner nets, and the places of its
/// devices in order.
#[derive(Clone, Copy)]
pub struct Group {
    pub master: usize,
    pub output: usize,
    pub data: usize,
    pub inner: [usize; 4],
    pub places: [usize; 9],
}

impl Group {
    /// Whether a net is its own: its master, its output or an inner net.
    pub fn owns(&self, net: usize) -> bool {
        net == self.master || net == self.output || self.inner.contains(&net)
    }
}

/// Adds the stacks from a net to a supply whose upper device stands at this place.
fn push_stacks(
    design: &Design,
    (switch, card): (usize, Card),
    (net, rail): (usize, usize),
    found: &mut Vec<Stack>,
) -> Result<(), AllocError> {
    let inner = card.far(net);
    for (end, other) in design.cards.iter().enumerate() {
        if other.kind == card.kind && other.joins(inner, rail) {
            found.push(Stack {
                switch,
                end,
                inner,
                data: other.gate,
            })?;
        }
    }
    Ok(())
}

/// The stacks of a kind from a net to a supply whose upper device has this gate.
fn stacks(
    alloc: Global,
    design: &Design,
    kind: Kind,
    control: usize,
    net: usize,
    rail: usize,
) -> Result<Vec<Stack>, AllocError> {
    let mut found = Vec::new(alloc);
    for (switch, card) in design.cards.iter().enumerate() {
        if card.kind == kind && card.gate == control && card.ends_at(net) {
            push_stacks(design, (switch, *card), (net, rail), &mut found)?;
        }
    }
    Ok(found)
}

/// Adds the halves of an upper stack of a net and these lower ones.
fn push_halves(
    net: usize,
    up: Stack,
    downs: &[Stack],
    found: &mut Vec<Half>,
) -> Result<(), AllocError> {
    for down in downs {
        if up.data == down.data {
            found.push(Half {
                net,
                up,
                down: *down,
            })?;
        }
    }
    Ok(())
}

/// Adds the halves of a net whose upper devices have the gates of a pair, of which the first is this one.
fn push_halves_at(
    alloc: Global,
    design: &Design,
    pair: usize,
    net: usize,
    found: &mut Vec<Half>,
) -> Result<(), AllocError> {
    let ups = stacks(alloc, design, Kind::P, pair.saturating_add(1), net, VDD)?;
    let downs = stacks(alloc, design, Kind::N, pair, net, VSS)?;
    for up in ups.iter() {
        push_halves(net, *up, &downs, found)?;
    }
    Ok(())
}

/// The halves whose upper devices have the gates of a pair, of which the first is this one.
fn halves(alloc: Global, design: &Design, pair: usize) -> Result<Vec<Half>, AllocError> {
    let mut found = Vec::new(alloc);
    for net in design.ports.sources()..design.names.len() {
        push_halves_at(alloc, design, pair, net, &mut found)?;
    }
    Ok(found)
}

/// Whether numbers differ from each other.
fn differ(numbers: &[usize]) -> bool {
    numbers.iter().enumerate().all(|(place, number)| numbers
        .iter()
        .take(place)
        .all(|other| other != number))
}

/// The form of a latch of two halves and a reset device.
fn joined(master: Half, output: Half, reset: usize) -> Group {
    Group {
        master: master.net,
        output: output.net,
        data: master.up.data,
        inner: [
            master.up.inner,
            master.down.inner,
            output.up.inner,
            output.down.inner,
        ],
        places: [
            master.up.switch,
            master.up.end,
            master.down.switch,
            master.down.end,
            output.up.switch,
            output.up.end,
            output.down.switch,
            output.down.end,
            reset,
        ],
    }
}

/// Whether the nets and the places of a group differ and none of its nets is a source.
fn is_apart(design: &Design, group: &Group) -> bool {
    let [first, second, third, fourth] = group.inner;
    let nets = [
        first,
        second,
        third,
        fourth,
        group.master,
        group.output,
        group.data,
    ];
    let free = nets.iter().all(|net| !design.ports.is_source(*net));
    free && differ(&nets) && differ(&group.places)
}

/// The places of the devices that can reset a latch of this output.
fn resets(alloc: Global, design: &Design, output: usize) -> Result<Vec<usize>, AllocError> {
    let first = design.ports.first_control().saturating_add(4);
    let mut places = Vec::new(alloc);
    for (place, card) in design.cards.iter().enumerate() {
        let to_zero = card.is(Kind::N, first, output, VSS);
        let to_one = card.is(Kind::P, first.saturating_add(1), output, VDD);
        if to_zero || to_one {
            places.push(place)?;
        }
    }
    Ok(places)
}

/// Adds the groups of an output and a reset device.
fn push_groups(
    design: &Design,
    masters: &[Half],
    output: Half,
    reset: usize,
    groups: &mut Vec<Group>,
) -> Result<(), AllocError> {
    for master in masters {
        let group = joined(*master, output, reset);
        if output.up.data == master.net && is_apart(design, &group) {
            groups.push(group)?;
        }
    }
    Ok(())
}

/// Adds the groups of an output.
fn push_groups_of(
    alloc: Global,
    design: &Design,
    masters: &[Half],
    output: Half,
    groups: &mut Vec<Group>,
) -> Result<(), AllocError> {
    let places = resets(alloc, design, output.net)?;
    for reset in places.iter() {
        push_groups(design, masters, output, *reset, groups)?;
    }
    Ok(())
}

/// All groups.
pub fn groups_of(alloc: Global, design: &Design) -> Result<Vec<Group>, AllocError> {
    let first = design.ports.first_control();
    let masters = halves(alloc, design, first)?;
    let outputs = halves(alloc, design, first.saturating_add(2))?;
    let mut groups = Vec::new(alloc);
    for output in outputs.iter() {
        push_groups_of(alloc, design, &masters, *output, &mut groups)?;
    }
    Ok(groups)
}

/// Whether the fourth rule asks about a net.
fn is_asked(design: &Design, net: usize) -> bool {
    let controlled = design.cards.iter().any(|card| card.ends_at(net)
        && design.ports.is_control(card.gate));
    controlled && !design.ports.is_source(net)
}

/// Whether a group has its nets to itself.
fn is_alone(design: &Design, group: &Group) -> bool {
    let is_port = |net: usize| design.ports.is_port(net);
    let has_port = is_port(group.master)
        || is_port(group.output)
        || is_port(group.data)
        || group.inner.iter().any(|net| is_port(*net));
    let apart = design.cards.iter().enumerate().all(|(place, card)| {
        let is_own = group.places.contains(&place);
        let is_near = group.owns(card.drain)
            || group.owns(card.source)
            || card.gate == group.master;
        (is_own || !is_near) && !group.inner.contains(&card.gate)
    });
    apart && !has_port
}

/// Whether a net lies in one group alone, which has its nets to itself.
fn has_latch(design: &Design, groups: &[Group], net: usize) -> bool {
    let mut own = groups.iter().filter(|group| group.owns(net));
    match own.next() {
        Some(group) => own.next().is_none() && is_alone(design, group),
        None => false,
    }
}

/// The smallest net at which the fourth rule is broken.
pub fn broken_latch(design: &Design, groups: &[Group]) -> Option<usize> {
    (0..design.names.len()).find(|net| is_asked(design, *net) && !has_latch(design, groups, *net))
}

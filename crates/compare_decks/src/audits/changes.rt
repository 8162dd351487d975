//! Circuits that are the same in another order, and changed ones.
use crate::audits::design::{Card, Design, VDD, VSS};
use crate::audits::tally::CHANGES;
use dom_base::Kind;
use plain_texts::Draws;
use std::alloc::{AllocError, Global};

/// What new names of inner nets begin with.
const STARTS: &[&str] = &["d", "z", "f", "q", "m", "x", "c", "t0_", "n"];

/// Which devices one is drawn of.
#[derive(Clone, Copy)]
enum Wanted {
    Any,
    Switch,
    Foot,
    Keeper,
    Latch,
}

impl Wanted {
    fn takes(self, design: &Design, card: Card) -> bool {
        match self {
            Wanted::Any => true,
            Wanted::Switch => card.kind == Kind::N && !card.ends_at(VSS),
            Wanted::Foot => card.kind == Kind::N && design.ports.is_clock(card.gate),
            Wanted::Keeper => card.kind == Kind::Keep,
            Wanted::Latch => design.ports.is_control(card.gate),
        }
    }
}

/// The place of a drawn device of these, and the device.
fn drawn(draws: &mut Draws, design: &Design, wanted: Wanted) -> Option<(usize, Card)> {
    let takes = |card: &Card| wanted.takes(design, *card);
    let count = design.cards.iter().filter(|card| takes(*card)).count();
    let mut number = draws.below(count);
    for (place, card) in design.cards.iter().enumerate() {
        if wanted.takes(design, *card) {
            if number == 0 {
                return Some((place, *card));
            }
            number = number.saturating_sub(1);
        }
    }
    None
}

/// Puts a device at a place.
fn put(design: &mut Design, place: usize, card: Card) {
    if let Some(old) = design.cards.get_mut(place) {
        *old = card;
    }
}

/// A drawn net.
fn net(draws: &mut Draws, design: &Design) -> usize {
    draws.below(design.names.len())
}

/// A drawn kind.
fn kind(draws: &mut Draws) -> Kind {
    match draws.below(3) {
        0 => Kind::N,
        1 => Kind::P,
        _ => Kind::Keep,
    }
}

/// A new net.
fn new_net(alloc: Global, design: &mut Design) -> Result<usize, AllocError> {
    let number = design.names.len();
    let name = format!(in alloc; "new{number}")?;
    design.names.push(Vec::from_slice(alloc, name.as_bytes())?)?;
    Ok(number)
}

/// Gives the nets behind so many ports new names.
fn rename(
    alloc: Global,
    draws: &mut Draws,
    names: &mut [Vec<u8>],
    ports: usize,
) -> Result<(), AllocError> {
    let shift = draws.below(7);
    for (number, name) in names.iter_mut().enumerate().skip(ports) {
        *name = new_name(alloc, draws, number.saturating_mul(7).saturating_add(shift))?;
    }
    Ok(())
}

/// A name with this number.
fn new_name(alloc: Global, draws: &mut Draws, number: usize) -> Result<Vec<u8>, AllocError> {
    let start = draws.pick(STARTS);
    let text = format!(in alloc; "{start}{number}")?;
    Vec::from_slice(alloc, text.as_bytes())
}

/// A device, or the same one with its ends exchanged.
fn turned(draws: &mut Draws, card: Card) -> Card {
    if draws.below(2) == 0 {
        return card;
    }
    Card {
        kind: card.kind,
        drain: card.source,
        gate: card.gate,
        source: card.drain,
    }
}

/// These devices in a drawn order, some with their ends exchanged.
fn shuffled(
    alloc: Global,
    draws: &mut Draws,
    old: &mut Vec<Card>,
) -> Result<Vec<Card>, AllocError> {
    let mut cards = Vec::new(alloc);
    for _ in 0..old.len() {
        let place = draws.below(old.len());
        if place < old.len() {
            cards.push(turned(draws, old.swap_remove(place)))?;
        }
    }
    Ok(cards)
}

/// Gives the inner nets new names, puts the devices in a drawn order and exchanges the ends of some.
pub fn shuffle(alloc: Global, draws: &mut Draws, design: &mut Design) -> Result<(), AllocError> {
    let ports = design.ports.count();
    rename(alloc, draws, &mut design.names, ports)?;
    design.cards = shuffled(alloc, draws, &mut design.cards)?;
    Ok(())
}

/// One net in place of another.
fn merge(design: &mut Design, old: usize, new: usize) {
    let at = |net: usize| if net == old { new } else { net };
    for card in design.cards.iter_mut() {
        *card = Card {
            kind: card.kind,
            drain: at(card.drain),
            gate: at(card.gate),
            source: at(card.source),
        };
    }
}

/// Another gate, drain or source, another kind, or no device, at a drawn place.
fn change_card(draws: &mut Draws, design: &mut Design, change: usize) {
    let Some((place, mut card)) = drawn(draws, design, Wanted::Any) else {
        return;
    };
    match change {
        0 => {
            if place < design.cards.len() {
                design.cards.remove(place);
            }
            return;
        }
        1 => card.gate = net(draws, design),
        2 => card.drain = net(draws, design),
        3 => card.source = net(draws, design),
        _ => card.kind = kind(draws),
    }
    put(design, place, card);
}

/// Exchanges the gates of two drawn devices of these.
fn exchange_gates(draws: &mut Draws, design: &mut Design, wanted: Wanted) {
    let one = drawn(draws, design, wanted);
    let other = drawn(draws, design, wanted);
    if let (Some((place, mut card)), Some((second, mut next))) = (one, other) {
        let gate = card.gate;
        card.gate = next.gate;
        next.gate = gate;
        put(design, place, card);
        put(design, second, next);
    }
}

/// Adds a device like a drawn one, or one between drawn nets.
fn add_card(draws: &mut Draws, design: &mut Design, is_double: bool) -> Result<(), AllocError> {
    if !is_double {
        let card = Card {
            kind: kind(draws),
            drain: net(draws, design),
            gate: net(draws, design),
            source: net(draws, design),
        };
        design.cards.push(card)?;
    } else if let Some((_, card)) = drawn(draws, design, Wanted::Any) {
        design.cards.push(card)?;
    }
    Ok(())
}

/// Uses an output port, if there is one, as the gate or an end of a drawn device.
fn use_output(draws: &mut Draws, design: &mut Design) {
    let out = draws
        .below(design.ports.outs)
        .saturating_add(design.ports.sources());
    let found = drawn(draws, design, Wanted::Any);
    if let (true, Some((place, mut card))) = (design.ports.is_out(out), found) {
        match draws.below(4) {
            0 => card.drain = out,
            1 => card.source = out,
            _ => card.gate = out,
        }
        put(design, place, card);
    }
}

/// The gate of a drawn device, a pin or a drawn net.
fn inverted_net(draws: &mut Draws, design: &Design) -> usize {
    match draws.below(3) {
        0 => {
            let pin = draws.below(design.ports.pins);
            design.ports.first_pin().saturating_add(pin)
        }
        1 => match drawn(draws, design, Wanted::Any) {
            Some((_, card)) => card.gate,
            None => VDD,
        },
        _ => net(draws, design),
    }
}

/// Adds an inverter to a new net or a drawn one, of the gate of a drawn device, of a pin or of a drawn net.
fn add_inverter(alloc: Global, draws: &mut Draws, design: &mut Design) -> Result<(), AllocError> {
    let gate = inverted_net(draws, design);
    let drain = if draws.below(4) == 0 {
        net(draws, design)
    } else {
        new_net(alloc, design)?
    };
    design.cards.push(Card {
        kind: Kind::P,
        drain,
        gate,
        source: VDD,
    })?;
    design.cards.push(Card {
        kind: Kind::N,
        drain,
        gate,
        source: VSS,
    })?;
    Ok(())
}

/// Gives a drawn device of a latch another control, or a net of another one.
fn change_latch(draws: &mut Draws, design: &mut Design) {
    let one = drawn(draws, design, Wanted::Latch);
    let other = drawn(draws, design, Wanted::Latch);
    if let (Some((place, mut card)), Some((_, next))) = (one, other) {
        match draws.below(4) {
            0 => card.gate = design.ports.first_control().saturating_add(draws.below(6)),
            1 => card.gate = next.gate,
            2 => card.drain = next.drain,
            _ => card.source = next.source,
        }
        put(design, place, card);
    }
}

/// Gates a device of a tree by the output of a drawn cell.
fn read_cell(draws: &mut Draws, design: &mut Design) {
    let switch = drawn(draws, design, Wanted::Switch);
    let keeper = drawn(draws, design, Wanted::Keeper);
    if let (Some((place, mut card)), Some((_, weak))) = (switch, keeper) {
        card.gate = weak.gate;
        put(design, place, card);
    }
}

/// Moves an end of a device of a tree to an end of another one, or makes one net of the ends of two feet.
fn join_trees(draws: &mut Draws, design: &mut Design, wanted: Wanted) {
    let one = drawn(draws, design, wanted);
    let other = drawn(draws, design, wanted);
    if let (Some((place, mut card)), Some((_, next))) = (one, other) {
        match wanted {
            Wanted::Foot => merge(design, card.far(VSS), next.far(VSS)),
            _ => {
                card.drain = next.source;
                put(design, place, card);
            }
        }
    }
}

/// Moves the drain of a drawn device to a new net, which a new device may join to its old place.
fn split_net(alloc: Global, draws: &mut Draws, design: &mut Design) -> Result<(), AllocError> {
    let Some((place, mut card)) = drawn(draws, design, Wanted::Any) else {
        return Ok(());
    };
    let mut more = card;
    let between = new_net(alloc, design)?;
    card.drain = between;
    put(design, place, card);
    if draws.below(2) == 0 {
        more.source = between;
        more.gate = net(draws, design);
        design.cards.push(more)?;
    }
    Ok(())
}

/// Makes a drawn change, and gives its number.
pub fn change(alloc: Global, draws: &mut Draws, design: &mut Design) -> Result<usize, AllocError> {
    let change = draws.below(CHANGES);
    match change {
        0..=4 => change_card(draws, design, change),
        5 | 6 => add_card(draws, design, change == 5)?,
        7 => exchange_gates(draws, design, Wanted::Any),
        8 => {
            let (old, new) = (net(draws, design), net(draws, design));
            merge(design, old, new);
        }
        9 => use_output(draws, design),
        10 => add_inverter(alloc, draws, design)?,
        11 => change_latch(draws, design),
        12 => read_cell(draws, design),
        13 => exchange_gates(draws, design, Wanted::Keeper),
        14 => {
            let wanted = if draws.below(2) == 0 {
                Wanted::Foot
            } else {
                Wanted::Switch
            };
            join_trees(draws, design, wanted);
        }
        _ => split_net(alloc, draws, design)?,
    }
    Ok(change)
}

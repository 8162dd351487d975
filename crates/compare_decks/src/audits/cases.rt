//! Decks, audited twice.
use crate::audits::changes::{change, shuffle};
use crate::audits::design::Design;
use crate::audits::order::is_order;
use crate::audits::owned::own_deck;
use crate::audits::parts::{Parts, PlainAudit, audited};
use crate::audits::tally::Tally;
use audit_deck::{Audit, audit};
use comparison::Trouble;
use deck::{Circuit, roles};
use dom_base::Kind;
use plain_texts::Draws;
use spice_read::read;
use std::alloc::{AllocError, Global};

/// How many changed decks there are of each own one.
const CHANGED: usize = 24;

/// The most devices of an own deck.
const MOST_DEVICES: usize = 64;

/// Whether the nets of a circuit have these names.
fn same_nets(circuit: &Circuit, names: &[Vec<u8>]) -> bool {
    let nets = circuit.nets.as_slice();
    nets.len() == names.len()
        && nets
            .iter()
            .zip(names.iter())
            .all(|(net, name)| net.as_bytes() == name.as_slice())
}

/// The places of an order.
fn places_of(alloc: Global, order: &[u32]) -> Result<Vec<usize>, AllocError> {
    let mut places = Vec::new(alloc);
    for place in order {
        places.push(*place as usize)?;
    }
    Ok(places)
}

/// Whether a Yes with these numbers and this order is what the plain audit found.
fn is_yes(
    alloc: Global,
    design: &Design,
    parts: &Parts,
    order: &[u32],
    (cells, width, height): (u32, u32, u32),
) -> Result<bool, Trouble> {
    let is_same = cells as usize == parts.cells.len()
        && width as usize == parts.width()
        && height as usize == parts.height();
    let places = places_of(alloc, order)?;
    Ok(is_same && is_order(alloc, design, parts, &places)?)
}

/// Whether an audit is what the plain one found.
fn same_audit(
    alloc: Global,
    design: &Design,
    answer: &Audit,
    plain: &PlainAudit,
) -> Result<bool, Trouble> {
    match (answer, plain) {
        (
            Audit::Yes {
                order,
                cells,
                width,
                height,
            },
            PlainAudit::Yes(parts),
        ) => is_yes(
            alloc,
            design,
            parts,
            order.0.as_slice(),
            (*cells, *width, *height),
        ),
        (Audit::No { rule, net }, PlainAudit::No(broken, smallest)) => {
            Ok(*rule as usize == *broken && *net as usize == *smallest)
        }
        _ => Ok(false),
    }
}

/// The circuit of a deck.
fn circuit_of(alloc: Global, design: &Design) -> Result<Circuit, Trouble> {
    let text = design.text(alloc)?;
    Ok(read(alloc, &text)?)
}

/// What the audit of a circuit answers.
fn audit_of(alloc: Global, circuit: &Circuit) -> Result<Audit, Trouble> {
    let found = roles(circuit)?;
    Ok(audit(alloc, circuit, found)?)
}

/// Whether the audit of the deck of a circuit is what the plain one found.
fn is_alike(alloc: Global, design: &Design, plain: &PlainAudit) -> Result<bool, Trouble> {
    let circuit = circuit_of(alloc, design)?;
    if !same_nets(&circuit, &design.names) {
        return Ok(false);
    }
    let answer = audit_of(alloc, &circuit)?;
    same_audit(alloc, design, &answer, plain)
}

/// Audits a deck twice. It answers whether the answers are alike.
fn compare(alloc: Global, tally: &mut Tally, design: &Design) -> Result<bool, Trouble> {
    let design = design.numbered(alloc)?;
    let plain = audited(alloc, &design)?;
    tally.add_answer(&plain);
    is_alike(alloc, &design, &plain)
}

/// The places of so many devices.
fn first_places(alloc: Global, count: usize) -> Result<Vec<usize>, AllocError> {
    let mut places = Vec::new(alloc);
    for place in 0..count {
        places.push(place)?;
    }
    Ok(places)
}

/// Whether the order of the devices of a product's own deck is an order of a Yes.
fn is_in_order(alloc: Global, own: &Design) -> Result<bool, Trouble> {
    let plain = audited(alloc, own)?;
    let PlainAudit::Yes(parts) = &plain else {
        return Ok(false);
    };
    let places = first_places(alloc, own.cards.len())?;
    Ok(is_order(alloc, own, parts, &places)?)
}

/// The numbers of cells, width and height that a product's own deck must have; nothing where it gets a No.
fn own_numbers(alloc: Global, design: &Design) -> Result<Option<(usize, usize, usize)>, Trouble> {
    let design = design.numbered(alloc)?;
    let keepers = design
        .cards
        .iter()
        .filter(|card| card.kind == Kind::Keep)
        .count();
    Ok(match audited(alloc, &design)? {
        PlainAudit::Yes(parts) if parts.cells.len() == keepers => {
            Some((keepers, parts.width(), parts.height()))
        }
        _ => None,
    })
}

/// Whether a product's own deck and the same one in another order are as they must be.
fn compare_orders(
    alloc: Global,
    tally: &mut Tally,
    own: &Design,
    other: &Design,
) -> Result<bool, Trouble> {
    let numbers = own_numbers(alloc, own)?;
    Ok(
        is_in_order(alloc, own)?
            && numbers.is_some()
            && own_numbers(alloc, other)? == numbers
            && compare(alloc, tally, own)?
            && compare(alloc, tally, other)?,
    )
}

/// Changes a deck once or twice.
fn make_changes(
    alloc: Global,
    tally: &mut Tally,
    draws: &mut Draws,
    design: &mut Design,
) -> Result<(), Trouble> {
    let count = if draws.below(3) == 0 { 2 } else { 1 };
    for _ in 0..count {
        let number = change(alloc, draws, design)?;
        tally.add_change(number);
    }
    Ok(())
}

/// Compares a changed deck. It answers whether the answers are alike.
fn compare_changed(
    alloc: Global,
    tally: &mut Tally,
    draws: &mut Draws,
    own: &Design,
) -> Result<bool, Trouble> {
    let mut changed = own.copied(alloc)?;
    make_changes(alloc, tally, draws, &mut changed)?;
    compare(alloc, tally, &changed)
}

/// Compares a product's own deck as it is, in another order, and changed. It answers whether all are alike.
fn compare_own(
    alloc: Global,
    tally: &mut Tally,
    draws: &mut Draws,
    own: &Design,
) -> Result<bool, Trouble> {
    let mut other = own.copied(alloc)?;
    shuffle(alloc, draws, &mut other)?;
    let mut alike = compare_orders(alloc, tally, own, &other)?;
    for _ in 0..CHANGED {
        alike = compare_changed(alloc, tally, draws, &other)? && alike;
    }
    Ok(alike)
}

/// Compares the deck of a generated network, where it isn't too large. It answers whether all are alike.
fn compare_case(alloc: Global, tally: &mut Tally, case: u64) -> Result<bool, Trouble> {
    let mut draws = Draws::of_case(case.saturating_add(2_000_000));
    let own = own_deck(alloc, &mut draws)?;
    if own.cards.len() > MOST_DEVICES {
        return Ok(true);
    }
    let alike = compare_own(alloc, tally, &mut draws, &own)?;
    if alike {
        tally.own = tally.own.saturating_add(1);
    }
    Ok(alike)
}

/// Compares the decks of so many generated networks.
pub fn compare_audits(alloc: Global, networks: u64) -> Result<Tally, Trouble> {
    let mut tally = Tally::new();
    for case in 0..networks {
        if !compare_case(alloc, &mut tally, case)? {
            tally.differs = Some(case);
            break;
        }
    }
    Ok(tally)
}

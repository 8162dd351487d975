//! The comparison of targets.
ghost use Rattle.deck.specs.Roles.{AreRoles, ports_of};

use comparison::Trouble;
use deck::{Circuit, Roles, roles};
use dom_base::Tri;
use plain_circuits::{Sample, Start, deck_text, drawn_values, sampled, target, value_of};
use plain_texts::Draws;
use spice_read::read;
use std::alloc::{AllocError, Global};
use switch_model::Links;

/// How often each circuit goes on from its generated values, all nets taking their targets at once.
const ROUNDS: u64 = 4;

/// What came of a comparison of targets: their number where all are alike, else the first circuit with
/// one that differs.
#[derive(Clone, Copy)]
pub enum Outcome {
    Alike(u64),
    Differ(u64),
}

/// The targets of all nets that are no sources, and whether the circuit is at rest.
#[derive(Drop, PartialEq)]
struct Next {
    targets: Vec<Tri>,
    at_rest: bool,
}

/// Compares the targets of so many generated circuits.
pub fn targets(alloc: Global, circuits: u64) -> Result<Outcome, Trouble> {
    let mut count = 0u64;
    for case in 0..circuits {
        let mut draws = Draws::of_case(case);
        let sample = sampled(alloc, &mut draws, Start::Nothing)?;
        match compared(alloc, &sample, &mut draws)? {
            Some(more) => count = count.saturating_add(more),
            None => return Ok(Outcome::Differ(case)),
        }
    }
    Ok(Outcome::Alike(count))
}

/// How many targets of a circuit were compared, where all are alike.
fn compared(alloc: Global, sample: &Sample, draws: &mut Draws) -> Result<Option<u64>, Trouble> {
    let text = deck_text(alloc, sample)?;
    let circuit = read(alloc, text.as_bytes())?;
    let roles = roles(&circuit)?;
    let mut values = drawn_values(alloc, sample, draws)?;
    let mut count = 0u64;
    for _ in 0..ROUNDS {
        let wanted = by_paths(alloc, sample, &values)?;
        let found = by_links(alloc, &circuit, roles, &values)?;
        if wanted != found {
            return Ok(None);
        }
        count = count.saturating_add(wanted.targets.len() as u64);
        values.truncate(sample.sources());
        values.extend_from_slice(&wanted.targets)?;
    }
    Ok(Some(count))
}

/// The targets by the reference.
fn by_paths(alloc: Global, sample: &Sample, values: &[Tri]) -> Result<Next, AllocError> {
    let mut targets = Vec::new(alloc);
    let mut at_rest = true;
    for net in sample.sources()..values.len() {
        let next = target(alloc, sample, values, net)?;
        if next != value_of(values, net) {
            at_rest = false;
        }
        targets.push(next)?;
    }
    Ok(Next { targets, at_rest })
}

/// The targets by the links of the circuit.
fn by_links(alloc: Global, circuit: &Circuit, roles: Roles, values: &[Tri]) -> Result<Next, Trouble>
    requires { AreRoles (ports_of circuit.now) roles }
{
    if values.len() != circuit.nets.as_slice().len() || values.len() > 1_000_000 {
        return Err(Trouble::Refused);
    }
    let mut links = Links::new(alloc, circuit, roles)?;
    let mut targets = Vec::new(alloc);
    for net in links.sources()..values.len() as u32 {
        targets.push(links.target(values, net))?;
    }
    let at_rest = links.at_rest(values);
    Ok(Next { targets, at_rest })
}

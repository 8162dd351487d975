//! Tests of the gates of networks, of their needed pairs, signs, covers, clocks and chains of buffers, on networks that were worked by
//! hand; and the forests of gates.
mod buffers;
mod chains;
mod clocks;
mod cover_words;
mod covers;
mod forests;
mod gates;
mod signs;
mod words;

use comparison::gates_of;
use dual_rail::{Forest, rails, size};
use gate_decompose::Gates;
use phase_assign::assign;
use std::alloc::Global;
use std::process::Abort;
use std::test::Fail;
use words::forest_words;

/// The forest of gates under signs, one `+` or `-` for each sink.
pub fn forest_of(
    rt: &impl Abort,
    alloc: Global,
    gates: &Gates,
    signs: &str,
) -> Result<Forest, Fail> {
    let mut plus = Vec::new(alloc);
    for sign in signs.as_bytes() {
        plus.push(*sign == b'+')?;
    }
    assert!(rt; plus.len() == gates.sinks.len());
    Ok(rails(alloc, gates, &plus)?)
}

/// The forest of gates under signs in words, which has so many pairs.
pub fn told_forest(
    rt: &impl Abort,
    alloc: Global,
    gates: &Gates,
    signs: &str,
    pairs: u64,
) -> Result<String, Fail> {
    let forest = forest_of(rt, alloc, gates, signs)?;
    assert_eq!(rt; size(&forest), pairs);
    Ok(forest_words(alloc, &forest)?)
}

/// The forest of a text under the chosen signs.
pub fn chosen_forest(rt: &impl Abort, alloc: Global, text: &str) -> Result<Forest, Fail> {
    let gates = gates_of(alloc, text)?;
    let signs = assign(alloc, &gates)?;
    assert!(rt; signs.len() == gates.sinks.len());
    Ok(rails(alloc, &gates, &signs)?)
}

//! Signs of sinks.
use crate::gates::PlainGates;
use crate::pairs::needed;
use std::alloc::{AllocError, Global};

/// The most passes over the sinks.
const MOST_PASSES: usize = 1_000;

/// The most sinks of which all signs are tried.
const MOST_SINKS: usize = 8;

/// How many pairs are needed.
pub fn size(alloc: Global, gates: &PlainGates, signs: &[bool]) -> Result<usize, AllocError> {
    Ok(needed(alloc, gates, signs)?.len())
}

/// These signs with one of them changed.
fn changed(alloc: Global, signs: &[bool], sink: usize) -> Result<Vec<bool>, AllocError> {
    let mut other = Vec::new(alloc);
    for (index, sign) in signs.iter().enumerate() {
        other.push(*sign != (index == sink))?;
    }
    Ok(other)
}

/// Whether changing no one sink lowers the number of needed pairs.
pub fn are_settled(alloc: Global, gates: &PlainGates, signs: &[bool]) -> Result<bool, AllocError> {
    let own = size(alloc, gates, signs)?;
    for sink in 0..signs.len() {
        if size(alloc, gates, &changed(alloc, signs, sink)?)? < own {
            return Ok(false);
        }
    }
    Ok(true)
}

/// Whether signs need fewer pairs than others.
fn is_better(
    alloc: Global,
    gates: &PlainGates,
    signs: &[bool],
    others: &[bool],
) -> Result<bool, AllocError> {
    Ok(size(alloc, gates, signs)? < size(alloc, gates, others)?)
}

/// Changes each sink in order where that lowers the number of needed pairs.
fn pass(alloc: Global, gates: &PlainGates, before: &[bool]) -> Result<Vec<bool>, AllocError> {
    let mut signs = Vec::from_slice(alloc, before)?;
    for sink in 0..before.len() {
        let other = changed(alloc, &signs, sink)?;
        if is_better(alloc, gates, &other, &signs)? {
            signs = other;
        }
    }
    Ok(signs)
}

/// All sinks with the sign plus.
pub fn all_plus(alloc: Global, gates: &PlainGates) -> Result<Vec<bool>, AllocError> {
    vec![in alloc; true; gates.sinks.len()]
}

/// From all plus, pass after pass up to one that changes nothing.
pub fn chosen_signs(alloc: Global, gates: &PlainGates) -> Result<Vec<bool>, AllocError> {
    let mut signs = all_plus(alloc, gates)?;
    for _ in 0..MOST_PASSES {
        let after = pass(alloc, gates, &signs)?;
        if after.as_slice() == signs.as_slice() {
            return Ok(signs);
        }
        signs = after;
    }
    Ok(signs)
}

/// A list with one more sign.
fn with_sign(alloc: Global, list: &[bool], sign: bool) -> Result<Vec<bool>, AllocError> {
    let mut signs = Vec::from_slice(alloc, list)?;
    signs.push(sign)?;
    Ok(signs)
}

/// These lists, each with one more sign: plus before minus.
fn longer(alloc: Global, lists: &[Vec<bool>]) -> Result<Vec<Vec<bool>>, AllocError> {
    let mut all = Vec::new(alloc);
    for list in lists {
        all.push(with_sign(alloc, list, true)?)?;
        all.push(with_sign(alloc, list, false)?)?;
    }
    Ok(all)
}

/// All lists of so many signs: plus before minus, and the first sign counts first.
fn all_signs(alloc: Global, sinks: usize) -> Result<Vec<Vec<bool>>, AllocError> {
    let mut lists = Vec::new(alloc);
    lists.push(Vec::new(alloc))?;
    for _ in 0..sinks {
        lists = longer(alloc, &lists)?;
    }
    Ok(lists)
}

/// Of all signs of few sinks the first that need the fewest pairs, and how many.
pub fn exact_signs(
    alloc: Global,
    gates: &PlainGates,
) -> Result<Option<(Vec<bool>, usize)>, AllocError> {
    if gates.sinks.len() > MOST_SINKS {
        return Ok(None);
    }
    let mut least: Option<(Vec<bool>, usize)> = None;
    for signs in all_signs(alloc, gates.sinks.len())? {
        let pairs = size(alloc, gates, &signs)?;
        let fewer = match &least {
            Some((_, fewest)) => pairs < *fewest,
            None => true,
        };
        if fewer {
            least = Some((signs, pairs));
        }
    }
    Ok(least)
}

/// The least number of needed pairs over all signs of few sinks.
pub fn least_size(alloc: Global, gates: &PlainGates) -> Result<Option<usize>, AllocError> {
    Ok(exact_signs(alloc, gates)?.map(|(_, pairs)| pairs))
}

//! Targets, from all paths.
use crate::sample::{Sample, Transistor};
use dom_base::{Kind, Tri};
use std::alloc::{AllocError, Global};

/// A path from a net that visits no net twice and has no source inside: the net at its end, whether
/// all of its transistors are on, and whether one of them is a keeper. None of them is off.
#[derive(Clone, Copy)]
struct Path {
    end: usize,
    definite: bool,
    weak: bool,
}

/// The value of a net.
pub fn value_of(values: &[Tri], net: usize) -> Tri {
    match values.get(net) {
        Some(value) => *value,
        None => Tri::Unknown,
    }
}

/// The value that a net, which is no source, takes next.
pub fn target(
    alloc: Global,
    sample: &Sample,
    values: &[Tri],
    net: usize,
) -> Result<Tri, AllocError> {
    let paths = paths_from(alloc, sample, values, net)?;
    for weak in [false, true] {
        if let Some(value) = from_sources(sample, values, &paths, weak) {
            return Ok(value);
        }
    }
    let own = value_of(values, net);
    for path in &paths {
        if value_of(values, path.end) != own {
            return Ok(Tri::Unknown);
        }
    }
    Ok(own)
}

/// What the strong or the weak paths to sources give: nothing where there is none, the value of the
/// source at the end of a definite one where all sources that are reached have it, else `Unknown`.
fn from_sources(sample: &Sample, values: &[Tri], paths: &[Path], weak: bool) -> Option<Tri> {
    let mut reached = None;
    for path in paths {
        if path.weak == weak && sample.is_source(path.end) {
            let value = value_of(values, path.end);
            if path.definite && all_have(sample, values, paths, weak, value) {
                return Some(value);
            }
            reached = Some(Tri::Unknown);
        }
    }
    reached
}

/// Whether all strong, or all weak, paths to sources lead to sources of this value.
fn all_have(sample: &Sample, values: &[Tri], paths: &[Path], weak: bool, value: Tri) -> bool {
    for path in paths {
        if path.weak == weak && sample.is_source(path.end) && value_of(values, path.end) != value {
            return false;
        }
    }
    true
}

/// All paths from a net.
fn paths_from(
    alloc: Global,
    sample: &Sample,
    values: &[Tri],
    net: usize,
) -> Result<Vec<Path>, AllocError> {
    let start = Path {
        end: net,
        definite: true,
        weak: false,
    };
    let mut visited = Vec::new(alloc);
    visited.push(net)?;
    let mut found = Vec::new(alloc);
    walk(
        sample,
        values,
        start,
        &mut visited,
        sample.names.len(),
        &mut found,
    )?;
    Ok(found)
}

/// Adds all paths that lengthen a path by at most so many transistors.
fn walk(
    sample: &Sample,
    values: &[Tri],
    path: Path,
    visited: &mut Vec<usize>,
    most: usize,
    found: &mut Vec<Path>,
) -> Result<(), AllocError> {
    if most == 0 {
        return Ok(());
    }
    for transistor in &sample.transistors {
        let Some(longer) = lengthened(path, transistor, values) else {
            continue;
        };
        if visited.contains(&longer.end) {
            continue;
        }
        found.push(longer)?;
        if !sample.is_source(longer.end) {
            visited.push(longer.end)?;
            walk(sample, values, longer, visited, most - 1, found)?;
            visited.pop();
        }
    }
    Ok(())
}

/// A path with one more transistor, which ends where the path does and isn't off.
fn lengthened(path: Path, transistor: &Transistor, values: &[Tri]) -> Option<Path> {
    let end = transistor.across(path.end)?;
    let gate = value_of(values, transistor.gate);
    let on = match transistor.kind {
        Kind::N => Tri::One,
        Kind::P | Kind::Keep => Tri::Zero,
    };
    if gate != on && gate != Tri::Unknown {
        return None;
    }
    Some(Path {
        end,
        definite: path.definite && gate == on,
        weak: path.weak || transistor.kind == Kind::Keep,
    })
}

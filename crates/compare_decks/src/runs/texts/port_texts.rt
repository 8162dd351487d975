//! Lists of ports.
use dom_base::OutOfMemory;
use plain_texts::{CLOCKS, Draws, LATCHES, RAILS};
use std::alloc::Global;

pub const WORKED: &[&[&str]] = &[
    &["vss", "vdd", "ck1", "lm", "lmb", "ls", "lsb", "rs", "rsb"],
    &["vdd", "vss", "lm", "lmb", "ls", "lsb", "rs", "rsb"],
    &[
        "vdd", "vss", "ck1", "ck2", "ck3", "ck4", "ck5", "lm", "lmb", "ls", "lsb", "rs", "rsb",
    ],
    &[
        "vdd", "vss", "ck1", "ck3", "lm", "lmb", "ls", "lsb", "rs", "rsb",
    ],
    &["vdd", "vss", "ck1", "ck2", "lm", "lmb"],
    &["vdd", "vss", "ck1"],
    &[
        "vdd", "vss", "ck1", "lm", "lmb", "ls", "lsb", "rs", "rsb", "o_a", "i_a",
    ],
    &[
        "vdd", "vss", "ck1", "lm", "lmb", "ls", "lsb", "rs", "rsb", "i_a", "a", "o_a",
    ],
    &[],
];

const OTHERS: &[&str] = &[
    "ck5", "x", "i_x", "o_x", "ck", "lmbx", "vddx", "i", "o", "_", "i-", "oi_",
];

const PINS: &[&str] = &["i_a", "i_b", "i_", "i_o_"];

const OUTS: &[&str] = &["o_a", "o_b", "o_", "o_i_"];

/// Ports in an order of roles, with no clock up to four.
fn in_order(alloc: Global, draws: &mut Draws) -> Result<Vec<&'static str>, OutOfMemory> {
    let mut names = Vec::new(alloc);
    for (part, count) in [
        (RAILS, 2),
        (CLOCKS, draws.below(5)),
        (LATCHES, 6),
        (PINS, draws.below(4)),
        (OUTS, draws.below(4)),
    ] {
        for name in part.iter().take(count) {
            names.push(*name)?;
        }
    }
    Ok(names)
}

/// These ports with a change at one place, or none: cut short, one left out, another one in its
/// place or in front of it.
fn changed(
    alloc: Global,
    draws: &mut Draws,
    names: &[&'static str],
) -> Result<Vec<&'static str>, OutOfMemory> {
    let mut all = Vec::new(alloc);
    let index = draws.below(names.len());
    let change = draws.below(7);
    let other = draws.pick(OTHERS);
    for (at, name) in names.iter().enumerate() {
        match (at == index, change) {
            (true, 0) => return Ok(all),
            (true, 1) => (),
            (true, 2) => all.push(other)?,
            (true, 3) => {
                all.push(other)?;
                all.push(*name)?;
            }
            _ => all.push(*name)?,
        }
    }
    Ok(all)
}

/// Ports with at most two changes.
pub fn drawn(alloc: Global, draws: &mut Draws) -> Result<Vec<&'static str>, OutOfMemory> {
    let names = in_order(alloc, draws)?;
    let once = changed(alloc, draws, &names)?;
    changed(alloc, draws, &once)
}

/// A deck with these ports.
pub fn deck_with(alloc: Global, names: &[&str]) -> Result<Vec<u8>, OutOfMemory> {
    let mut text = Vec::from_slice(alloc, b".subckt e")?;
    for name in names {
        text.push(b' ')?;
        text.extend_from_slice(name.as_bytes())?;
    }
    text.extend_from_slice(b"\n.ends\n")?;
    Ok(text)
}

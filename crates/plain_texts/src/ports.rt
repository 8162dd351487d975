//! The roles of ports, found by trying every number of clocks and every number of pins.
use dom_base::OutOfMemory;
use std::alloc::Global;

/// The supplies.
pub const RAILS: &[&str] = &["vdd", "vss"];

/// The clocks.
pub const CLOCKS: &[&str] = &["ck1", "ck2", "ck3", "ck4"];

/// The clocks and resets of latches.
pub const LATCHES: &[&str] = &["lm", "lmb", "ls", "lsb", "rs", "rsb"];

/// The numbers of clocks, pins and outputs, or the port at which they leave every order.
#[derive(Clone, Copy, Debug, PartialEq, Eq)]
pub enum PlainRoles {
    Roles(usize, usize, usize),
    Fault(usize),
}

/// The ports before the first pin.
fn leading_names(alloc: Global, clocks: usize) -> Result<Vec<&'static str>, OutOfMemory> {
    let mut names = Vec::new(alloc);
    for name in RAILS {
        names.push(*name)?;
    }
    for name in CLOCKS.iter().take(clocks) {
        names.push(*name)?;
    }
    for name in LATCHES {
        names.push(*name)?;
    }
    Ok(names)
}

/// Whether this name can stand at a port, behind these leading ports and with so many pins.
fn fits(leading: &[&str], pins: usize, port: usize, name: &[u8]) -> bool {
    match leading.get(port) {
        Some(wanted) => wanted.as_bytes() == name,
        None => {
            if port < leading.len().saturating_add(pins) {
                name.starts_with(b"i_")
            } else {
                name.starts_with(b"o_")
            }
        }
    }
}

/// How many ports can stand where they do, before the first that can't.
fn count_fitting(leading: &[&str], pins: usize, names: &[Vec<u8>]) -> usize {
    names
        .iter()
        .enumerate()
        .take_while(|(port, name)| fits(leading, pins, *port, name))
        .count()
}

/// Finds the roles of these ports.
pub fn find_roles(alloc: Global, names: &[Vec<u8>]) -> Result<PlainRoles, OutOfMemory> {
    let total = names.len();
    let mut longest = 0;
    for clocks in 1..5usize {
        let leading = leading_names(alloc, clocks)?;
        for pins in 0..total.saturating_add(1) {
            let count = count_fitting(&leading, pins, names);
            let front = leading.len().saturating_add(pins);
            if count == total && front <= total {
                let outs = total.saturating_sub(front);
                return Ok(PlainRoles::Roles(clocks, pins, outs));
            }
            longest = count.max(longest);
        }
    }
    Ok(PlainRoles::Fault(longest))
}

//! Roles of ports, found twice.
use crate::runs::texts::port_texts::{WORKED, deck_with, drawn};
use deck::roles;
use dom_base::OutOfMemory;
use plain_texts::{Draws, PlainRoles, Tally, find_roles};
use spice_read::{DeckFault, read};
use std::alloc::Global;

/// Finds the roles of these ports twice. Where one of them stands twice there is no circuit, and
/// nothing is counted.
fn compare(alloc: Global, tally: &mut Tally, names: &[&str]) -> Result<(), OutOfMemory> {
    let mut ports = Vec::new(alloc);
    for name in names {
        ports.push(Vec::from_slice(alloc, name.as_bytes())?)?;
    }
    let plain = find_roles(alloc, &ports)?;
    match read(alloc, &deck_with(alloc, names)?) {
        Ok(circuit) => {
            let found = match roles(&circuit) {
                Ok(found) => PlainRoles::Roles(
                    found.clocks as usize,
                    found.pins as usize,
                    found.outs as usize,
                ),
                Err(fault) => PlainRoles::Fault(fault.place as usize),
            };
            let refused = matches!(found, PlainRoles::Fault(_));
            tally.count(refused, found == plain);
            Ok(())
        }
        Err(DeckFault::At { line: _, kind: _ }) => Ok(()),
        Err(DeckFault::Memory) => Err(OutOfMemory),
    }
}

/// Finds the roles of the worked lists and of drawn ones.
pub fn compare_ports(alloc: Global) -> Result<Tally, OutOfMemory> {
    let mut tally = Tally::new();
    for names in WORKED {
        compare(alloc, &mut tally, names)?;
    }
    let mut draws = Draws::new(3);
    for _ in 0..500u32 {
        compare(alloc, &mut tally, &drawn(alloc, &mut draws)?)?;
    }
    Ok(tally)
}

//! The text of a circuit by its cells.
ghost use Rattle.std.specs.Prelude.{IfOk};
ghost use Rattle.spice_text.specs.Cells.{HasCells, IsWrittenByCells};

use crate::cards::put_phases;
use crate::cells::{PlacedGroups, place_groups, put_shapes};
use crate::group::GroupNets;
use crate::ports::put_subckt;
use deck::{Circuit, roles};
use dom_base::{OutOfMemory, append, append_word};
use std::alloc::Global;

/// The text of a circuit by its cells, in bytes. The devices of a cell are those between two of these
/// places; the last place is the number of devices. Each line ends with LF and its words are separated
/// by one blank. The lines are `* domsyn deck 2`, a line `* phase NET SIGN` for each phase, a subcircuit
/// `cell-NUMBER` for each shape of a cell, and the subcircuit of the circuit: `.subckt NAME` with its
/// ports, as in the text without cells, a call `xNUMBER vdd vss NETS cell-NUMBER` for each cell, and
/// `.ends NAME`.
///
/// The ports of a cell's subcircuit are `vdd`, `vss` and its other nets, which are called `p0`, `p1` and so
/// on in order of first appearance; cells whose devices are the same by these names have one shape. It
/// fails only where it is out of memory.
pub fn write_cells(alloc: Global, circuit: &Circuit, ends: &[u32]) -> Result<Vec<u8>, OutOfMemory>
    requires { HasCells circuit.now ends.now }
    ensures { IfOk result (λ v. IsWrittenByCells circuit.now ends.now v.items) }
{
    circuit.whole();
    let nets = circuit.nets.as_slice();
    let devices = circuit.devices.as_slice();
    let hasher = *circuit.nets.hasher();
    let mut group_nets = GroupNets::new(alloc, nets.len())?;
    let PlacedGroups { shapes, calls } = place_groups(
        alloc,
        hasher,
        nets,
        &mut group_nets,
        devices,
        ends,
    )?;
    let mut text = Vec::new(alloc);
    append(&mut text, b"* domsyn deck 2\n")?;
    put_phases(&mut text, circuit.phases.as_slice())?;
    put_shapes(alloc, &mut text, &shapes)?;
    put_subckt(
        &mut text,
        circuit.name.as_bytes(),
        &nets[..circuit.ports as usize],
        roles(circuit),
    )?;
    append(&mut text, calls.as_slice())?;
    append(&mut text, b".ends")?;
    append_word(&mut text, circuit.name.as_bytes())?;
    append(&mut text, b"\n")?;
    Ok(text)
}

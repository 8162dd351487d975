//! Circuits as SPICE subcircuit text.
#![tactic(auto)]

ghost use Rattle.std.specs.Prelude.{IfOk};
ghost use Rattle.deck.specs.DeckText.{IsDeckOf, IsGoodCircuit};
ghost use Rattle.spice_text.specs.Text.{IsWritten};

mod by_cells;
mod cards;
mod cells;
mod group;
mod laws;
mod line;
mod ports;
mod shape;

pub use by_cells::write_cells;
pub use cards::card_end;
use cards::{put_cards, put_phases};
pub use cells::{ShapeSet, number_shape, put_shapes};
use deck::{Circuit, roles};
use dom_base::{OutOfMemory, append, append_word};
pub use laws::written_reads_back;
use ports::put_subckt;
pub use shape::Shape;
use std::alloc::Global;

/// The text of a circuit, in bytes. Each line ends with LF and its words are separated by one
/// blank. The lines are `* domsyn deck 1`, a line `* phase NET SIGN` for each phase, `.subckt NAME`
/// with its ports, a card `mNUMBER DRAIN GATE SOURCE BULK MODEL` for each device, and `.ends NAME`.
///
/// Where the ports stand in the order of roles, those before the first pin stand on the line of
/// `.subckt`, and pins and outputs each on lines of their own that begin with `+`; else all ports
/// stand on lines that begin with `+`. Such a line has at most eight names. It fails only where it is
/// out of memory.
///
/// Where the name of the circuit and its ports have no byte `=`, the text is a deck, and its circuit
/// is this one.
pub fn write(alloc: Global, circuit: &Circuit) -> Result<Vec<u8>, OutOfMemory>
    ensures written { IfOk result (λ v. IsWritten circuit.now v.items) }
    ensures reads_back { IfOk result (λ v. IsGoodCircuit circuit.now → IsDeckOf v.items circuit.now) }
{
    circuit.whole();
    let mut text = Vec::new(alloc);
    append(&mut text, b"* domsyn deck 1\n")?;
    put_phases(&mut text, circuit.phases.as_slice())?;
    let nets = circuit.nets.as_slice();
    put_subckt(
        &mut text,
        circuit.name.as_bytes(),
        &nets[..circuit.ports as usize],
        roles(circuit),
    )?;
    put_cards(&mut text, nets, circuit.devices.as_slice())?;
    append(&mut text, b".ends")?;
    append_word(&mut text, circuit.name.as_bytes())?;
    append(&mut text, b"\n")?;
    Ok(text)
}

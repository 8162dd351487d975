//! The verdict of a circuit beside a network.
ghost use Rattle.std.specs.Prelude.{IfOk, IsErrOf};
ghost use Rattle.trace_tool.specs.CircuitVerdicts.{HasNoCircuitVerdict, IsCircuitVerdict};
ghost use Rattle.trace_tool.specs.declared.fault.TraceFault.{TraceFault as Fault};

use crate::ordered::compared_by;
use crate::port_names::different_port;
use crate::setup::Setup;
use crate::{Clocking, Order, TraceFault, Verdict};
use deck::{Circuit, roles};
use net_flatten::Network;
use std::alloc::Global;
use stim_text::read_stim;

/// The verdict of a circuit beside a network over a stimulus for the network's inputs, in an order of events with a
/// seed: whether the ports from the first pin on are the network's inputs and then outputs, whether each settling ends
/// at rest, and whether the outputs of each cycle are the network's; the first of these that isn't so is told. The
/// circuit's ports are looked at first, then the stimulus is read; the first fault in this order is reported.
pub fn verdict_of_circuit(
    alloc: Global,
    network: &Network,
    circuit: Circuit,
    stim: &[u8],
    order: Order,
    seed: u64,
) -> Result<Verdict, TraceFault>
    ensures verdict { IfOk result (λ verdict. IsCircuitVerdict network.now circuit stim.now order seed verdict) }
    ensures refused { (why : Fault) → IsErrOf result why → HasNoCircuitVerdict network.now circuit stim.now why }
{
    let roles = roles(&circuit)?;
    let cycles = read_stim(alloc, stim, network.inputs)?;
    if let Some(place) = different_port(alloc, network, &circuit, roles)? {
        return Ok(Verdict::PortsDiffer { place });
    }
    let setup = Setup {
        circuit,
        roles,
        clocking: Clocking::Together,
        events: false,
        probes: &[],
        asked: Vec::new(alloc),
    };
    let verdict = compared_by(alloc, setup, network, &cycles, order, seed)?;
    Ok(verdict)
}

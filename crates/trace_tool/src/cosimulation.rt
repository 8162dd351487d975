//! From a file of BLIF, a deck and a stimulus to a verdict.
ghost use Rattle.std.specs.Prelude.{IfOk, IsErrOf};
ghost use Rattle.trace_tool.specs.CosimRefusals.{HasNetworkOf, IsCosimRefused, IsUnflattened};
ghost use Rattle.trace_tool.specs.Verdicts.{IsVerdictOf};
ghost use Rattle.trace_tool.specs.declared.fault.TraceFault.{TraceFault as Fault};

use crate::circuit_verdict::verdict_of_circuit;
use crate::{Order, TraceFault, Verdict};
use blif_numbers::read_numbers;
use net_flatten::{Network, flatten_numbers};
use std::alloc::Global;

/// The verdict of a deck beside the network of a text of BLIF over a stimulus for the network's inputs,
/// in an order of events with a seed: whether the ports from the first pin on are the network's inputs
/// and then outputs, whether each settling ends at rest, and whether the outputs of each cycle are the
/// network's; the first of these that isn't so is told. The text is read first and flattened, then the
/// deck is read, then its ports are looked at, then the stimulus is read; the first fault in this order
/// is reported.
pub fn cosim(
    alloc: Global,
    blif: &[u8],
    deck: &[u8],
    stim: &[u8],
    order: Order,
    seed: u64,
) -> Result<Verdict, TraceFault>
    ensures verdict { IfOk result (λ verdict. IsVerdictOf blif.now deck.now stim.now order seed verdict) }
    ensures refused { (why : Fault) → IsErrOf result why → IsCosimRefused blif.now deck.now stim.now why }
{
    let network = network_of_text(alloc, blif)?;
    let circuit = spice_read::read(alloc, deck)?;
    verdict_of_circuit(alloc, &network, circuit, stim, order, seed)
}

/// The network of a text of BLIF, which is read and flattened; or the first fault of it.
pub fn network_of_text(alloc: Global, blif: &[u8]) -> Result<Network, TraceFault>
    ensures network { IfOk result (HasNetworkOf blif.now) }
    ensures refused { (why : Fault) → IsErrOf result why → IsUnflattened blif.now why }
{
    let file = read_numbers(alloc, blif)?;
    let network = flatten_numbers(alloc, &file)?;
    Ok(network)
}

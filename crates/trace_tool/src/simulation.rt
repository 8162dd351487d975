//! From a deck and a stimulus to a trace.
ghost use Rattle.std.specs.Prelude.{IfOk, IsErrOf};
ghost use Rattle.trace_tool.specs.declared.fault.TraceFault.{TraceFault as Fault};
ghost use Rattle.trace_tool.specs.Refusals.{IsRefused};
ghost use Rattle.trace_tool.specs.Traces.{IsOverlappingTraceOf, IsTraceBy, IsTraceOf};

use crate::asked::asked_edges;
use crate::ordered::traced_by;
use crate::setup::Setup;
use crate::{Clocking, Trace, TraceFault, TraceOptions};
use deck::roles;
use spice_read::read;
use std::alloc::Global;
use stim_text::read_stim;

/// The trace of a deck over a stimulus, where its clocks fall so. The deck is read first, then its ports are
/// looked at, then the names of the probe words are looked for among its nets, then the stimulus is read;
/// the first fault in this order is reported.
fn trace_of(
    alloc: Global,
    deck: &[u8],
    stim: &[u8],
    options: &TraceOptions,
    clocking: Clocking,
) -> Result<Trace, TraceFault>
    ensures trace { IfOk result (λ trace. IsTraceBy clocking deck.now stim.now options.now trace) }
    ensures refused { (why : Fault) → IsErrOf result why → IsRefused deck.now stim.now options.now.probes why }
{
    let circuit = read(alloc, deck)?;
    let roles = roles(&circuit)?;
    let asked = asked_edges(alloc, &circuit, &options.probes)?;
    let cycles = read_stim(alloc, stim, roles.pins)?;
    let setup = Setup {
        circuit,
        roles,
        clocking,
        events: options.events,
        probes: options.probes.as_slice(),
        asked,
    };
    let trace = traced_by(alloc, setup, &cycles, options.order, options.seed)?;
    Ok(trace)
}

/// The trace of a deck over a stimulus: the line `power events E`, then a line for each cycle, each
/// after the lines `event STEP NET OLD NEW` of those of its events that are told: all, or those that a
/// probe word tells. Where a settling ends without rest, the last line is `unsettled cycle C events K`.
/// The deck is read first, then its ports are looked at, then the names of the probe words are looked
/// for among its nets, then the stimulus is read; the first fault in this order is reported.
pub fn sim(
    alloc: Global,
    deck: &[u8],
    stim: &[u8],
    options: &TraceOptions,
) -> Result<Trace, TraceFault>
    ensures trace { IfOk result (λ trace. IsTraceOf deck.now stim.now options.now trace) }
    ensures refused { (why : Fault) → IsErrOf result why → IsRefused deck.now stim.now options.now.probes why }
{
    trace_of(alloc, deck, stim, options, Clocking::Together)
}

/// The trace of a deck over a stimulus where its clocks overlap: in each cycle each clock but the last falls
/// once the rise of the next one has settled. Its lines and its refusals are those of `sim`.
pub fn sim_skew(
    alloc: Global,
    deck: &[u8],
    stim: &[u8],
    options: &TraceOptions,
) -> Result<Trace, TraceFault>
    ensures trace { IfOk result (λ trace. IsOverlappingTraceOf deck.now stim.now options.now trace) }
    ensures refused { (why : Fault) → IsErrOf result why → IsRefused deck.now stim.now options.now.probes why }
{
    trace_of(alloc, deck, stim, options, Clocking::Overlapping)
}

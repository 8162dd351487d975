//! The command `sim DECK STIM` with its options: the trace of a deck over a stimulus.
ghost use Rattle.std.specs.Prelude.{◌≡◌, Bool, IfOk, IsErrOf};
ghost use Rattle.command_answers.specs.Endings.{ending_of};
ghost use Rattle.trace_tool.specs.Refusals.{IsRefused};
ghost use Rattle.trace_tool.specs.Traces.{IsTraceBy};
ghost use Rattle.trace_tool.specs.declared.fault.TraceFault.{TraceFault as Fault};

use crate::answer::{Answer, Ending};
use std::alloc::Global;
use trace_tool::{Clocking, Trace, TraceFault, TraceOptions, sim_skew};

/// The trace of a deck over a stimulus, with options, where its clocks fall so, and whether each settling ended.
pub fn sim(
    alloc: Global,
    deck: &[u8],
    stim: &[u8],
    options: &TraceOptions,
    clocking: Clocking,
) -> Result<Answer, TraceFault>
    ensures trace { IfOk result (λ answer. (settled : Bool)
        × IsTraceBy clocking deck.now stim.now options.now (record { text = answer.text.items; settled = settled })
        × (answer.ending ≡ ending_of settled)) }
    ensures refused { (why : Fault) → IsErrOf result why → IsRefused deck.now stim.now options.now.probes why }
{
    let trace = trace_of(alloc, deck, stim, options, clocking)?;
    let ending = Ending::of(trace.settled);
    let text = trace.text;
    Ok(Answer { text, ending })
}

/// The trace of a deck over a stimulus, with options, where its clocks fall so.
fn trace_of(
    alloc: Global,
    deck: &[u8],
    stim: &[u8],
    options: &TraceOptions,
    clocking: Clocking,
) -> Result<Trace, TraceFault>
    ensures trace { IfOk result (λ trace. IsTraceBy clocking deck.now stim.now options.now trace) }
    ensures refused { (why : Fault) → IsErrOf result why → IsRefused deck.now stim.now options.now.probes why }
{
    match clocking {
        Clocking::Together => trace_tool::sim(alloc, deck, stim, options),
        Clocking::Overlapping => sim_skew(alloc, deck, stim, options),
    }
}

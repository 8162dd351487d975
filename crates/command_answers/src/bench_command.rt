//! The command `bench SEED SIZE` with its options: the figures of the deck of a network that is generated, and how the deck does
//! beside the network.
ghost use Rattle.std.specs.Prelude.{◌≡◌, ◌++◌, IfOk, IsErrOf, OnOk};
ghost use Rattle.command_words.specs.Commands.{IsGoodSize};
ghost use Rattle.command_words.specs.SynthOptionWords.{AreGoodOptions};
ghost use Rattle.command_answers.specs.Benches.{IsSameBench, events_text};
ghost use Rattle.command_answers.specs.Endings.{ending_number};
ghost use Rattle.net_gen.specs.Stimulus.{stimulus_text};
ghost use Rattle.trace_tool.specs.CircuitVerdicts.{HasNoCircuitVerdict, IsCircuitVerdict};
ghost use Rattle.trace_tool.specs.VerdictLines.{verdict_line};
ghost use Rattle.trace_tool.specs.declared.options.Order.TheVariants.{First};
ghost use Rattle.trace_tool.specs.declared.fault.TraceFault.{TraceFault as Fault};
ghost use Rattle.trace_tool.specs.declared.fault.TraceFault.TheVariants.{Memory};

use crate::answer::{Answer, Ending};
use crate::cosim_command::is_same;
use crate::report_command::figures_text;
use deck::Circuit;
use dom_base::{OutOfMemory, append, append_number};
use net_flatten::Network;
use net_gen::{bench_stimulus, generate};
use std::alloc::Global;
use synth_flow::{FiguredCircuit, SynthOptions, synth_with_figures};
use trace_tool::{Order, TraceFault, Verdict, network_of_text, verdict_of_circuit};

/// The figures of the deck of a network that is generated, with options, the events and the verdict of the deck beside the
/// network. The verdict is that all is the same, and the one fault is want of memory.
pub fn bench(
    alloc: Global,
    seed: u64,
    size: u32,
    options: SynthOptions,
) -> Result<Answer, TraceFault>
    requires good_size { IsGoodSize size }
    requires good_options { AreGoodOptions options }
    ensures same { IfOk result (λ answer. IsSameBench seed size options (ending_number answer.ending) answer.text.items) }
    ensures failed { (why : Fault) → IsErrOf result why → why ≡ Memory }
{
    let blif = generate(alloc, seed, size)?;
    let network = network_of_text(alloc, &blif)?;
    drop(blif);
    let FiguredCircuit { circuit, figures } = synth_with_figures(alloc, &network, options)?;
    circuit.whole();
    let mut text = figures_text(alloc, &network.name, &figures)?;
    drop(figures);
    let verdict = own_verdict(alloc, seed, &network, circuit)?;
    append_verdict(alloc, &mut text, &verdict)?;
    let ending = Ending::of(is_same(&verdict));
    Ok(Answer { text, ending })
}

/// The verdict of a circuit beside a network over the four cycles of a seed.
fn own_verdict(
    alloc: Global,
    seed: u64,
    network: &Network,
    circuit: Circuit,
) -> Result<Verdict, TraceFault>
    ensures verdict { IfOk result (λ verdict. IsCircuitVerdict network.now circuit (stimulus_text seed network.now.inputs) First 0 verdict) }
    ensures refused { (why : Fault) → IsErrOf result why
        → HasNoCircuitVerdict network.now circuit (stimulus_text seed network.now.inputs) why }
{
    let stim = bench_stimulus(alloc, seed, network.inputs)?;
    verdict_of_circuit(alloc, network, circuit, &stim, Order::First, 0)
}

/// Appends the line of the events of a verdict, where all is the same, and the line of the verdict.
fn append_verdict(alloc: Global, text: &mut Vec<u8>, verdict: &Verdict) -> Result<(), OutOfMemory>
    ensures { OnOk result (text.new.items ≡ text.old.items ++ events_text verdict.now ++ verdict_line verdict.now) }
{
    append_events(text, verdict)?;
    let line = verdict.text(alloc)?;
    append(text, &line)
}

/// Appends the line of the events of a verdict, where all is the same.
fn append_events(text: &mut Vec<u8>, verdict: &Verdict) -> Result<(), OutOfMemory>
    ensures { OnOk result (text.new.items ≡ text.old.items ++ events_text verdict.now) }
{
    if let Verdict::Same { events, .. } = verdict {
        append(text, b"events ")?;
        append_number(text, *events)?;
        append(text, b"\n")?;
    }
    Ok(())
}

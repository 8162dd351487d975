//! The command `cosim FILE DECK STIM`: the verdict of a deck beside the network of a file over a stimulus.
ghost use Rattle.std.specs.Prelude.{◌≡◌, IfOk, IsErrOf};
ghost use Rattle.command_answers.specs.Endings.{ending_of};
ghost use Rattle.command_answers.specs.Verdicts.{is_same_verdict};
ghost use Rattle.trace_tool.specs.CosimRefusals.{IsCosimRefused};
ghost use Rattle.trace_tool.specs.VerdictLines.{verdict_line};
ghost use Rattle.trace_tool.specs.Verdicts.{IsVerdictOf};
ghost use Rattle.trace_tool.specs.declared.fault.TraceFault.{TraceFault as Fault};
ghost use Rattle.trace_tool.specs.declared.verdict.Verdict.{Verdict as Compared};

use crate::answer::{Answer, Ending};
use std::alloc::Global;
use trace_tool::{Order, TraceFault, Verdict};

/// The verdict of a deck beside the network of a file over a stimulus, in an order of events with a seed.
pub fn cosim(
    alloc: Global,
    file: &[u8],
    deck: &[u8],
    stim: &[u8],
    order: Order,
    seed: u64,
) -> Result<Answer, TraceFault>
    ensures verdict { IfOk result (λ answer. (verdict : Compared) × IsVerdictOf file.now deck.now stim.now order seed verdict
        × (answer.text.items ≡ verdict_line verdict) × (answer.ending ≡ ending_of (is_same_verdict verdict))) }
    ensures refused { (why : Fault) → IsErrOf result why → IsCosimRefused file.now deck.now stim.now why }
{
    let verdict = trace_tool::cosim(alloc, file, deck, stim, order, seed)?;
    let text = verdict.text(alloc)?;
    let ending = Ending::of(is_same(&verdict));
    Ok(Answer { text, ending })
}

/// Whether all is the same.
pub fn is_same(verdict: &Verdict) -> bool
    ensures { result ≡ is_same_verdict verdict.now }
{
    match verdict {
        Verdict::Same { .. } => true,
        _ => false,
    }
}

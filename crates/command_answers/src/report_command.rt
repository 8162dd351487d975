//! The command `report FILE` with its options: the figures of the deck of the network of a file.
ghost use Rattle.std.specs.Prelude.{◌≡◌, ◌≤◌, IfOk, IsErrOf, length};
ghost use Rattle.dom_io.specs.Held.{file_limit};
ghost use Rattle.command_words.specs.SynthOptionWords.{AreGoodOptions};
ghost use Rattle.command_answers.specs.Decks.{AreFigureLines, AreFiguresFor};
ghost use Rattle.command_answers.specs.declared.answer.Ending.TheVariants.{Done};
ghost use Rattle.synth_flow.specs.SummaryLines.{summary_lines};
ghost use Rattle.trace_tool.specs.CosimRefusals.{IsUnflattened};
ghost use Rattle.trace_tool.specs.declared.fault.TraceFault.{TraceFault as Fault};

use crate::answer::{Answer, Ending};
use dom_base::{Name, OutOfMemory};
use net_flatten::Network;
use std::alloc::Global;
use synth_flow::{Summary, SynthOptions, append_summary, summary};
use trace_tool::{TraceFault, network_of_text};

/// The figures of the deck of the network of these bytes, which are those of a file, with options. The deck isn't made.
pub fn report(alloc: Global, bytes: &[u8], options: SynthOptions) -> Result<Answer, TraceFault>
    requires within { length bytes.now ≤ file_limit }
    requires good_options { AreGoodOptions options }
    ensures figures { IfOk result (λ answer. AreFiguresFor bytes.now options answer.text.items × (answer.ending ≡ Done)) }
    ensures refused { (why : Fault) → IsErrOf result why → IsUnflattened bytes.now why }
{
    let network = network_of_text(alloc, bytes)?;
    let text = figure_lines(alloc, &network, options)?;
    let ending = Ending::Done;
    Ok(Answer { text, ending })
}

/// The text of the figures of the deck of a network, with options.
fn figure_lines(
    alloc: Global,
    network: &Network,
    options: SynthOptions,
) -> Result<Vec<u8>, OutOfMemory>
    requires good_options { AreGoodOptions options }
    ensures { IfOk result (λ text. AreFigureLines network.now options text.items) }
{
    let figures = summary(alloc, network, options)?;
    let text = figures_text(alloc, &network.name, &figures)?;
    Ok(text)
}

/// The text of the figures of the deck of a model of this name.
pub fn figures_text(alloc: Global, model: &Name, figures: &Summary) -> Result<Vec<u8>, OutOfMemory>
    ensures { IfOk result (λ text. text.items ≡ summary_lines model.now figures.now) }
{
    let mut text = Vec::new(alloc);
    append_summary(&mut text, model, figures)?;
    Ok(text)
}

//! The command `synth FILE` with its options: the deck of the network of a file.
ghost use Rattle.std.specs.Prelude.{◌≡◌, ◌≤◌, IfOk, IsErrOf, length};
ghost use Rattle.dom_io.specs.Held.{file_limit};
ghost use Rattle.command_words.specs.SynthOptionWords.{AreGoodOptions};
ghost use Rattle.deck_form.specs.AskedOptions.{deck_options};
ghost use Rattle.deck_form.specs.ChosenDecks.{IsDeckOfSigns};
ghost use Rattle.command_answers.specs.Decks.{IsDeckFor, IsLeastDeckFor, IsWholeText};
ghost use Rattle.command_answers.specs.RightDecks.{IsRightBy};
ghost use Rattle.command_answers.specs.Methods.{AreSignsOf, HasNamesFor, HasSignsOf, IsSuited, IsUndecked, IsUnsuited};
ghost use Rattle.command_words.specs.declared.command.Method.TheVariants.{Exact, Plain};
ghost use Rattle.command_answers.specs.declared.answer.Ending.TheVariants.{Done};
ghost use Rattle.command_answers.specs.declared.fault.Fault.{Fault as AnyFault};

use crate::answer::{Answer, Ending};
use crate::fault::Fault;
use command_words::Method;
use compound_flow::synth_compound;
use deck::Circuit;
use dom_base::OutOfMemory;
use exact_phase::exact;
use gate_decompose::decompose;
use network::Network;
use spice_text::write;
use std::alloc::Global;
use synth_flow::{DeckVersion, SynthOptions, deck_text, synth_signs, synth_skew};
use trace_tool::network_of_text;

/// The greatest number of sinks of which exact signs are sought.
const MOST_EXACT_SINKS: usize = 12;

/// The deck of the network of these bytes, which are those of a file, with options and by a method.
pub fn synth(
    alloc: Global,
    bytes: &[u8],
    options: SynthOptions,
    method: Method,
) -> Result<Answer, Fault>
    requires within { length bytes.now ≤ file_limit }
    requires good_options { AreGoodOptions options }
    ensures deck { IfOk result (λ answer. IsDeckFor bytes.now options method answer.text.items × (answer.ending ≡ Done)) }
    ensures right { IfOk result (λ answer. IsRightBy method bytes.now options answer.text.items
        × HasSignsOf method bytes.now answer.text.items × IsLeastDeckFor bytes.now options method answer.text.items) }
    ensures refused { (why : AnyFault) → IsErrOf result why → IsUndecked method bytes.now why }
{
    let network = network_of_text(alloc, bytes)?;
    let text = text_of(alloc, network, options, method)?;
    let ending = Ending::Done;
    Ok(Answer { text, ending })
}

/// The text of the deck of a network with options, by a method.
fn text_of(
    alloc: Global,
    network: Network,
    options: SynthOptions,
    method: Method,
) -> Result<Vec<u8>, Fault>
    requires good_options { AreGoodOptions options }
    ensures text { IfOk result (λ text. IsWholeText network options method text.items) }
    ensures suited { IfOk result (λ _. IsSuited method network) }
    ensures names { IfOk result (λ _. HasNamesFor method network) }
    ensures refused { (why : AnyFault) → IsErrOf result why → IsUnsuited method network why }
{
    match method {
        Method::Plain(version) => {
            let text = plain_text(alloc, network, options, version)?;
            Ok(text)
        }
        Method::Exact => {
            let circuit = exact_circuit(alloc, &network, options)?;
            drop(network);
            circuit.whole();
            let text = write(alloc, &circuit)?;
            Ok(text)
        }
        Method::Skew => {
            let circuit = synth_skew(alloc, &network, options.bounds, options.phases)?;
            drop(network);
            circuit.whole();
            let text = write(alloc, &circuit)?;
            Ok(text)
        }
        Method::Compound => {
            let circuit = synth_compound(alloc, &network, options.bounds, options.phases)?;
            drop(network);
            circuit.whole();
            let text = write(alloc, &circuit)?;
            Ok(text)
        }
    }
}

/// The text, in a version, of the deck of a network with options, of the chosen signs.
fn plain_text(
    alloc: Global,
    network: Network,
    options: SynthOptions,
    version: DeckVersion,
) -> Result<Vec<u8>, OutOfMemory>
    requires good_options { AreGoodOptions options }
    ensures { IfOk result (λ text. IsWholeText network options (Plain version) text.items) }
{
    let text = deck_text(alloc, network, options, version)?;
    Ok(text)
}

/// The circuit of a network with options, of the signs that need the fewest pairs of all.
fn exact_circuit(alloc: Global, network: &Network, options: SynthOptions) -> Result<Circuit, Fault>
    requires good_options { AreGoodOptions options }
    ensures circuit { IfOk result (IsDeckOfSigns (AreSignsOf Exact) network.now (deck_options options)) }
    ensures suited { IfOk result (λ _. IsSuited Exact network.now) }
    ensures refused { (why : AnyFault) → IsErrOf result why → IsUnsuited Exact network.now why }
{
    let sinks = network.outputs.len() + network.latches.len();
    if sinks > MOST_EXACT_SINKS {
        return Err(Fault::TooManySinks {
            count: sinks as u64,
        });
    }
    let gates = decompose(alloc, network)?;
    let exact = exact(alloc, &gates)?;
    drop(gates);
    let circuit = synth_signs(alloc, network, options, exact.signs.as_slice())?;
    Ok(circuit)
}

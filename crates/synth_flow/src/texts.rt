//! The text of the deck of a network, without its circuit.
ghost use Rattle.std.specs.Prelude.{◌≡◌, ◌≤◌, ◌<◌, All, IfOk, map};
ghost use Rattle.deck.specs.Escapes.{escaped};
ghost use Rattle.dom_base.specs.Names.{IsNetName};
ghost use Rattle.deck_form.specs.DominoDecks.{outs_of, pins_of, starts_of};
ghost use Rattle.deck_form.specs.declared.version.DeckVersion.TheVariants.{One, Two};
ghost use Rattle.network.specs.declared.network.NetLatch.{NetLatch};
ghost use Rattle.synth_flow.specs.WholeTexts.{IsChosenCellText, IsChosenText};

use crate::bare::{see_bytes, see_names};
use crate::chosen::{ChosenForest, chosen_forest};
use crate::counted::{CountedCover, counted_cover};
use crate::counts::greatest_level;
use crate::names::{escaped_name, out_names, pin_names};
use deck_form::{DeckVersion, SynthOptions};
use dom_base::{NetName, OutOfMemory};
use network::{NetLatch, Network};
use plan_text::{CutForest, PlannedDeck, text_of_plan};
use std::alloc::Global;

/// The escaped name of a network, the nets of its inputs and outputs, and the start values of its latches.
#[derive(Drop)]
struct DeckNames {
    name: NetName,
    pins: Vec<NetName>,
    outs: Vec<NetName>,
    starts: Vec<bool>,
}

/// The start values of latches.
fn start_values(alloc: Global, latches: &[NetLatch]) -> Result<Vec<bool>, OutOfMemory>
    ensures { IfOk result (λ starts. starts.items ≡ map (λ (l : NetLatch). l.init) latches.now) }
{
    let mut starts = Vec::with_capacity(alloc, latches.len())?;
    'latches: for latch in latches {
        starts.push(latch.init)?;
    }
    Ok(starts)
}

/// The names of the deck of a network.
fn deck_names(alloc: Global, network: &Network) -> Result<DeckNames, OutOfMemory>
    ensures name { IfOk result (λ n. n.name ≡ escaped network.now.name) }
    ensures pins { IfOk result (λ n. n.pins.items ≡ pins_of network.now) }
    ensures outs { IfOk result (λ n. n.outs.items ≡ outs_of network.now) }
    ensures starts { IfOk result (λ n. n.starts.items ≡ starts_of network.now) }
    ensures plain { IfOk result (λ n. IsNetName n.name) }
    ensures names { IfOk result (λ _. All (λ name. All (λ b. b < 256) name) network.now.names) }
{
    let names = &network.names;
    see_names(names);
    let title = network.name.as_bytes();
    see_bytes(title);
    let name = escaped_name(alloc, b"", title)?;
    name.as_bytes();
    Ok(DeckNames {
        name,
        pins: pin_names(alloc, names, network.inputs)?,
        outs: out_names(alloc, names, network.outputs.as_slice())?,
        starts: start_values(alloc, network.latches.as_slice())?,
    })
}

/// The text of the deck of a network in a version: that of the circuit that `synth` gives of it with the same options, or by
/// the cells of its groups, as `synth_grouped` gives them. It doesn't make the circuit, and writes the devices from the kept
/// edges of the chosen cover. The one error is out of memory.
pub fn deck_text(
    alloc: Global,
    network: Network,
    options: SynthOptions,
    version: DeckVersion,
) -> Result<Vec<u8>, OutOfMemory>
    requires some_width { 2 ≤ options.bounds.w }
    requires few_wide { options.bounds.w ≤ 8 }
    requires some_height { 2 ≤ options.bounds.h }
    requires few_high { options.bounds.h ≤ 6 }
    requires some_phase { 1 ≤ options.phases }
    requires few_phases { options.phases ≤ 4 }
    ensures one { version ≡ One → IfOk result (λ text. IsChosenText network options text.items) }
    ensures two { version ≡ Two → IfOk result (λ text. IsChosenCellText network options text.items) }
{
    let ChosenForest { signs, forest } = chosen_forest(alloc, &network)?;
    let DeckNames {
        name,
        pins,
        outs,
        starts,
    } = deck_names(alloc, &network)?;
    drop(network);
    let CountedCover {
        kept,
        cells,
        places,
        levels,
        complements,
    } = counted_cover(alloc, &forest, options.bounds)?;
    let top = greatest_level(levels.as_slice());
    let cover = CutForest {
        forest: &forest,
        kept: kept.as_slice(),
        cells: cells.as_slice(),
        pins: pins.as_slice(),
    };
    let deck = PlannedDeck {
        name: name.as_bytes(),
        style: options.style,
        phases: options.phases,
        signs: signs.as_slice(),
        cover,
        places: places.as_slice(),
        levels: levels.as_slice(),
        top,
        complements: complements.as_slice(),
        outs: outs.as_slice(),
        starts: starts.as_slice(),
    };
    let text = text_of_plan(alloc, &deck, version)?;
    Ok(text)
}

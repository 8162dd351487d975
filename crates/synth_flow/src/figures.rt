//! The figures of the deck of a network, and their text.
ghost use Rattle.std.specs.Prelude.{◌≡◌, ◌++◌, OnOk};
ghost use Rattle.std.specs.List.{enumerate_from, flat_map};
ghost use Rattle.synth_flow.specs.SummaryLines.{clock_line, figure_line, number_line, summary_lines};

use dom_base::{Name, OutOfMemory, append, append_number, append_word};
use std::marker::Model;

/// The figures of the deck that synthesis gives of a network: how many inputs, outputs and latches the
/// network has; how many pairs of a node and a sign are needed, how many nodes are needed in both signs, and
/// how many sinks have the sign minus; how many domino cells there are, the greatest of their levels, or 0
/// without cells, and what they cost, which is the devices of each; how many devices the deck has; and how many
/// cells each clock has, from `ck1` on.
#[derive(Drop)]
pub struct Summary {
    pub inputs: u32,
    pub outputs: u32,
    pub latches: u32,
    pub pairs: u64,
    pub both: u64,
    pub minus: u32,
    pub cells: u32,
    pub levels: u32,
    pub cost: u64,
    pub devices: u64,
    pub clocks: Vec<u32>,
}

impl Model for Summary {
    ghost use Rattle.synth_flow.specs.SummaryData.{SummaryData};

    ghost Value = { SummaryData };

    ghost view = { λ s. record {
      inputs = s.inputs;
      outputs = s.outputs;
      latches = s.latches;
      pairs = s.pairs;
      both = s.both;
      minus = s.minus;
      cells = s.cells;
      levels = s.levels;
      cost = s.cost;
      devices = s.devices;
      clocks = s.clocks.items;
    } };
}

/// Appends the lines of the figures of the deck of a model with this name: `model NAME`, `inputs`,
/// `outputs`, `latches`, `pairs`, `both`, `minus`, `cells`, `levels`, `cost` and `devices` with their numbers,
/// and `ck1`, `ck2` and so on, each with its number of cells. Each line has one blank and ends with LF. The
/// one error is out of memory, and then some of the lines may stand at the end.
pub fn append_summary(
    text: &mut Vec<u8>,
    model: &Name,
    figures: &Summary,
) -> Result<(), OutOfMemory>
    ensures { OnOk result (text.new.items ≡ text.old.items ++ summary_lines model.now figures.now) }
{
    append_figure(text, b"model", model.as_bytes())?;
    append_count(text, b"inputs", figures.inputs as u64)?;
    append_count(text, b"outputs", figures.outputs as u64)?;
    append_count(text, b"latches", figures.latches as u64)?;
    append_count(text, b"pairs", figures.pairs)?;
    append_count(text, b"both", figures.both)?;
    append_count(text, b"minus", figures.minus as u64)?;
    append_count(text, b"cells", figures.cells as u64)?;
    append_count(text, b"levels", figures.levels as u64)?;
    append_count(text, b"cost", figures.cost)?;
    append_count(text, b"devices", figures.devices)?;
    append_clocks(text, figures.clocks.as_slice())
}

/// Appends a line of a word and a value.
fn append_figure(text: &mut Vec<u8>, word: &[u8], value: &[u8]) -> Result<(), OutOfMemory>
    ensures { OnOk result (text.new.items ≡ text.old.items ++ figure_line word.now value.now) }
{
    append(text, word)?;
    append_word(text, value)?;
    append(text, b"\n")
}

/// Appends a line of a word and a number.
fn append_count(text: &mut Vec<u8>, word: &[u8], number: u64) -> Result<(), OutOfMemory>
    ensures { OnOk result (text.new.items ≡ text.old.items ++ number_line word.now number) }
{
    append(text, word)?;
    append(text, b" ")?;
    append_number(text, number)?;
    append(text, b"\n")
}

/// Appends the line of a clock with its number of cells.
fn append_clock(text: &mut Vec<u8>, clock: u64, cells: u32) -> Result<(), OutOfMemory>
    ensures { OnOk result (text.new.items ≡ text.old.items ++ clock_line (clock, cells)) }
{
    append(text, b"ck")?;
    append_number(text, clock)?;
    append(text, b" ")?;
    append_number(text, cells as u64)?;
    append(text, b"\n")
}

/// Appends the lines of the clocks, from the first on.
fn append_clocks(text: &mut Vec<u8>, cells: &[u32]) -> Result<(), OutOfMemory>
    ensures { OnOk result (text.new.items ≡ text.old.items ++ flat_map clock_line (enumerate_from 1 cells.now)) }
{
    'clocks: for k in 0..cells.len() {
        append_clock(text, k as u64 + 1, cells[k])?;
    }
    Ok(())
}

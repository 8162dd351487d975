//! The command `run FILE STIM`: the run of the network of a file over a stimulus.
ghost use Rattle.std.specs.Prelude.{◌≡◌, ◌≤◌, ◌++◌, All, IfOk, IsErrOf, None, OnOk, length, map};
ghost use Rattle.dom_io.specs.Held.{file_limit};
ghost use Rattle.command_answers.specs.Bits.{tri_of};
ghost use Rattle.command_answers.specs.NetworkRuns.{PutsCycle};
ghost use Rattle.command_answers.specs.Networks.{IsRunOf, IsRunRefused, IsRunText};
ghost use Rattle.command_answers.specs.declared.answer.Ending.TheVariants.{Done};
ghost use Rattle.trace_tool.specs.declared.fault.TraceFault.{TraceFault as Fault};

use crate::answer::{Answer, Ending};
use dom_base::{OutOfMemory, Tri};
use net_flatten::Network;
use net_run::Runner;
use std::alloc::Global;
use stim_text::{CycleRow, Stimulus, read_stim, write_cycle};
use trace_tool::{TraceFault, network_of_text};

/// The most bytes of the line of a cycle besides those of its values.
const AROUND: usize = 40;

/// The run of the network of these bytes, which are those of a file, over a stimulus.
pub fn run(alloc: Global, bytes: &[u8], stim: &[u8]) -> Result<Answer, TraceFault>
    requires within { length bytes.now ≤ file_limit }
    ensures text { IfOk result (λ answer. IsRunOf bytes.now stim.now answer.text.items × (answer.ending ≡ Done)) }
    ensures refused { (why : Fault) → IsErrOf result why → IsRunRefused bytes.now stim.now why }
{
    let network = network_of_text(alloc, bytes)?;
    let cycles = read_stim(alloc, stim, network.inputs)?;
    let text = run_text(alloc, &network, &cycles)?;
    let ending = Ending::Done;
    Ok(Answer { text, ending })
}

/// The lines of the run of a network over these cycles.
fn run_text(alloc: Global, network: &Network, cycles: &Stimulus) -> Result<Vec<u8>, OutOfMemory>
    requires { All (λ pins. length pins ≡ network.now.inputs) cycles.now }
    ensures { IfOk result (λ text. IsRunText network.now cycles.now text.items) }
{
    let mut runner = Runner::new(alloc, network)?;
    let line = AROUND + network.inputs as usize + network.outputs.len();
    let mut text = Vec::with_capacity(alloc, line.saturating_mul(cycles.len()))?;
    let mut row = CycleRow {
        cycle: 0,
        pins: Vec::new(alloc),
        outs: Vec::new(alloc),
        events: None,
    };
    for k in 0..cycles.len() {
        put_cycle(&mut text, &mut row, &mut runner, k as u64, cycles.cycle(k))?;
    }
    Ok(text)
}

/// Runs a cycle and appends its line. What stands in `row` is overwritten.
fn put_cycle(
    text: &mut Vec<u8>,
    row: &mut CycleRow,
    runner: &mut Runner,
    number: u64,
    pins: &[bool],
) -> Result<(), OutOfMemory>
    requires { length pins.now ≡ runner.old.inputs }
    ensures { OnOk result (PutsCycle number pins.now runner.old runner.new text.old.items text.new.items) }
{
    set_row(row, number, pins, runner.cycle(pins))?;
    write_cycle(text, row)
}

/// Makes a row that of a cycle, with these bits as the values of its outputs.
fn set_row(row: &mut CycleRow, number: u64, pins: &[bool], outs: &[bool]) -> Result<(), OutOfMemory>
    ensures { OnOk result (row.new ≡ record { cycle = number; pins = pins.now; outs = map tri_of outs.now; events = None }) }
{
    row.cycle = number;
    row.events = None;
    row.pins.clear();
    row.pins.extend_from_slice(pins)?;
    row.outs.clear();
    put_values(&mut row.outs, outs)
}

/// Appends the values of bits.
fn put_values(values: &mut Vec<Tri>, bits: &[bool]) -> Result<(), OutOfMemory>
    ensures { OnOk result (values.new.items ≡ values.old.items ++ map tri_of bits.now) }
{
    for bit in bits {
        values.push(if *bit { Tri::One } else { Tri::Zero })?;
    }
    Ok(())
}

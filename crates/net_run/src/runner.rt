//! A run of a network, cycle by cycle.
ghost use Rattle.std.specs.Prelude.{◌≡◌, IfOk, length, map, ⊤};
ghost use Rattle.std.specs.Borrow.{sem, follows_so};
ghost use mathlib.Core.Option.{none};
ghost use Rattle.network.specs.declared.network.NetLatch.{NetLatch as Latch};
ghost use Rattle.network.specs.NetworkData.{NetworkData};
ghost use Rattle.net_run.specs.contracts.runner.Runner.{the_row};
ghost use Rattle.net_run.specs.RunnerData.{RunsNetwork};
ghost use Rattle.net_run.specs.Runs.{IsNetworkCycle, start};

use crate::values::{evaluate, read};
use dom_base::OutOfMemory;
use network::{NetLatch, NetTables, Network};
use std::alloc::Global;
use std::marker::Model;

/// A run of a network, which is its inputs, outputs, latches and tables, and the values that the latches have.
#[derive(Drop)]
pub struct Runner {
    inputs: usize,
    outputs: Vec<u32>,
    latches: Vec<u32>,
    tables: NetTables,
    state: Vec<bool>,
    values: Vec<bool>,
    outs: Vec<bool>,
}

impl Model for Runner {
    ghost use Rattle.net_run.specs.RunnerData.{IsRunner, RunnerData};

    ghost Value = { RunnerData };

    ghost view = { λ r. record {
      inputs = r.inputs;
      outputs = r.outputs.items;
      latches = r.latches.items;
      tables = r.tables;
      state = r.state.items;
    } };

    ghost invariant = { λ r. IsRunner (record {
      inputs = r.inputs;
      outputs = r.outputs.items;
      latches = r.latches.items;
      tables = r.tables;
      state = r.state.items;
    })
        r.values.items r.outs.items };
}

impl Runner {
    /// The run of a network before its first cycle: each latch has its start value.
    pub fn new(alloc: Global, network: &Network) -> Result<Runner, OutOfMemory>
        ensures network { IfOk result (RunsNetwork network.now) }
        ensures start { IfOk result (λ runner. runner.state ≡ start network.now) }
    {
        let outputs = network.outputs.as_slice().to_vec(alloc)?;
        let latches = signals_read(alloc, &network.latches)?;
        let state = start_values(alloc, &network.latches)?;
        Ok(Runner {
            inputs: network.inputs as usize,
            tables: network.tables.copy(alloc)?,
            values: vec![in alloc; false; network.names.len()]?,
            outs: vec![in alloc; false; outputs.len()]?,
            outputs,
            latches,
            state,
        })
    }

    /// The values of the latches.
    pub fn state(&self) -> &[bool]
        ensures { result.now ≡ self.now.state }
    {
        self.state.as_slice()
    }

    /// A cycle with these values at the inputs: the values at the outputs. The latches take what they read.
    /// It takes no memory.
    pub fn cycle(&mut self, pins: &[bool]) -> &[bool]
        requires pins { length pins.now ≡ self.old.inputs }
        ensures* cycle { sem 𝓛 (follows_so the_row the_row self.entry.ghost_name none (λ _ _. ⊤)
            (λ new. (n : NetworkData) → RunsNetwork n self.old
            → IsNetworkCycle n pins.now self.old.state (record { outputs = result.now; next = new.state }) × RunsNetwork n new)) }
    {
        evaluate(&mut self.values, pins, &self.state, &self.tables);
        read(&mut self.outs, &self.outputs, &self.values);
        read(&mut self.state, &self.latches, &self.values);
        self.outs.as_slice()
    }
}

/// The signals that latches read.
fn signals_read(alloc: Global, latches: &[NetLatch]) -> Result<Vec<u32>, OutOfMemory>
    ensures { IfOk result (λ signals. signals.items ≡ map (λ (l : Latch). l.input) latches.now) }
{
    Ok(latches.iter().map(|l| l.input).collect::<Vec<u32>>(alloc)?)
}

/// The start values of latches.
fn start_values(alloc: Global, latches: &[NetLatch]) -> Result<Vec<bool>, OutOfMemory>
    ensures { IfOk result (λ values. values.items ≡ map (λ (l : Latch). l.init) latches.now) }
{
    Ok(latches.iter().map(|l| l.init).collect::<Vec<bool>>(alloc)?)
}

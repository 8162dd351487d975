//! The run of a circuit over its cycles beside that of a network.
ghost use Rattle.std.specs.Prelude.{ℕ, ◌≡◌, ◌<◌, All, IfOk, List, length};
ghost use Rattle.deck.specs.Roles.{AreRoles, ports_of};
ghost use Rattle.event_sim.specs.Choices.{Chooses};
ghost use Rattle.event_sim.specs.Orders.{By, Follows};
ghost use Rattle.net_run.specs.Runs.{Cycle, IsNetworkRun};
ghost use Rattle.trace_tool.specs.Comparisons.{ComparesAll, ComparesBits, ComparesCycle, ComparesReading, IsBeside, StopsAt};
ghost use Rattle.trace_tool.specs.Traces.{outputs as outputs_of};
ghost use Rattle.trace_tool.specs.Verdicts.{IsRunVerdict};

use crate::Verdict;
use crate::halt::Halt;
use crate::ports::value_of;
use crate::run::Run;
use crate::setup::Setup;
use dom_base::OutOfMemory;
use event_sim::Chooser;
use net_flatten::Network;
use net_run::Runner;
use std::alloc::Global;
use std::sync::ledger::{Blank, Ledger};
use stim_text::Stimulus;

/// The verdict of power and of these cycles, beside those of a network with as many inputs and outputs.
pub fn compared<F: Fn(u64, u64) -> u64, L: Ledger>(
    alloc: Global,
    setup: Setup<'_>,
    network: &Network,
    cycles: &Stimulus,
    chooser: Chooser<F>,
    blank: Blank,
) -> Result<Verdict, OutOfMemory>
    requires chooses { Chooses (F.pre chooser.pick) (F.post chooser.pick) }
    requires roles { AreRoles (ports_of setup.circuit) setup.roles }
    requires inputs { network.now.inputs ≡ setup.roles.pins }
    requires outputs { length network.now.outputs ≡ setup.roles.outs }
    requires widths { All (λ pins. length pins ≡ setup.roles.pins) cycles.now }
    requires name { blank.name ≡ L.name }
    requires parts { blank.parts ≡ L.parts }
    requires some { 0 < L.parts }
    ensures { IfOk result (λ verdict. (order : ℕ → ℕ → ℕ) (wanted : List Cycle) → Follows order (F.post chooser.pick)
        → IsNetworkRun network.now cycles.now wanted → IsRunVerdict (By order) setup.entry cycles.now wanted verdict) }
{
    let mut runner = Runner::new(alloc, network)?;
    let mut run = Run::<F, L>::new(alloc, setup, chooser, blank)?;
    match run.power_up() {
        Ok(_) => run.compare_cycles(&mut runner, cycles),
        Err(halt) => stopped(0, halt),
    }
}

/// The verdict of a settling in a cycle, 0 in power, that ended without rest.
fn stopped(cycle: u64, halt: Halt) -> Result<Verdict, OutOfMemory>
    ensures { IfOk result (StopsAt cycle halt) }
{
    match halt {
        Halt::Unsettled(events) => Ok(Verdict::Unsettled { cycle, events }),
        Halt::Memory => Err(OutOfMemory),
    }
}

impl<'a, F: Fn(u64, u64) -> u64, L: Ledger> Run<'a, F, L> {
    /// The verdict of the cycles in turn, beside those of a runner.
    fn compare_cycles(
        &mut self,
        runner: &mut Runner,
        cycles: &Stimulus,
    ) -> Result<Verdict, OutOfMemory>
        requires chooses { Chooses (F.pre self.old.pick) (F.post self.old.pick) }
        requires beside { IsBeside self.old.setup.roles runner.old }
        requires widths { All (λ pins. length pins ≡ self.old.setup.roles.pins) cycles.now }
        ensures { IfOk result (ComparesAll F.post self.old runner.old cycles.now) }
    {
        let mut number = 0;
        'cycles: while number < cycles.len() {
            let pins = cycles.cycle(number);
            if let Some(verdict) = self.compare_cycle(runner, number as u64, pins)? {
                return Ok(verdict);
            }
            number += 1;
        }
        Ok(Verdict::Same {
            cycles: number as u64,
            events: self.steps(),
        })
    }

    /// A cycle with these pins beside that of a runner. It answers the verdict where that is decided.
    fn compare_cycle(
        &mut self,
        runner: &mut Runner,
        number: u64,
        pins: &[bool],
    ) -> Result<Option<Verdict>, OutOfMemory>
        requires chooses { Chooses (F.pre self.old.pick) (F.post self.old.pick) }
        requires beside { IsBeside self.old.setup.roles runner.old }
        requires width { length pins.now ≡ self.old.setup.roles.pins }
        ensures { IfOk result (λ verdict. ComparesCycle F.post number pins.now self.old runner.old verdict self.new runner.new) }
    {
        let wanted = runner.cycle(pins);
        match self.compare_reading(number, pins, wanted) {
            Ok(verdict) => Ok(verdict),
            Err(halt) => Ok(Some(stopped(number, halt)?)),
        }
    }

    /// A cycle with these pins whose outputs are to be these bits, up to a settling that ends without
    /// rest. It answers the verdict where that is decided by the reading.
    fn compare_reading(
        &mut self,
        number: u64,
        pins: &[bool],
        wanted: &[bool],
    ) -> Result<Option<Verdict>, Halt>
        requires chooses { Chooses (F.pre self.old.pick) (F.post self.old.pick) }
        requires width { length pins.now ≡ self.old.setup.roles.pins }
        requires outputs { length wanted.now ≡ self.old.setup.roles.outs }
        ensures { ComparesReading F.post number pins.now wanted.now self.old result self.new }
    {
        self.evaluate(pins)?;
        if let Some(index) = self.first_wrong(wanted) {
            return Ok(Some(Verdict::Differ {
                cycle: number,
                pin: self.output_name(index)?,
                wanted: wanted[index],
                found: self.output(index),
            }));
        }
        self.latch()?;
        Ok(None)
    }

    /// The first output, from 0, whose value isn't its bit.
    fn first_wrong(&self, wanted: &[bool]) -> Option<usize>
        requires { length wanted.now ≡ self.now.setup.roles.outs }
        ensures { ComparesBits wanted.now (outputs_of self.now.setup.roles self.now.state.values) result }
    {
        for index in 0..self.output_count() {
            if self.output(index) != value_of(wanted[index]) {
                return Some(index);
            }
        }
        None
    }
}

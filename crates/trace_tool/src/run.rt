//! A run: a simulation of a setup's circuit, and the text of its trace so far.
ghost use Rattle.std.specs.Prelude.{◌≡◌, ◌+◌, ◌<◌, ◌≤◌, ◌↔◌, ◌^◌, IfOk, IsTrue, OnOk, Some, [], ◌∷◌, drop, length, slice_get, true, false};
ghost use Rattle.deck.specs.Roles.{AreRoles, ports_of};
ghost use Rattle.event_sim.specs.Choices.{Chooses};
ghost use Rattle.event_sim.specs.Pending.{IsResting};
ghost use Rattle.event_sim.specs.Settling.{most_events as most_of};
ghost use Rattle.stim_text.specs.CycleLines.{cycle_line};
ghost use Rattle.deck.specs.PortLayout.{first_output, source_count};
ghost use Rattle.switch_model.specs.LinksData.{links_of};
ghost use Rattle.trace_tool.specs.Moves.{set_bits};
ghost use Rattle.trace_tool.specs.RunData.{Runs, Settles, StepsOnce, IsHalted, power_run, with_line, with_moved};
ghost use Rattle.trace_tool.specs.TraceLines.{power_line};
ghost use Rattle.trace_tool.specs.Traces.{outputs as outputs_of};

use crate::halt::Halt;
use crate::lines::{append_event, append_power, append_unsettled};
use crate::names::copied;
use crate::ports::{read_ports, set_ports};
use crate::setup::Setup;
use crate::{Clocking, Trace};
use deck::Roles;
use dom_base::{NetName, OutOfMemory, Tri};
use event_sim::{Chooser, Sim};
use std::alloc::Global;
use std::marker::Model;
use std::sync::ledger::{Blank, Ledger};
use stim_text::{CycleRow, write_cycle};
use switch_model::Steps;

/// A simulation of the setup's circuit, the text of its trace so far, and the count of the steps that
/// it took.
#[derive(Drop)]
pub struct Run<'a, F: Fn(u64, u64) -> u64, L: Ledger> {
    setup: Setup<'a>,
    sim: Sim<F>,
    text: Vec<u8>,
    steps: Steps<L>,
}

impl<'a, F: Fn(u64, u64) -> u64, L: Ledger> Model for Run<'a, F, L> {
    ghost use Rattle.trace_tool.specs.RunData.{IsRunning, RunData};

    ghost Value = { RunData F };

    ghost view = { λ r. record {
      setup = r.setup;
      pick = r.sim.pick;
      state = record { values = r.sim.values; step = r.sim.step };
      text = r.text.items;
    } };

    ghost invariant = { λ r. IsRunning r.setup r.sim };
}

impl<'a, F: Fn(u64, u64) -> u64, L: Ledger> Run<'a, F, L> {
    /// The power state, with an empty text and no step yet.
    pub fn new(
        alloc: Global,
        setup: Setup<'a>,
        chooser: Chooser<F>,
        blank: Blank,
    ) -> Result<Run<'a, F, L>, OutOfMemory>
        requires roles { AreRoles (ports_of setup.circuit) setup.roles }
        requires name { blank.name ≡ L.name }
        requires parts { blank.parts ≡ L.parts }
        requires some { 0 < L.parts }
        ensures power { IfOk result (λ run. run ≡ power_run chooser.pick setup.entry) }
        ensures few { IfOk result (λ run. length run.state.values ≤ 2 ^ 26) }
    {
        let sim = Sim::with_roles(alloc, &setup.circuit, setup.roles, chooser)?;
        Ok(Run {
            setup,
            sim,
            text: Vec::new(alloc),
            steps: Steps::new(blank),
        })
    }

    /// What the ports are for.
    pub fn roles(&self) -> Roles
        ensures roles { result ≡ self.now.setup.roles }
        ensures some { 1 ≤ result.clocks }
        ensures few { result.clocks ≤ 4 }
    {
        self.setup.roles()
    }

    /// How the clocks fall.
    pub fn clocking(&self) -> Clocking
        ensures { result ≡ self.now.setup.clocking }
    {
        self.setup.clocking()
    }

    /// Gives the ports from one on the values of these bits, one each, with no event between them.
    fn set(&mut self, port: u32, bits: &[bool])
        requires no_supply { 2 ≤ port }
        requires sources { port + length bits.now ≤ source_count self.old.setup.roles }
        ensures { self.new ≡ with_moved self.old (set_bits port bits.now) }
    {
        set_ports(&mut self.sim, port, bits, &mut self.steps);
    }

    /// One event, with its line where it is told; `false` comes at rest.
    fn step(&mut self) -> Result<bool, OutOfMemory>
        requires { Chooses (F.pre self.old.pick) (F.post self.old.pick) }
        ensures { IfOk result (λ some. StepsOnce F.post self.old some self.new) }
    {
        match self.sim.step_counted(&mut self.steps) {
            Some(event) => {
                append_event(&mut self.text, &self.setup, event)?;
                Ok(true)
            }
            None => Ok(false),
        }
    }

    /// The most events of one settling.
    fn most_events(&self) -> u64
        ensures most { result ≡ most_of (links_of self.now.setup.circuit self.now.setup.roles) }
        ensures few { result ≤ 2 ^ 53 }
    {
        self.sim.most_events()
    }

    /// Whether there is rest. The run is left as it was.
    fn at_rest(&mut self) -> bool
        ensures rest { IsTrue result ↔ IsResting (links_of self.old.setup.circuit self.old.setup.roles) self.old.state.values }
        ensures same { self.new ≡ self.old }
    {
        self.sim.at_rest()
    }

    /// The values of the outputs.
    pub fn outputs(&self, alloc: Global) -> Result<Vec<Tri>, OutOfMemory>
        ensures { IfOk result (λ values. values.items ≡ outputs_of self.now.setup.roles self.now.state.values) }
    {
        let roles = self.setup.roles();
        read_ports(alloc, &self.sim, roles.first_output(), roles.outs)
    }

    /// The number of the outputs.
    pub fn output_count(&self) -> usize
        ensures count { result ≡ self.now.setup.roles.outs }
        ensures values { length (outputs_of self.now.setup.roles self.now.state.values) ≡ self.now.setup.roles.outs }
    {
        self.setup.roles().outs as usize
    }

    /// The value of the output of this index.
    pub fn output(&self, index: usize) -> Tri
        requires { index < self.now.setup.roles.outs }
        ensures { slice_get (outputs_of self.now.setup.roles self.now.state.values) index ≡ Some result }
    {
        let roles = self.setup.roles();
        self.sim.value(roles.first_output() + index as u32)
    }

    /// The name of the net of the output of this index.
    pub fn output_name(&self, index: usize) -> Result<NetName, OutOfMemory>
        requires { index < self.now.setup.roles.outs }
        ensures { IfOk result (λ name.
            slice_get (drop (first_output self.now.setup.roles) (ports_of self.now.setup.circuit)) index ≡ Some name) }
    {
        let roles = self.setup.roles();
        let net = roles.first_output() as usize + index;
        copied(self.setup.net_name(net))
    }

    /// The number of events so far, modulo 2^64.
    pub fn steps(&self) -> u64
        ensures { result ≡ self.now.state.step }
    {
        self.sim.steps()
    }

    /// Settles, with the lines of the events that are told. It answers their number.
    pub fn settle(&mut self) -> Result<u64, Halt>
        requires { Chooses (F.pre self.old.pick) (F.post self.old.pick) }
        ensures { Settles F.post self.old result self.new }
    {
        let most = self.most_events();
        let mut count = 0u64;
        'events: while count < most {
            if self.step()? {
                count += 1;
            } else {
                return Ok(count);
            }
        }
        if self.at_rest() {
            Ok(count)
        } else {
            Err(Halt::Unsettled(count))
        }
    }

    /// A move, in which the ports from one on take the values of these bits, and its settling.
    pub fn drive(&mut self, port: u32, bits: &[bool]) -> Result<u64, Halt>
        requires chooses { Chooses (F.pre self.old.pick) (F.post self.old.pick) }
        requires no_supply { 2 ≤ port }
        requires sources { port + length bits.now ≤ source_count self.old.setup.roles }
        ensures { Runs F.post (set_bits port bits.now ∷ []) self.old result self.new }
    {
        self.set(port, bits);
        self.settle()
    }

    /// Appends the line of power.
    pub fn print_power(&mut self, events: u64) -> Result<(), OutOfMemory>
        ensures { OnOk result (self.new ≡ with_line self.old (power_line events)) }
    {
        append_power(&mut self.text, events)
    }

    /// Appends the line of a cycle.
    pub fn print_cycle(&mut self, row: &CycleRow) -> Result<(), OutOfMemory>
        ensures { OnOk result (self.new ≡ with_line self.old (cycle_line row.now)) }
    {
        write_cycle(&mut self.text, row)
    }

    /// Appends the line of the settling that halted the run in a cycle. It answers that the run
    /// isn't settled.
    pub fn print_halt(&mut self, cycle: u64, halt: Halt) -> Result<bool, OutOfMemory>
        ensures settled { IfOk result (λ settled. settled ≡ false) }
        ensures halted { IfOk result (λ settled. IsHalted cycle halt self.old self.new) }
    {
        match halt {
            Halt::Unsettled(events) => {
                append_unsettled(&mut self.text, cycle, events)?;
                Ok(false)
            }
            Halt::Memory => Err(OutOfMemory),
        }
    }

    /// The trace.
    pub fn trace(self, settled: bool) -> Trace
        ensures { result ≡ record { text = self.entry.text; settled = settled } }
    {
        Trace {
            text: self.text,
            settled,
        }
    }
}

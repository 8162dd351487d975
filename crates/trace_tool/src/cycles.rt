//! The run of a circuit over its cycles.
ghost use Rattle.std.specs.Prelude.{ℕ, ◌≡◌, ◌<◌, All, IfOk, length};
ghost use Rattle.deck.specs.Roles.{AreRoles, ports_of};
ghost use Rattle.event_sim.specs.Choices.{Chooses};
ghost use Rattle.event_sim.specs.Orders.{By, Follows};
ghost use Rattle.trace_tool.specs.RunData.{EndsCycle, HasCycles, RunsCycle, RunsPower};
ghost use Rattle.trace_tool.specs.Traces.{IsRun};

use crate::Trace;
use crate::halt::Halt;
use crate::run::Run;
use crate::setup::Setup;
use dom_base::OutOfMemory;
use event_sim::Chooser;
use std::alloc::Global;
use std::sync::ledger::{Blank, Ledger};
use stim_text::{CycleRow, Stimulus};

/// The trace of power and of these cycles.
pub fn traced<F: Fn(u64, u64) -> u64, L: Ledger>(
    alloc: Global,
    setup: Setup<'_>,
    cycles: &Stimulus,
    chooser: Chooser<F>,
    blank: Blank,
) -> Result<Trace, OutOfMemory>
    requires chooses { Chooses (F.pre chooser.pick) (F.post chooser.pick) }
    requires roles { AreRoles (ports_of setup.circuit) setup.roles }
    requires widths { All (λ pins. length pins ≡ setup.roles.pins) cycles.now }
    requires name { blank.name ≡ L.name }
    requires parts { blank.parts ≡ L.parts }
    requires some { 0 < L.parts }
    ensures { IfOk result (λ trace. (order : ℕ → ℕ → ℕ) → Follows order (F.post chooser.pick)
        → IsRun (By order) setup.entry cycles.now trace) }
{
    let mut run = Run::<F, L>::new(alloc, setup, chooser, blank)?;
    if run.power()? {
        let settled = run.cycles(alloc, cycles)?;
        Ok(run.trace(settled))
    } else {
        Ok(run.trace(false))
    }
}

impl<'a, F: Fn(u64, u64) -> u64, L: Ledger> Run<'a, F, L> {
    /// Power, with its lines. It answers whether it settled.
    fn power(&mut self) -> Result<bool, OutOfMemory>
        requires { Chooses (F.pre self.old.pick) (F.post self.old.pick) }
        ensures { IfOk result (λ settled. RunsPower F.post self.old settled self.new) }
    {
        match self.power_up() {
            Ok(events) => {
                self.print_power(events)?;
                Ok(true)
            }
            Err(halt) => self.print_halt(0, halt),
        }
    }

    /// The cycles in turn, up to one that ends unsettled. It answers whether there is none.
    fn cycles(&mut self, alloc: Global, cycles: &Stimulus) -> Result<bool, OutOfMemory>
        requires chooses { Chooses (F.pre self.old.pick) (F.post self.old.pick) }
        requires widths { All (λ pins. length pins ≡ self.old.setup.roles.pins) cycles.now }
        ensures { IfOk result (λ settled. HasCycles F.post self.old cycles.now settled self.new) }
    {
        let mut number = 0;
        'cycles: while number < cycles.len() {
            let pins = cycles.cycle(number);
            if self.cycle(alloc, number as u64, pins)? {
                number += 1;
            } else {
                return Ok(false);
            }
        }
        Ok(true)
    }

    /// A cycle with these pins, with its lines. It answers whether it settled.
    fn cycle(&mut self, alloc: Global, number: u64, pins: &[bool]) -> Result<bool, OutOfMemory>
        requires chooses { Chooses (F.pre self.old.pick) (F.post self.old.pick) }
        requires width { length pins.now ≡ self.old.setup.roles.pins }
        ensures { IfOk result (λ settled. RunsCycle F.post number pins.now self.old settled self.new) }
    {
        match self.settled_cycle(alloc, number, pins) {
            Ok(()) => Ok(true),
            Err(halt) => self.print_halt(number, halt),
        }
    }

    /// A cycle with these pins, up to a settling that ends without rest, and its line where there is
    /// none.
    fn settled_cycle(&mut self, alloc: Global, number: u64, pins: &[bool]) -> Result<(), Halt>
        requires chooses { Chooses (F.pre self.old.pick) (F.post self.old.pick) }
        requires width { length pins.now ≡ self.old.setup.roles.pins }
        ensures { EndsCycle F.post number pins.now self.old result self.new }
    {
        let evaluated = self.evaluate(pins)?;
        let outs = self.outputs(alloc)?;
        let latched = self.latch()?;
        let row = CycleRow {
            cycle: number,
            pins: pins.to_vec(alloc)?,
            outs,
            events: Some(evaluated + latched),
        };
        self.print_cycle(&row)?;
        Ok(())
    }
}

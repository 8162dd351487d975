//! The course of a run: the places of the environment in order, and what is read there.
use crate::breach::Breach;
use crate::honest::Place;
use crate::run::NetworkRun;
use crate::walk::{Walk, bit};
use comparison::Trouble;
use dom_base::Tri;
use plain_networks::PlainCycle;
use std::alloc::AllocError;

/// A source takes a value, and the next one the opposite.
fn pair(net: usize, value: Tri) -> [(usize, Tri); 2] {
    [(net, value), (net.saturating_add(1), value.not())]
}

impl<'a> Walk<'a> {
    /// Gives sources values, and settles with all clocks as they are.
    fn change(&mut self, changes: &[(usize, Tri)]) -> Result<(), AllocError> {
        for (net, value) in changes {
            self.state.set(*net, *value);
        }
        self.check()?;
        self.settle()
    }

    /// The same at a place of the environment, behind the move that opens it.
    fn open(&mut self, place: Place, changes: &[(usize, Tri)]) -> Result<(), AllocError> {
        if self.breach.is_some() {
            return Ok(());
        }
        self.moment.place = place;
        self.change(changes)
    }

    /// Whether these nets have these bits.
    fn have(&self, nets: &[usize], bits: &[bool]) -> bool {
        for (net, high) in nets.iter().zip(bits.iter()) {
            if self.value(*net) != bit(*high) {
                return false;
            }
        }
        nets.len() == bits.len()
    }

    /// Power up to the rest behind the release of the resets.
    fn power(&mut self, start: &[bool]) -> Result<(), AllocError> {
        let reset = self.kinds.first_latch_port().saturating_add(4);
        self.change(&[])?;
        self.is_reset = true;
        self.moment.old.extend_from_slice(start)?;
        self.moment.new.extend_from_slice(start)?;
        self.check()?;
        self.open(Place::Released, &pair(reset, Tri::Zero))
    }

    /// The pins of a cycle, from the state before it. The values of its cells stand in a list.
    fn take_pins(
        &mut self,
        pins: &[bool],
        wanted: &PlainCycle,
        cells: Option<&Vec<bool>>,
    ) -> Result<(), AllocError> {
        self.moment.cells.clear();
        if let Some(cells) = cells {
            self.moment.cells.extend_from_slice(cells)?;
        }
        let mut changes = Vec::new(self.alloc);
        for (index, high) in pins.iter().enumerate() {
            let net = self.kinds.first_pin().saturating_add(index);
            changes.push((net, bit(*high)))?;
        }
        self.moment.old.clear();
        self.moment.old.extend_from_slice(&self.moment.new)?;
        self.moment.new.clear();
        self.moment.new.extend_from_slice(&wanted.next)?;
        self.open(Place::Pins, &changes)
    }

    /// An evaluation up to where the outputs are read.
    fn evaluate(&mut self, wanted: &PlainCycle) -> Result<(), AllocError> {
        if self.breach.is_some() {
            return Ok(());
        }
        self.moved.clear();
        self.moved.resize(self.state.nets(), false)?;
        self.clocks.begin();
        self.open_periods()?;
        self.moment.place = Place::Evaluation;
        self.state.set(2, Tri::One);
        self.check()?;
        self.settle()?;
        self.clocks.stop();
        let kinds = self.kinds;
        if !self.have(&kinds.outputs, &wanted.outputs) {
            self.broken(Breach::Output);
        }
        for (latch, high) in kinds.latches.iter().zip(wanted.next.iter()) {
            if self.value(latch.data) != bit(*high) {
                self.broken(Breach::NextState);
            }
        }
        Ok(())
    }

    /// From the reading to the end of a cycle.
    fn latch(&mut self) -> Result<(), AllocError> {
        let masters = self.kinds.first_latch_port();
        let slaves = masters.saturating_add(2);
        self.moment.kept.clear();
        let kinds = self.kinds;
        for latch in kinds.latches.iter() {
            let held = self.value(latch.master);
            self.moment.kept.push(held)?;
        }
        self.open(Place::Capture, &pair(masters, Tri::One))?;
        self.moment.is_first = false;
        self.open(Place::Captured, &pair(masters, Tri::Zero))?;
        self.clocks.end();
        self.periods.clear();
        let mut falls = Vec::new(self.alloc);
        for clock in 0..self.kinds.clocks {
            falls.push((clock.saturating_add(2), Tri::Zero))?;
        }
        self.open(Place::Precharge, &falls)?;
        self.open(Place::Launch, &pair(slaves, Tri::One))?;
        self.open(Place::Launched, &pair(slaves, Tri::Zero))
    }

    /// The whole run beside that of a network, up to its first breach.
    pub fn run(&mut self, run: &NetworkRun) -> Result<Option<Breach>, Trouble> {
        self.power(&run.start)?;
        for (pins, cycle) in run.stream.iter().zip(run.cycles.iter()) {
            let cells = run.cells.get(self.cycle);
            self.cycle = self.cycle.saturating_add(1);
            self.take_pins(pins, cycle, cells)?;
            self.evaluate(cycle)?;
            self.latch()?;
        }
        Ok(self.breach)
    }
}

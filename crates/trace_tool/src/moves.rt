//! The moves of power and of a cycle.
ghost use Rattle.std.specs.Prelude.{◌≡◌, ◌+◌, ◌<◌, ◌≤◌, ◌^◌, [], ◌∷◌, IfOk, length};
ghost use Rattle.event_sim.specs.Choices.{Chooses};
ghost use Rattle.deck.specs.PortLayout.{source_count};
ghost use Rattle.trace_tool.specs.Moves.{close_pair, evaluation_by, latching_moves, open_pair, power_moves};
ghost use Rattle.trace_tool.specs.RunData.{Runs, clock_moves, raised};

use crate::Clocking;
use crate::halt::Halt;
use crate::run::Run;
use std::sync::ledger::Ledger;

/// The bits of a pair that is open, and of one that is closed.
const OPEN: [bool; 2] = [true, false];

const CLOSED: [bool; 2] = [false, true];

/// The bits of clocks that have fallen.
const FALLEN: [bool; 4] = [false, false, false, false];

impl<'a, F: Fn(u64, u64) -> u64, L: Ledger> Run<'a, F, L> {
    /// Power: settles, then the reset ends.
    pub fn power_up(&mut self) -> Result<u64, Halt>
        requires { Chooses (F.pre self.old.pick) (F.post self.old.pick) }
        ensures { Runs F.post (power_moves self.old.setup.roles) self.old result self.new }
    {
        let held = self.settle()?;
        let released = self.drive(self.roles().reset_pair(), &CLOSED)?;
        Ok(held + released)
    }

    /// A cycle up to its reading: the pins take these bits, then the clocks rise, and where they overlap each
    /// but the last falls.
    pub fn evaluate(&mut self, pins: &[bool]) -> Result<u64, Halt>
        requires chooses { Chooses (F.pre self.old.pick) (F.post self.old.pick) }
        requires width { length pins.now ≡ self.old.setup.roles.pins }
        ensures runs { Runs F.post (evaluation_by self.old.setup.clocking self.old.setup.roles pins.now) self.old result self.new }
        ensures few { IfOk result (λ count. count ≤ 2 ^ 56) }
    {
        let set = self.drive(self.roles().first_pin(), pins)?;
        let raised = self.raise_clocks()?;
        Ok(set + raised)
    }

    /// The clocks rise one after the other; where they overlap, each but the last falls once the next has
    /// risen.
    fn raise_clocks(&mut self) -> Result<u64, Halt>
        requires { Chooses (F.pre self.old.pick) (F.post self.old.pick) }
        ensures { Runs F.post (raised self.old.setup.clocking 0 self.old.setup.roles.clocks) self.old result self.new }
    {
        let mut events = 0u64;
        let roles = self.roles();
        for clock in 0..roles.clocks {
            events += self.raise_clock(clock)?;
        }
        Ok(events)
    }

    /// A clock rises; where clocks overlap, then the one before it falls, where there is one.
    fn raise_clock(&mut self, clock: u8) -> Result<u64, Halt>
        requires chooses { Chooses (F.pre self.old.pick) (F.post self.old.pick) }
        requires there { clock < self.old.setup.roles.clocks }
        ensures { Runs F.post (clock_moves self.old.setup.clocking clock) self.old result self.new }
    {
        let port = self.roles().first_clock() + u32::from(clock);
        match self.clocking() {
            Clocking::Overlapping if clock > 0 => {
                let risen = self.drive(port, &[true])?;
                let fallen = self.drive(port - 1, &[false])?;
                Ok(risen + fallen)
            }
            Clocking::Overlapping | Clocking::Together => self.drive(port, &[true]),
        }
    }

    /// A cycle from its reading on: the masters are opened and closed, all clocks fall together, the
    /// slaves are opened and closed.
    pub fn latch(&mut self) -> Result<u64, Halt>
        requires { Chooses (F.pre self.old.pick) (F.post self.old.pick) }
        ensures { Runs F.post (latching_moves self.old.setup.roles) self.old result self.new }
    {
        let roles = self.roles();
        let master = self.open_and_close(roles.master_pair())?;
        let fallen = self.drive(roles.first_clock(), &FALLEN[..roles.clocks as usize])?;
        let slave = self.open_and_close(roles.slave_pair())?;
        Ok(master + fallen + slave)
    }

    /// A pair is opened and closed.
    fn open_and_close(&mut self, pair: u32) -> Result<u64, Halt>
        requires chooses { Chooses (F.pre self.old.pick) (F.post self.old.pick) }
        requires no_supply { 2 ≤ pair }
        requires sources { pair + 2 ≤ source_count self.old.setup.roles }
        ensures { Runs F.post (open_pair pair ∷ close_pair pair ∷ []) self.old result self.new }
    {
        let opened = self.drive(pair, &OPEN)?;
        let closed = self.drive(pair, &CLOSED)?;
        Ok(opened + closed)
    }
}

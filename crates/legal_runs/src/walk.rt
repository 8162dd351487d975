//! Legal runs of a deck: random events, clocks that move between them, and what is checked at each state.
use crate::breach::Breach;
use crate::clocks::{Clocking, Clocks};
use crate::honest::{Moment, Place, is_honest, is_kept};
use crate::joins::Valued;
use crate::nets::{NetKinds, Style, clock_at, is_marked};
use crate::parts::CellNets;
use crate::rests::Rests;
use crate::state::State;
use dom_base::Tri;
use plain_texts::{Draws, PlainDeck};
use std::alloc::{AllocError, Global};

/// The most moves of an evaluation: with at most four clocks there are at most three that rise and three that
/// fall, and one more that ends it.
const MOST_MOVES: usize = 8;

/// A run of a deck: the values of its nets, which nets have moved in the evaluation, and of which clocks the
/// period is open.
#[derive(Drop)]
pub struct Walk<'a> {
    pub alloc: Global,
    deck: &'a PlainDeck,
    pub kinds: &'a NetKinds,
    pub state: State,
    draws: Draws,
    pub clocks: Clocks,
    pub moved: Vec<bool>,
    pub periods: Vec<bool>,
    pub is_reset: bool,
    pub moment: Moment,
    pub cycle: usize,
    pub breach: Option<Breach>,
    pub events: u64,
    pub rests: Rests,
}

/// The value of a bit.
pub fn bit(high: bool) -> Tri {
    if high { Tri::One } else { Tri::Zero }
}

impl<'a> Walk<'a> {
    /// The power state.
    pub fn new(
        alloc: Global,
        deck: &'a PlainDeck,
        kinds: &'a NetKinds,
        state: State,
        clocks: Clocks,
        draws: Draws,
    ) -> Walk<'a> {
        let mut walk = Walk {
            alloc,
            deck,
            kinds,
            state,
            draws,
            clocks,
            moved: Vec::new(alloc),
            periods: Vec::new(alloc),
            is_reset: false,
            moment: Moment {
                place: Place::Released,
                is_first: true,
                old: Vec::new(alloc),
                new: Vec::new(alloc),
                cells: Vec::new(alloc),
                kept: Vec::new(alloc),
            },
            cycle: 0,
            breach: None,
            events: 0,
            rests: Rests::new(alloc),
        };
        for net in 0..kinds.sources {
            walk.state.set(net, Tri::Zero);
        }
        walk.state.set(0, Tri::One);
        let first = kinds.first_latch_port();
        for port in [1, 3, 4] {
            walk.state.set(first.saturating_add(port), Tri::One);
        }
        walk
    }

    /// The value of a net.
    pub fn value(&self, net: usize) -> Tri {
        self.state
            .values()
            .get(net)
            .copied()
            .unwrap_or(Tri::Unknown)
    }

    /// Keeps the first breach.
    pub fn broken(&mut self, breach: Breach) {
        if self.breach.is_none() {
            self.breach = Some(breach);
        }
    }

    /// What holds at each state from the rest behind power on.
    pub fn check(&mut self) -> Result<(), AllocError> {
        if !self.is_reset {
            return Ok(());
        }
        let valued = Valued {
            deck: self.deck,
            sources: self.kinds.sources,
            values: self.state.values(),
        };
        let short = valued.has_short(self.alloc)?;
        let (count, overpowered) = valued.contests(self.alloc)?;
        let may_contend = count == 0 || self.kinds.style == Style::Keeper;
        let honest = is_honest(self.alloc, &self.moment, &self.clocks, self.kinds, valued)?;
        if !honest {
            self.broken(Breach::Dishonest);
        }
        if short {
            self.broken(Breach::Short);
        }
        if !overpowered || !may_contend {
            self.broken(Breach::Contest);
        }
        let kinds = self.kinds;
        for net in kinds.known.iter() {
            if self.value(*net) == Tri::Unknown {
                self.broken(Breach::Unknown);
            }
        }
        self.check_kept();
        self.check_captured();
        Ok(())
    }

    /// A cell whose inputs have fallen while its clock is up is at its targets.
    fn check_kept(&mut self) {
        let kinds = self.kinds;
        for cell in kinds.cells.iter() {
            if is_kept(&self.clocks, cell) {
                self.check_cell(cell);
            }
        }
    }

    /// The dynamic nets and the output of a cell are at their targets.
    fn check_cell(&mut self, cell: &CellNets) {
        for net in cell.dynamic.iter() {
            self.check_target(*net);
        }
        self.check_target(cell.output);
    }

    /// While masters are open, or have just been shut, the cells and sinks are at their targets.
    fn check_captured(&mut self) {
        if self.moment.place != Place::Capture && self.moment.place != Place::Captured {
            return;
        }
        let kinds = self.kinds;
        for cell in kinds.cells.iter() {
            self.check_cell(cell);
        }
        for latch in kinds.latches.iter() {
            self.check_target(latch.data);
        }
        for net in kinds.outputs.iter() {
            self.check_target(*net);
        }
    }

    fn check_target(&mut self, net: usize) {
        if self.state.pending(net).is_some() {
            self.broken(Breach::Uncaptured);
        }
    }

    /// No keeper contends at a rest.
    fn check_contests(&mut self) -> Result<(), AllocError> {
        let valued = Valued {
            deck: self.deck,
            sources: self.kinds.sources,
            values: self.state.values(),
        };
        let (count, _) = valued.contests(self.alloc)?;
        if count > 0 {
            self.broken(Breach::Contest);
        }
        Ok(())
    }

    /// What holds at the rest that ends a place; the values of what is watched are kept.
    fn check_rest(&mut self) -> Result<(), AllocError> {
        self.check_contests()?;
        let is_open = match self.moment.place {
            Place::Evaluation | Place::Capture | Place::Captured => {
                self.clocks.clocking != Clocking::Together
            }
            _ => false,
        };
        if is_open {
            let up = self.clocks.up_mask();
            return self.keep_open_rest(up);
        }
        let kinds = self.kinds;
        for net in kinds.watched.iter() {
            let value = self.value(*net);
            self.rests.common.push(value)?;
        }
        Ok(())
    }

    /// Keeps the values at a rest with some clocks up.
    fn keep_open_rest(&mut self, up: usize) -> Result<(), AllocError> {
        let mut values = Vec::new(self.alloc);
        let kinds = self.kinds;
        for net in kinds.watched.iter() {
            values.push(self.value(*net))?;
        }
        let (cycle, place) = (self.cycle, self.moment.place);
        self.rests.add_open(cycle, place, up, values)
    }

    /// A pending net with its target, searched from a drawn net on, upwards or downwards.
    fn find_pending(&mut self) -> Option<(usize, Tri)> {
        let sources = self.state.sources();
        let count = self.state.nets().saturating_sub(sources);
        let start = match self.draws.below(6) {
            0 => 0,
            _ => self.draws.below(count),
        };
        let downwards = self.draws.below(2) == 0;
        for step in 0..count {
            let place = start.saturating_add(step).checked_rem(count).unwrap_or(0);
            let offset = if downwards {
                count.saturating_sub(place).saturating_sub(1)
            } else {
                place
            };
            let net = sources.saturating_add(offset);
            if let Some(target) = self.state.pending(net) {
                return Some((net, target));
            }
        }
        None
    }

    /// Whether a net has a clock whose period is open.
    fn is_in_period(&self, clocks: &[Option<usize>], net: usize) -> bool {
        match clock_at(clocks, net) {
            Some(clock) => is_marked(&self.periods, clock),
            None => false,
        }
    }

    /// An event of a net within its period is its first there, and has the edge that it has to have.
    fn check_edge(&mut self, net: usize, is_right: bool) {
        if !is_right {
            self.broken(Breach::WrongEdge);
        }
        if is_marked(&self.moved, net) {
            self.broken(Breach::Twice);
        }
        if let Some(slot) = self.moved.get_mut(net) {
            *slot = true;
        }
    }

    /// A net takes its target.
    fn take(&mut self, net: usize, after: Tri) -> Result<(), AllocError> {
        let before = self.value(net);
        self.state.set(net, after);
        self.events = self.events.saturating_add(1);
        let kinds = self.kinds;
        let dynamic = self.is_in_period(&kinds.dynamic, net);
        let domino = self.is_in_period(&kinds.domino, net);
        if dynamic || domino {
            let falls = (before, after) == (Tri::One, Tri::Zero);
            let rises = (before, after) == (Tri::Zero, Tri::One);
            self.check_edge(net, (!dynamic || falls) && (!domino || rises));
        }
        self.check()
    }

    /// The most events between two moves.
    fn most_events(&self) -> usize {
        let more = self
            .state
            .nets()
            .saturating_sub(self.state.sources())
            .saturating_add(1);
        more.saturating_mul(more)
    }

    /// Events until rest. Within an evaluation clocks move between them.
    pub fn settle(&mut self) -> Result<(), AllocError> {
        let mut count = 0usize;
        let most = self.most_events();
        let rounds = most.saturating_mul(MOST_MOVES).saturating_add(MOST_MOVES);
        for _ in 0..rounds {
            let moved = self.clocks.early_move(&mut self.draws);
            let found = if moved.is_some() {
                None
            } else {
                self.find_pending()
            };
            if let Some((net, target)) = found {
                if count == most {
                    break;
                }
                count = count.saturating_add(1);
                self.take(net, target)?;
            } else if moved.is_some() {
                count = 0;
                self.move_clock(moved)?;
            } else {
                let moved = self.move_at_rest()?;
                if moved.is_none() {
                    return self.check_rest();
                }
                count = 0;
                self.move_clock(moved)?;
            }
            if self.breach.is_some() {
                return Ok(());
            }
        }
        self.broken(Breach::Unsettled);
        Ok(())
    }

    /// What holds at a rest within an evaluation, and a move of a clock there.
    fn move_at_rest(&mut self) -> Result<Option<(usize, Tri)>, AllocError> {
        let before = self.clocks.up_mask();
        let moved = self.clocks.move_at_rest(&mut self.draws);
        if moved.is_some() && self.clocks.clocking != Clocking::Together {
            self.check_contests()?;
            self.keep_open_rest(before)?;
        }
        Ok(moved)
    }

    /// A clock takes a value. The period of its cells begins or ends.
    fn move_clock(&mut self, moved: Option<(usize, Tri)>) -> Result<(), AllocError> {
        if let Some((net, value)) = moved {
            self.state.set(net, value);
            if self.clocks.clocking != Clocking::Together {
                self.set_period(net, value == Tri::One);
            }
        }
        self.check()
    }

    /// The periods of the first clock begin, where clocks fall together those of all.
    pub fn open_periods(&mut self) -> Result<(), AllocError> {
        self.periods.clear();
        for net in 0..self.kinds.clocks.saturating_add(2) {
            self.periods
                .push(net == 2 || self.clocks.clocking == Clocking::Together)?;
        }
        Ok(())
    }

    /// The evaluation period of the cells of a clock begins or ends.
    fn set_period(&mut self, clock: usize, is_open: bool) {
        if let Some(slot) = self.periods.get_mut(clock) {
            *slot = is_open;
        }
    }
}

//! How clocks rise and fall within an evaluation.
use dom_base::Tri;
use plain_texts::Draws;
use std::alloc::{AllocError, Global};

/// The moves of clocks of an evaluation behind its first: all rise in order at any moment, and all fall
/// together behind it; or besides each clock but the last may fall once at a rest at which the next has
/// risen. Of the last two, which are not legal, the one lets a clock fall before the next has risen, and the
/// other lets it fall at any moment.
#[derive(Clone, Copy, PartialEq, Eq)]
pub enum Clocking {
    Together,
    Overlapping,
    BeforeNext,
    WithoutRest,
}

/// Where the clocks of a period are: how many have risen, and which have fallen; and whether they may move.
#[derive(Drop)]
pub struct Clocks {
    pub clocking: Clocking,
    count: usize,
    risen: usize,
    fallen: Vec<bool>,
    are_moving: bool,
}

impl Clocks {
    /// So many clocks, none of which has risen.
    pub fn new(alloc: Global, clocking: Clocking, count: usize) -> Result<Clocks, AllocError> {
        let mut fallen = Vec::new(alloc);
        fallen.resize(count, false)?;
        Ok(Clocks {
            clocking,
            count,
            risen: 0,
            fallen,
            are_moving: false,
        })
    }

    /// The first clock has risen, and the others may move.
    pub fn begin(&mut self) {
        self.risen = 1;
        self.are_moving = true;
    }

    /// No clock moves any more in this evaluation.
    pub fn stop(&mut self) {
        self.are_moving = false;
    }

    /// All clocks are down.
    pub fn end(&mut self) {
        for fell in self.fallen.iter_mut() {
            *fell = false;
        }
        self.risen = 0;
    }

    /// Whether the clock of this net has fallen since the evaluation began.
    pub fn has_fallen(&self, net: usize) -> bool {
        let clock = net.saturating_sub(2);
        net >= 2 && self.fallen.get(clock).copied().unwrap_or(false)
    }

    /// Whether the clock of this net has risen since the evaluation began, and not fallen.
    pub fn is_up(&self, net: usize) -> bool {
        net >= 2 && net.saturating_sub(2) < self.risen && !self.has_fallen(net)
    }

    /// Which clocks are up, as a number.
    pub fn up_mask(&self) -> usize {
        let mut mask = 0usize;
        for clock in 0..self.count {
            mask = mask.saturating_mul(2);
            if self.is_up(clock.saturating_add(2)) {
                mask = mask.saturating_add(1);
            }
        }
        mask
    }

    /// Whether a clock that is up may fall now.
    fn may_fall(&self, clock: usize) -> bool {
        let next = clock.saturating_add(1);
        let has_next_risen = next < self.risen;
        let turn = match self.clocking {
            Clocking::Together => false,
            Clocking::Overlapping | Clocking::WithoutRest => has_next_risen,
            Clocking::BeforeNext => !has_next_risen && next < self.count,
        };
        turn && self.is_up(clock.saturating_add(2))
    }

    /// The next clock rises.
    fn rise(&mut self) -> Option<(usize, Tri)> {
        if self.risen >= self.count {
            return None;
        }
        let net = self.risen.saturating_add(2);
        self.risen = self.risen.saturating_add(1);
        Some((net, Tri::One))
    }

    /// A clock that may falls, the first behind a drawn one.
    fn fall(&mut self, draws: &mut Draws) -> Option<(usize, Tri)> {
        let start = draws.below(self.count);
        for step in 0..self.count {
            let clock = start
                .saturating_add(step)
                .checked_rem(self.count)
                .unwrap_or(0);
            if self.may_fall(clock) {
                if let Some(fell) = self.fallen.get_mut(clock) {
                    *fell = true;
                }
                return Some((clock.saturating_add(2), Tri::Zero));
            }
        }
        None
    }

    /// Whether some clock may fall now.
    fn can_fall(&self) -> bool {
        (0..self.count).any(|clock| self.may_fall(clock))
    }

    /// A move of a clock at a moment that is drawn, with the net and its value.
    pub fn early_move(&mut self, draws: &mut Draws) -> Option<(usize, Tri)> {
        if !self.are_moving {
            return None;
        }
        let falls = self.clocking == Clocking::WithoutRest && self.can_fall();
        if falls && draws.below(8) == 0 {
            return self.fall(draws);
        }
        if self.risen < self.count && draws.below(8) == 0 {
            return self.rise();
        }
        None
    }

    /// A move of a clock at a rest. There is one as long as some clock hasn't risen.
    pub fn move_at_rest(&mut self, draws: &mut Draws) -> Option<(usize, Tri)> {
        if !self.are_moving {
            return None;
        }
        if self.can_fall() && draws.below(2) == 0 {
            return self.fall(draws);
        }
        self.rise()
    }
}

//! The search for signs: a sink's sign is changed where fewer pairs are needed then.
ghost use Rattle.std.specs.Prelude.{IfOk, ℕ, Bool, ◌≡◌, ◌<◌, ◌≤◌, true, Some, slice_get, get_or, length, replicate};
ghost use Rattle.gate_decompose.specs.GatesData.{GatesData};
ghost use Rattle.gate_decompose.specs.GatesOrder.{AreOrderedGates};
ghost use Rattle.phase_assign.specs.LookedPairs.{looked_pairs};
ghost use Rattle.phase_assign.specs.Search.{IsSearch};
ghost use Rattle.phase_assign.specs.Signs.{AreChosen, IsPassOf, IsTurnOf};
ghost use Rattle.phase_assign.specs.declared.trials.Trial.{Trial as TrialData};
ghost use Rattle.phase_assign.specs.Trials.{AreTrials, HasNoTrials};
ghost use Rattle.phase_assign.specs.Uses.{AreBelow, asked_by_sinks, times};
ghost use Rattle.phase_assign.specs.Wiring.{AreWired, IsWiring};

use crate::needed::{NO_USES, Needed};
use crate::pairs::push_asked;
use crate::trials::Trial;
use crate::wiring::{Wiring, wiring_of};
use dom_base::OutOfMemory;
use dual_rail::SignedNode;
use gate_decompose::Gates;
use std::alloc::Global;

/// One sign for each sink (true is plus), and the pairs that are needed under them; for each node the
/// number of needed pairs at the last change of its uses, and for each sink its last trial, where
/// that lowered nothing.
#[derive(Drop)]
struct Search {
    signs: Vec<bool>,
    needed: Needed,
    changed: Vec<u32>,
    trials: Vec<Option<Trial>>,
}

/// The pairs that sinks ask for where all signs are plus.
fn asked_at_first(
    alloc: Global,
    ends: &[Option<SignedNode>],
) -> Result<Vec<SignedNode>, OutOfMemory>
    ensures { IfOk result (λ v. v.items ≡ asked_by_sinks ends.now (replicate (length ends.now) true)) }
{
    let mut work = Vec::with_capacity(alloc, ends.len())?;
    for end in ends {
        push_asked(&mut work, *end, true)?;
    }
    Ok(work)
}

/// No trials.
fn no_trials(alloc: Global, sinks: usize) -> Result<Vec<Option<Trial>>, OutOfMemory>
    ensures { IfOk result (λ v. HasNoTrials sinks v.items) }
{
    let mut trials = Vec::with_capacity(alloc, sinks)?;
    for _ in 0..sinks {
        trials.push(None)?;
    }
    Ok(trials)
}

impl Search {
    /// All signs are plus.
    fn start(alloc: Global, wiring: &Wiring) -> Result<Search, OutOfMemory>
        requires { IsWiring wiring.now.arms.items wiring.now.ends.items }
        ensures search { IfOk result (λ s. IsSearch wiring.now.arms.items wiring.now.ends.items s.signs.items s.needed.uses.items
            s.needed.size) }
        ensures trials { IfOk result (λ s. AreTrials wiring.now.arms.items wiring.now.ends.items s.signs.items s.needed.uses.items
            s.needed.size s.changed.items s.trials.items) }
        ensures plus { IfOk result (λ s. s.signs.items ≡ replicate (length wiring.now.ends.items) true) }
    {
        let signs = vec![in alloc; true; wiring.ends.len()]?;
        let uses = vec![in alloc; NO_USES; wiring.arms.len()]?;
        let mut needed = Needed { uses, size: 0 };
        let mut work = asked_at_first(alloc, wiring.ends.as_slice())?;
        needed.supply(wiring.arms.as_slice(), &mut work, u64::MAX)?;
        let changed = vec![in alloc; needed.size as u32; wiring.arms.len()]?;
        let trials = no_trials(alloc, wiring.ends.len())?;
        Ok(Search {
            signs,
            needed,
            changed,
            trials,
        })
    }

    /// Whether a sink's last trial still holds.
    fn is_settled(&self, sink: usize) -> bool
        requires sink { sink < length self.now.trials.items }
        requires below { (trial : TrialData) → slice_get self.now.trials.items sink ≡ Some (Some trial)
            → AreBelow (length self.now.changed.items) (looked_pairs trial.looked) }
        ensures { result ≡ true → (trial : TrialData) × (slice_get self.now.trials.items sink ≡ Some (Some trial))
            × ((n : ℕ) (s : Bool) → 0 < times n s (looked_pairs trial.looked) → trial.size ≤ get_or self.now.changed.items n 0) }
    {
        match &self.trials[sink] {
            Some(trial) => trial.looked.is_current(self.changed.as_slice(), trial.size),
            None => false,
        }
    }

    /// Changes the sign of a sink where that lowers the number of needed pairs.
    fn turn(&mut self, alloc: Global, wiring: &Wiring, sink: usize) -> Result<(), OutOfMemory>
        requires wiring { IsWiring wiring.now.arms.items wiring.now.ends.items }
        requires search { IsSearch wiring.now.arms.items wiring.now.ends.items self.old.signs.items self.old.needed.uses.items
            self.old.needed.size }
        requires trials { AreTrials wiring.now.arms.items wiring.now.ends.items self.old.signs.items self.old.needed.uses.items
            self.old.needed.size self.old.changed.items self.old.trials.items }
        requires sink { sink < length wiring.now.ends.items }
        ensures search { IfOk result (λ u. IsSearch wiring.now.arms.items wiring.now.ends.items self.new.signs.items
            self.new.needed.uses.items self.new.needed.size) }
        ensures trials { IfOk result (λ u. AreTrials wiring.now.arms.items wiring.now.ends.items self.new.signs.items
            self.new.needed.uses.items self.new.needed.size self.new.changed.items self.new.trials.items) }
        ensures turn { IfOk result (λ u. (gates : GatesData) → AreOrderedGates gates
            → AreWired gates wiring.now.arms.items wiring.now.ends.items → IsTurnOf gates sink self.old.signs.items self.new.signs.items) }
    {
        if self.is_settled(sink) {
            return Ok(());
        }
        let sign = self.signs[sink];
        let before = self.needed.size;
        let arms = wiring.arms.as_slice();
        let exchange = self.needed.exchange(alloc, arms, wiring.ends[sink], sign)?;
        if exchange.fewer {
            self.signs[sink] = !sign;
            self.trials[sink] = None;
            let size = self.needed.size as u32;
            exchange
                .looked
                .note_change(self.changed.as_mut_slice(), size);
        } else {
            self.trials[sink] = Some(Trial {
                size: before,
                looked: exchange.looked,
            });
        }
        Ok(())
    }

    /// Goes through the sinks in order.
    fn pass(&mut self, alloc: Global, wiring: &Wiring) -> Result<(), OutOfMemory>
        requires wiring { IsWiring wiring.now.arms.items wiring.now.ends.items }
        requires search { IsSearch wiring.now.arms.items wiring.now.ends.items self.old.signs.items self.old.needed.uses.items
            self.old.needed.size }
        requires trials { AreTrials wiring.now.arms.items wiring.now.ends.items self.old.signs.items self.old.needed.uses.items
            self.old.needed.size self.old.changed.items self.old.trials.items }
        ensures search { IfOk result (λ u. IsSearch wiring.now.arms.items wiring.now.ends.items self.new.signs.items
            self.new.needed.uses.items self.new.needed.size) }
        ensures trials { IfOk result (λ u. AreTrials wiring.now.arms.items wiring.now.ends.items self.new.signs.items
            self.new.needed.uses.items self.new.needed.size self.new.changed.items self.new.trials.items) }
        ensures pass { IfOk result (λ u. (gates : GatesData) → AreOrderedGates gates
            → AreWired gates wiring.now.arms.items wiring.now.ends.items → IsPassOf gates self.old.signs.items self.new.signs.items) }
    {
        for sink in 0..wiring.ends.len() {
            self.turn(alloc, wiring, sink)?;
        }
        Ok(())
    }
}

/// The chosen signs of the sinks of gates, true for plus: all are plus at first, the sinks are gone
/// through in order, a sign is changed where that lowers the number of needed pairs, and passes are
/// repeated until one changes nothing. It fails only where it is out of memory.
pub fn assign(alloc: Global, gates: &Gates) -> Result<Vec<bool>, OutOfMemory>
    ensures { IfOk result (λ signs. AreChosen gates.now signs.items) }
{
    let wiring = wiring_of(alloc, gates)?;
    let mut search = Search::start(alloc, &wiring)?;
    'passes: loop {
        let before = search.needed.size;
        search.pass(alloc, &wiring)?;
        if search.needed.size == before {
            // The largest list goes first: the allocator then keeps the pages of the smaller ones for the next step.
            drop(wiring);
            return Ok(search.signs);
        }
    }
}

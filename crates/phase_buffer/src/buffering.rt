//! Plans with chains of buffers.
ghost use Rattle.std.specs.Prelude.{◌≡◌, ◌≤◌, ◌<◌, ◌+◌, ◌*◌, ◌^◌, ◌++◌, All, IfOk, OnOk, length, map};
ghost use Rattle.clock_phase.specs.Plans.{ReadEarlierCells, cell_plan, trees_of};
ghost use Rattle.sp_network.specs.Tree.{EachLeaf, map_tree};
ghost use Rattle.sp_network.specs.TypedTree.{tree_of};
ghost use Rattle.phase_buffer.specs.BufferedPlans.{AreBuffered, HaveClocksUpTo, new_gate};
ghost use Rattle.phase_buffer.specs.Chains.{chain, chain_length, place, taken_at, with_chains};
ghost use Rattle.phase_buffer.specs.Unbuffered.{IsChainable, old_cells, old_numbers};

use crate::unbuffered::Unbuffered;
use dom_base::{OutOfMemory, ToVss};
use sp_network::{GatePlan, Sp};
use std::alloc::Global;

/// Plans with chains of buffers: the new plans, the new number of each old cell, and for each sink the
/// last of the chain of the cell from which it takes.
#[derive(Drop)]
pub struct Buffered {
    pub plans: Vec<GatePlan>,
    pub place: Vec<u32>,
    pub ends: Vec<u32>,
}

/// The plans with chains of buffers. Of so many `leaves`, leaf n gates as `2 * n` and `2 * n + 1`, and the
/// output of cell k as `2 * leaves + k`; `sinks` are the cells from which sinks take. Each cell is followed
/// by a buffer for each clock after its own, up to the one before its last reader's, or up to the last
/// clock, `phases`, where a sink takes from it. So where no cell reads one of a later clock, each reads
/// cells of its own clock and of the one before alone, and sinks take from cells of the last clock. Its
/// time is linear in the leaves of the trees and the sinks. The one error is out of memory.
pub fn buffer(
    alloc: Global,
    plans: &[GatePlan],
    leaves: u32,
    phases: u8,
    sinks: &[u32],
) -> Result<Buffered, OutOfMemory>
    requires few_phases { phases ≤ 4 }
    requires room { 2 * leaves + 4 * length plans.now < 2 ^ 32 }
    requires clocks { HaveClocksUpTo phases plans.now }
    requires earlier { ReadEarlierCells leaves (trees_of plans.now) }
    requires sinks { All (λ cell. cell < length plans.now) sinks.now }
    ensures { IfOk result (λ b. AreBuffered leaves phases plans.now sinks.now b.plans.items b.place.items b.ends.items) }
{
    let cells = Unbuffered {
        plans,
        leaves,
        phases,
        sinks,
    };
    let lengths = cells.chain_lengths(alloc)?;
    let place = cells.places(alloc, lengths.as_slice())?;
    let ends = cells.chain_ends(alloc, lengths.as_slice(), place.as_slice())?;
    let plans = cells.with_chains(alloc, lengths.as_slice(), place.as_slice())?;
    Ok(Buffered { plans, place, ends })
}

impl<'a> Unbuffered<'a> {
    /// The cells at their places, each with its chain. The one error is out of memory.
    fn with_chains(
        &self,
        alloc: Global,
        lengths: &[u8],
        places: &[u32],
    ) -> Result<Vec<GatePlan>, OutOfMemory>
        requires chainable { IsChainable self.now }
        requires lengths { lengths.now ≡ map (chain_length (old_cells self.now)) (old_numbers self.now) }
        requires places { places.now ≡ map (place (old_cells self.now)) (old_numbers self.now) }
        ensures { IfOk result (λ plans. map cell_plan plans.items ≡ with_chains (old_cells self.now) 0 (old_cells self.now).cells) }
    {
        let mut plans = Vec::new(alloc);
        for k in 0..self.plans.len() {
            let plan = &self.plans[k];
            let clock = plan.clock;
            let tree = self.moved(alloc, places, &plan.tree, clock)?;
            plans.push(GatePlan { tree, clock })?;
            self.push_chain(&mut plans, places[k], clock, lengths[k])?;
        }
        Ok(plans)
    }

    /// A tree of a cell of this clock, over the gates that it takes. The one error is out of memory.
    fn moved(
        &self,
        alloc: Global,
        places: &[u32],
        tree: &Sp<ToVss>,
        clock: u8,
    ) -> Result<Sp<ToVss>, OutOfMemory>
        requires chainable { IsChainable self.now }
        requires places { places.now ≡ map (place (old_cells self.now)) (old_numbers self.now) }
        requires there { EachLeaf (λ gate. gate < 2 * self.now.leaves + length self.now.plans.now) (tree_of tree.now) }
        requires from_one { 1 ≤ clock }
        requires few_phases { clock ≤ 4 }
        ensures { IfOk result (λ moved. tree_of moved
            ≡ map_tree (new_gate self.now.leaves (taken_at (old_cells self.now) clock)) (tree_of tree.now)) }
    {
        match tree {
            Sp::Leaf { gate, rail } => Ok(Sp::Leaf {
                gate: self.taken(places, *gate, clock),
                rail: *rail,
            }),
            Sp::Series(left, right) => {
                let left = self.moved(alloc, places, left, clock)?;
                let right = self.moved(alloc, places, right, clock)?;
                Ok(Sp::Series(Box::new(alloc, left)?, Box::new(alloc, right)?))
            }
            Sp::Parallel(left, right) => {
                let left = self.moved(alloc, places, left, clock)?;
                let right = self.moved(alloc, places, right, clock)?;
                Ok(Sp::Parallel(Box::new(alloc, left)?, Box::new(alloc, right)?))
            }
        }
    }

    /// The gate that a reader of this clock takes in the place of a gate: that of the cell itself, or of
    /// its buffer of the clock before.
    fn taken(&self, places: &[u32], gate: u32, clock: u8) -> u32
        requires chainable { IsChainable self.now }
        requires places { places.now ≡ map (place (old_cells self.now)) (old_numbers self.now) }
        requires there { gate < 2 * self.now.leaves + length self.now.plans.now }
        requires from_one { 1 ≤ clock }
        requires few_phases { clock ≤ 4 }
        ensures { result ≡ new_gate self.now.leaves (taken_at (old_cells self.now) clock) gate }
    {
        let rails = 2 * self.leaves;
        if gate < rails {
            return gate;
        }
        let cell = (gate - rails) as usize;
        let buffers = (clock - 1).saturating_sub(self.plans[cell].clock);
        rails + (places[cell] + u32::from(buffers))
    }

    /// Appends so many buffers, each on the next clock and each reading the cell before it, the first
    /// the cell at this place and on this clock.
    fn push_chain(
        &self,
        plans: &mut Vec<GatePlan>,
        at: u32,
        clock: u8,
        count: u8,
    ) -> Result<(), OutOfMemory>
        requires gates { 2 * self.now.leaves + (at + count) ≤ 2 ^ 32 }
        requires clocks { clock + count ≤ 4 }
        ensures { OnOk result (map cell_plan plans.new.items ≡ map cell_plan plans.old.items ++ chain (old_cells self.now) at clock count) }
    {
        for number in 0..count {
            let gate = 2 * self.leaves + at + u32::from(number);
            let tree = Sp::Leaf { gate, rail: ToVss };
            plans.push(GatePlan {
                tree,
                clock: clock + 1 + number,
            })?;
        }
        Ok(())
    }
}

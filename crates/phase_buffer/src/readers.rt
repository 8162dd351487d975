//! The last readers of cells.
ghost use Rattle.std.specs.Prelude.{◌≡◌, ◌<◌, ◌+◌, ◌*◌, ◌^◌, IfOk, length, map, replicate};
ghost use Rattle.clock_phase.specs.Levels.{cells_read};
ghost use Rattle.sp_network.specs.Tree.{EachLeaf};
ghost use Rattle.sp_network.specs.TypedTree.{tree_of};
ghost use Rattle.phase_buffer.specs.Unbuffered.{AreRaised, IsChainable, last_reader, old_numbers};

use crate::unbuffered::Unbuffered;
use dom_base::{OutOfMemory, ToVss};
use sp_network::Sp;
use std::alloc::Global;

impl<'a> Unbuffered<'a> {
    /// The clock of the last reader of each cell, or 0. A sink reads after the last clock. The one
    /// error is out of memory.
    pub(crate) fn last_readers(&self, alloc: Global) -> Result<Vec<u8>, OutOfMemory>
        requires { IsChainable self.now }
        ensures { IfOk result (λ clocks. clocks.items ≡ map (last_reader self.now) (old_numbers self.now)) }
    {
        let mut clocks = vec![in alloc; 0u8; self.plans.len()]?;
        self.find_readers(clocks.as_mut_slice());
        Ok(clocks)
    }

    /// Writes the clock of the last reader of each cell.
    fn find_readers(&self, clocks: &mut [u8])
        requires chainable { IsChainable self.now }
        requires none { clocks.old ≡ replicate (length self.now.plans.now) 0 }
        ensures { clocks.new ≡ map (last_reader self.now) (old_numbers self.now) }
    {
        for plan in self.plans {
            raise(&plan.tree, self.leaves, plan.clock, clocks);
        }
        for sink in self.sinks {
            clocks[*sink as usize] = self.phases + 1;
        }
    }
}

/// Raises what stands for each cell that the tree reads to at least this clock.
fn raise(tree: &Sp<ToVss>, leaves: u32, clock: u8, clocks: &mut [u8])
    requires room { 2 * leaves < 2 ^ 32 }
    requires there { EachLeaf (λ gate. gate < 2 * leaves + length clocks.old) (tree_of tree.now) }
    ensures { AreRaised clock (cells_read leaves (tree_of tree.now)) clocks.old clocks.new }
{
    match tree {
        Sp::Leaf { gate, .. } => {
            let rails = 2 * leaves;
            if *gate >= rails {
                let cell = (*gate - rails) as usize;
                clocks[cell] = clocks[cell].max(clock);
            }
        }
        Sp::Series(left, right) | Sp::Parallel(left, right) => {
            raise(left, leaves, clock, clocks);
            raise(right, leaves, clock, clocks);
        }
    }
}

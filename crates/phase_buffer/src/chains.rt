//! The chains of buffers that follow cells.
ghost use Rattle.std.specs.Prelude.{◌≡◌, ◌<◌, ◌+◌, ◌*◌, IfOk, map};
ghost use Rattle.phase_buffer.specs.Chains.{chain_length, end_at, place};
ghost use Rattle.phase_buffer.specs.Unbuffered.{IsChainable, old_cells, old_numbers};

use crate::unbuffered::Unbuffered;
use dom_base::OutOfMemory;
use std::alloc::Global;

impl<'a> Unbuffered<'a> {
    /// How many buffers follow each cell. The one error is out of memory.
    pub(crate) fn chain_lengths(&self, alloc: Global) -> Result<Vec<u8>, OutOfMemory>
        requires { IsChainable self.now }
        ensures { IfOk result (λ lengths. lengths.items ≡ map (chain_length (old_cells self.now)) (old_numbers self.now)) }
    {
        let last_readers = self.last_readers(alloc)?;
        let mut lengths = Vec::with_capacity(alloc, self.plans.len())?;
        for k in 0..self.plans.len() {
            let last = last_readers[k].saturating_sub(1);
            lengths.push(last.saturating_sub(self.plans[k].clock))?;
        }
        Ok(lengths)
    }

    /// The new number of each cell, where so many buffers follow each. The one error is out of memory.
    pub(crate) fn places(&self, alloc: Global, lengths: &[u8]) -> Result<Vec<u32>, OutOfMemory>
        requires chainable { IsChainable self.now }
        requires lengths { lengths.now ≡ map (chain_length (old_cells self.now)) (old_numbers self.now) }
        ensures { IfOk result (λ places. places.items ≡ map (place (old_cells self.now)) (old_numbers self.now)) }
    {
        let mut places = Vec::with_capacity(alloc, self.plans.len())?;
        let mut next: u32 = 0;
        for k in 0..self.plans.len() {
            places.push(next)?;
            next += 1 + u32::from(lengths[k]);
        }
        Ok(places)
    }

    /// For each sink the last of the chain of the cell from which it takes. The one error is out of
    /// memory.
    pub(crate) fn chain_ends(
        &self,
        alloc: Global,
        lengths: &[u8],
        places: &[u32],
    ) -> Result<Vec<u32>, OutOfMemory>
        requires chainable { IsChainable self.now }
        requires lengths { lengths.now ≡ map (chain_length (old_cells self.now)) (old_numbers self.now) }
        requires places { places.now ≡ map (place (old_cells self.now)) (old_numbers self.now) }
        ensures { IfOk result (λ ends. ends.items ≡ map (end_at (old_cells self.now)) self.now.sinks.now) }
    {
        let mut ends = Vec::with_capacity(alloc, self.sinks.len())?;
        for sink in self.sinks {
            let cell = *sink as usize;
            ends.push(places[cell] + u32::from(lengths[cell]))?;
        }
        Ok(ends)
    }
}

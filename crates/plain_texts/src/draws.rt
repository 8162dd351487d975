//! Drawn numbers, and texts that are assembled of pieces by them.
use dom_base::OutOfMemory;
use std::alloc::Global;

/// Drawn numbers, the same in each run.
#[derive(Drop)]
pub struct Draws {
    state: u64,
}

impl Draws {
    /// Draws by a seed.
    pub fn new(seed: u64) -> Draws {
        Draws { state: seed }
    }

    /// The numbers of the case of this number. Their first is left out, since those of seeds that are
    /// near to each other are near.
    pub fn of_case(case: u64) -> Draws {
        let mut draws = Draws::new(case);
        draws.below(1);
        draws
    }

    /// A number below this one, and 0 below 0.
    pub fn below(&mut self, count: usize) -> usize {
        self.state = self
            .state
            .wrapping_mul(6364136223846793005)
            .wrapping_add(1442695040888963407);
        let drawn = (self.state >> 33) as usize;
        if count == 0 { 0 } else { drawn % count }
    }

    /// One of these pieces.
    pub fn pick(&mut self, pieces: &[&'static str]) -> &'static str {
        let index = self.below(pieces.len());
        pieces.get(index).copied().unwrap_or("")
    }

    /// Appends so many of these pieces, each with one of the ends behind it.
    pub fn append(
        &mut self,
        text: &mut Vec<u8>,
        count: usize,
        pieces: &[&'static str],
        ends: &[&'static str],
    ) -> Result<(), OutOfMemory> {
        for _ in 0..count {
            text.extend_from_slice(self.pick(pieces).as_bytes())?;
            text.extend_from_slice(self.pick(ends).as_bytes())?;
        }
        Ok(())
    }

    /// A text of fewer than so many of these pieces, each with one of the ends behind it.
    pub fn text(
        &mut self,
        alloc: Global,
        bound: usize,
        pieces: &[&'static str],
        ends: &[&'static str],
    ) -> Result<Vec<u8>, OutOfMemory> {
        let mut text = Vec::new(alloc);
        let count = self.below(bound);
        self.append(&mut text, count, pieces, ends)?;
        Ok(text)
    }
}

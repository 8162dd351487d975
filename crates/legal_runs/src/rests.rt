//! What is kept of the rests of a run, and whether two runs are alike in them.
use crate::honest::Place;
use dom_base::Tri;
use std::alloc::{AllocError, Global};

/// The values of what is watched at a rest of a cycle at which these clocks are up.
#[derive(Drop)]
struct OpenRest {
    cycle: usize,
    place: Place,
    up: usize,
    values: Vec<Tri>,
}

/// The values of what is watched, rest by rest: at those that all runs have, and at those with some clocks up.
#[derive(Drop)]
pub struct Rests {
    pub common: Vec<Tri>,
    open: Vec<OpenRest>,
}

impl Rests {
    /// No rest.
    pub fn new(alloc: Global) -> Rests {
        Rests {
            common: Vec::new(alloc),
            open: Vec::new(alloc),
        }
    }

    /// Adds a rest with some clocks up.
    pub fn add_open(
        &mut self,
        cycle: usize,
        place: Place,
        up: usize,
        values: Vec<Tri>,
    ) -> Result<(), AllocError> {
        self.open.push(OpenRest {
            cycle,
            place,
            up,
            values,
        })?;
        Ok(())
    }

    /// The values at the rests that all runs have.
    pub fn as_slice(&self) -> &[Tri] {
        self.common.as_slice()
    }

    /// Whether two runs are alike at the rests that all have, and at those of one place and cycle with the same
    /// clocks up.
    pub fn are_alike(&self, other: &Rests) -> bool {
        self.common.as_slice() == other.common.as_slice()
            && self.open.iter().all(|rest| other.agree(rest))
    }

    fn agree(&self, rest: &OpenRest) -> bool {
        self.open.iter().all(|own| {
            let is_same = own.cycle == rest.cycle && own.place == rest.place && own.up == rest.up;
            !is_same || own.values.as_slice() == rest.values.as_slice()
        })
    }
}

//! Nets that were named of late.
use dom_base::mark_of;
use std::alloc::Global;

/// How many places there are, a power of two.
const PLACES: usize = 4096;

/// The mark of a net's name, and the net's number.
#[derive(Clone, Copy)]
struct RecentNet {
    mark: u32,
    number: u32,
}

/// At each place, the last net with a name whose mark leads there. Its number is a guess: other names have the same mark,
/// so whoever asks compares.
#[derive(Drop)]
pub struct RecentNets {
    places: Vec<RecentNet>,
}

impl RecentNets {
    /// No nets yet, and no places.
    pub fn new(alloc: Global) -> RecentNets {
        RecentNets {
            places: Vec::new(alloc),
        }
    }

    /// The number of the net that a word may name, where a name with its mark was noted of late.
    pub fn number(&self, word: &[u8]) -> Option<usize> {
        let mark = mark_of(word);
        let recent = self.places.get(mark as usize % PLACES).copied()?;
        if recent.mark == mark {
            Some(recent.number as usize)
        } else {
            None
        }
    }

    /// Notes the number of the net that a word names, where there is memory for the places.
    pub fn note(&mut self, word: &[u8], number: usize) {
        let nothing = RecentNet { mark: 0, number: 0 };
        if self.places.is_empty() && self.places.resize(PLACES, nothing).is_err() {
            return;
        }
        let mark = mark_of(word);
        if let Some(recent) = self.places.get_mut(mark as usize % PLACES) {
            *recent = RecentNet {
                mark,
                number: u32::try_from(number).unwrap_or(0),
            };
        }
    }
}

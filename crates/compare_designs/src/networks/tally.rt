//! What came of a comparison.

/// How many kinds of refusals there are.
pub const KINDS: usize = 11;

/// The numbers of the refusals in the order in which they are looked for.
pub const ORDER: [u64; KINDS] = [10, 11, 12, 13, 14, 20, 15, 16, 17, 18, 19];

/// How many files were compared, how many of them have a network, how many cycles were run and how many files were
/// refused for each kind, in order; and the first file, from 0, of which the two answers differ.
#[derive(Clone, Copy)]
pub struct Tally {
    pub files: u64,
    pub networks: u64,
    pub cycles: u64,
    pub refused: [u64; KINDS],
    pub differs: Option<u64>,
}

impl Tally {
    /// No file.
    pub fn new() -> Tally {
        Tally {
            files: 0,
            networks: 0,
            cycles: 0,
            refused: [0; KINDS],
            differs: None,
        }
    }

    fn count(&mut self, alike: bool) {
        if !alike && self.differs.is_none() {
            self.differs = Some(self.files);
        }
        self.files = self.files.saturating_add(1);
    }

    /// Counts a file with a network, and how many of its cycles were run.
    pub fn add_network(&mut self, cycles: u64, alike: bool) {
        self.networks = self.networks.saturating_add(1);
        self.cycles = self.cycles.saturating_add(cycles);
        self.count(alike);
    }

    /// Counts a file that is refused for the kind of this number.
    pub fn add_refusal(&mut self, number: u64, alike: bool) {
        for (kind, count) in ORDER.iter().zip(self.refused.iter_mut()) {
            if *kind == number {
                *count = count.saturating_add(1);
            }
        }
        self.count(alike);
    }

    /// How many files were refused for the kind of this number.
    pub fn refused_for(&self, number: u64) -> u64 {
        for (kind, count) in ORDER.iter().zip(self.refused.iter()) {
            if *kind == number {
                return *count;
            }
        }
        0
    }

    /// Counts a file of which the two answers differ.
    pub fn add_difference(&mut self) {
        self.count(false);
    }
}

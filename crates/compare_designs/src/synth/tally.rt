//! What came of the comparisons.

/// How many files were refused and how many have a network, how many decks and devices were compared; and the
/// first file, from 0, of which the two answers differ.
#[derive(Clone, Copy)]
pub struct DeckTally {
    pub refused: u64,
    pub networks: u64,
    pub decks: u64,
    pub devices: u64,
    pub differs: Option<u64>,
}

impl DeckTally {
    /// No file.
    pub fn new() -> DeckTally {
        DeckTally {
            refused: 0,
            networks: 0,
            decks: 0,
            devices: 0,
            differs: None,
        }
    }

    /// Counts a file that is refused.
    pub fn add_refused(&mut self) {
        self.refused = self.refused.saturating_add(1);
    }

    /// Counts a deck of so many devices.
    pub fn add_deck(&mut self, devices: usize) {
        self.decks = self.decks.saturating_add(1);
        self.devices = self.devices.saturating_add(devices as u64);
    }
}

/// How many decks were run, in how many cycles and events; and the first file, from 0, with a deck that isn't as
/// its network.
#[derive(Clone, Copy)]
pub struct OrderTally {
    pub decks: u64,
    pub cycles: u64,
    pub events: u64,
    pub differs: Option<u64>,
}

impl OrderTally {
    /// No deck.
    pub fn new() -> OrderTally {
        OrderTally {
            decks: 0,
            cycles: 0,
            events: 0,
            differs: None,
        }
    }

    /// Counts a run of so many cycles and events.
    pub fn add_run(&mut self, cycles: usize, events: u64) {
        self.cycles = self.cycles.saturating_add(cycles as u64);
        self.events = self.events.saturating_add(events);
    }
}

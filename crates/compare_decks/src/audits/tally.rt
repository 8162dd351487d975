//! What came of the comparison.
use crate::audits::parts::PlainAudit;

/// How many rules there are.
const RULES: usize = 6;

/// How many kinds of changes there are.
pub const CHANGES: usize = 16;

/// How many decks were audited, how many of them got yes, how many a no by each rule, how many have each kind of change,
/// how many were drawn; and the first drawn deck, from 0, with one of which the two answers differ.
#[derive(Clone, Copy)]
pub struct Tally {
    pub decks: u64,
    pub yes: u64,
    pub rules: [u64; 6],
    pub changes: [u64; 16],
    pub own: u64,
    pub differs: Option<u64>,
}

impl Tally {
    /// No deck.
    pub fn new() -> Tally {
        Tally {
            decks: 0,
            yes: 0,
            rules: [0; 6],
            changes: [0; 16],
            own: 0,
            differs: None,
        }
    }

    /// Counts a deck of this answer.
    pub fn add_answer(&mut self, answer: &PlainAudit) {
        self.decks = self.decks.saturating_add(1);
        match answer {
            PlainAudit::Yes(_) => self.yes = self.yes.saturating_add(1),
            PlainAudit::No(rule, _) => add_at(&mut self.rules, rule.saturating_sub(1)),
        }
    }

    /// Counts a change of this number.
    pub fn add_change(&mut self, change: usize) {
        add_at(&mut self.changes, change);
    }

    /// Whether each rule was broken, and each change was made.
    pub fn met_all(&self) -> bool {
        self.rules.iter().all(|count| *count > 0) && self.changes.iter().all(|count| *count > 0)
    }
}

fn add_at(counts: &mut [u64], place: usize) {
    if let Some(count) = counts.get_mut(place) {
        *count = count.saturating_add(1);
    }
}

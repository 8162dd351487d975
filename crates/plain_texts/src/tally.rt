//! What came of a comparison.

use std::alloc::{AllocError, Global};

/// How many texts were read, how many of them were refused, and the first of them, from 0, of which
/// the two answers differ.
#[derive(Clone, Copy, Debug, PartialEq, Eq)]
pub struct Tally {
    pub texts: u32,
    pub refused: u32,
    pub differs: Option<u32>,
}

impl Tally {
    /// No text was read.
    pub fn new() -> Tally {
        Tally {
            texts: 0,
            refused: 0,
            differs: None,
        }
    }

    /// Counts a text, whether it was refused, and whether its two answers are alike.
    pub fn count(&mut self, refused: bool, alike: bool) {
        if !alike && self.differs.is_none() {
            self.differs = Some(self.texts);
        }
        if refused {
            self.refused = self.refused.saturating_add(1);
        }
        self.texts = self.texts.saturating_add(1);
    }

    /// The line that says what came of the comparison of such texts.
    pub fn line(&self, alloc: Global, what: &str) -> Result<String, AllocError> {
        match self.differs {
            Some(case) => format!(in alloc; "{what} differs at case {case}"),
            None => {
                let (texts, refused) = (self.texts, self.refused);
                format!(in alloc; "{what} {texts} texts, {refused} refused, all alike")
            }
        }
    }
}

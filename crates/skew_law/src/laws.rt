//! Laws of decks whose clocks overlap.
ghost use Rattle.skew_law.specs.Laws.{
  BufferedDecksAreHonest,
  BufferedDecksAreRight,
  BufferedDecksHoldTargets,
  BufferedTextsAreRight,
};

/// A deck of a plan of a network with its chains of buffers is right in each run in which its clocks may
/// fall once the next has risen, and so is each text of it; and both are right where all clocks fall
/// together. In each run in which its clocks may fall so, its states are honest, and from the fall of a
/// clock to that of the next each net of each cell of the next holds its target.
pub fn overlapping_decks_are_right()
    ensures buffered { BufferedDecksAreRight }
    ensures texts { BufferedTextsAreRight }
    ensures honest { BufferedDecksAreHonest }
    ensures held { BufferedDecksHoldTargets }
{}

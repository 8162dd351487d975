//! Laws of the verdicts and the traces of decks beside the networks of texts of BLIF.
ghost use Rattle.verdict_law.specs.Laws.{OneClockIsRight, RealisedIsSame, RightDeckIsAccepted, RightDeckIsSame};
ghost use Rattle.verdict_law.specs.NetworkTraces.{RightDeckHasOutputs, RightDeckHasTrace, RightDeckIsRefusedForNets};

/// A circuit that has a network's ports, whose legal runs read the network's outputs and have few enough events between two
/// moves, has the verdict that all is the same in each cycle, over each stream and in each order of events.
pub fn realised_is_same()
    ensures { RealisedIsSame }
{}

/// A deck of a text that is right where all clocks fall together, as right decks are and those whose clocks may overlap, has that
/// verdict over each stimulus for the inputs of the text's network, and neither the text nor the deck nor the stimulus is refused.
pub fn right_deck_is_same()
    ensures same { RightDeckIsSame }
    ensures accepted { RightDeckIsAccepted }
{}

/// The trace of a deck of a text that is right where its clocks fall so, together or overlapping, over a stimulus for the inputs of
/// the text's network, with all options: each settling ends, and the line of each cycle has the network's outputs. It is there where
/// the probes name nets of the deck, and nothing is refused but for a probe that names none.
pub fn right_deck_has_outputs()
    ensures outputs { RightDeckHasOutputs }
    ensures there { RightDeckHasTrace }
    ensures refused { RightDeckIsRefusedForNets }
{}

/// The bytes of a deck on one clock that is right where all clocks fall together, as right decks are, are right where they overlap: no
/// clock can fall before another.
pub fn one_clock_is_right()
    ensures { OneClockIsRight }
{}

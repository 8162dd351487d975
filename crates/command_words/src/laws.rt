//! What holds of each command line.
ghost use Rattle.command_words.specs.Laws.{AskedIsInRange, AskedIsOne, AskedSuitsMethod};

/// Words ask for at most one command.
pub fn asked_is_one()
    ensures { AskedIsOne }
{}

/// The options of synthesis that words ask for, and the size, are within the ranges of their values.
pub fn asked_is_in_range()
    ensures { AskedIsInRange }
{}

/// The options of synthesis that words ask for suit the method that they ask for: clocks that overlap are
/// two to four, in cells with keepers, and compound cells have none.
pub fn asked_suits_method()
    ensures { AskedSuitsMethod }
{}

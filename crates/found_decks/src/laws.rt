//! Laws of decks that audits find.
ghost use Rattle.found_decks.specs.FoundDecks.{FoundDecksGetYes};

/// Where all rules hold, the places of cells, complements, latches and sinks, in the order of a deck,
/// are the order of a yes, with as many cells as there are dynamic nets.
pub fn found_decks_get_yes()
    ensures { FoundDecksGetYes }
{}

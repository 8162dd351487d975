//! Laws of the decks of networks.
ghost use Rattle.deck_form.specs.DeckClocks.{ClocksRise};
ghost use Rattle.deck_form.specs.DeckLaws.{ChosenDecksAreDomino, DominoDecksAreLoose, PlannedDecksAreDomino};

/// The circuit of any signs and any plan, the chosen ones among them, is a domino deck of its network, and every
/// domino deck is a loose one. No cell of a domino deck reads a cell of a later clock.
pub fn decks_are_domino()
    ensures planned { PlannedDecksAreDomino }
    ensures chosen { ChosenDecksAreDomino }
    ensures loose { DominoDecksAreLoose }
    ensures clocks { ClocksRise }
{}

//! Laws of the decks of networks with compound cells.
ghost use Rattle.compound_law.specs.Laws.{
  ChosenDecksAreLeast,
  ChosenDecksAreOne,
  ChosenDecksAreThere,
  ChosenTextsAreRight,
  PlannedCircuitsAreHonest,
  PlannedDecksAreLoose,
  PlannedDecksAreRight,
  PlannedRunsAsNetwork,
  PlannedTextsAreRight,
};
ghost use Rattle.compound_law.specs.PushedDecks.{DecksArePushed};
ghost use Rattle.compound_law.specs.WorkedDeck.{OrDeckIsPlanned};

/// The own run of a planned deck of a network, of simple and compound cells, is the network's run.
pub fn planned_runs_as_network()
    ensures { PlannedRunsAsNetwork }
{}

/// A planned deck by names is a loose domino deck by numbers, where each net has the number of its name. So it is honest: each
/// state of its legal runs from the rest of reset on is, each event and each move keeps that, its latches start as the network's,
/// and an honest reading has the network's outputs and next state.
pub fn planned_decks_are_loose()
    ensures loose { PlannedDecksAreLoose }
    ensures honest { PlannedCircuitsAreHonest }
{}

/// The chosen deck has the least cost over all plans with simple and compound roots, and its cells have
/// exactly so many devices.
pub fn chosen_decks_are_least()
    ensures { ChosenDecksAreLeast }
{}

/// A text that stands for the circuit of any signs and any plan with compound cells of a BLIF text's
/// network is a right deck of that text, which joins the supplies never, and so is the written form of
/// that circuit; that of the chosen signs and the chosen plan has the least cost.
pub fn decks_are_right()
    ensures decks { PlannedDecksAreRight }
    ensures texts { PlannedTextsAreRight }
    ensures chosen { ChosenTextsAreRight }
{}

/// A network of one Or is a network, and a circuit of one compound cell is a planned deck of it, so what
/// these laws ask for can be met.
pub fn worked_deck_is_planned()
    ensures { OrDeckIsPlanned }
{}

/// The circuit of a deck is the one that the cards of its cells, complements, latches and sinks make by
/// their names, appended in order.
pub fn decks_are_pushed()
    ensures { DecksArePushed }
{}

/// A network has one deck of the chosen signs and the chosen plan with compound cells.
pub fn chosen_deck_is_one()
    ensures there { ChosenDecksAreThere }
    ensures one { ChosenDecksAreOne }
{}

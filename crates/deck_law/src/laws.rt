//! Laws of the decks of networks.
ghost use Rattle.deck_law.specs.HonestDecks.{PlannedCircuitsAreHonest, RightDecksAreHonest};
ghost use Rattle.deck_law.specs.Laws.{
  ChosenTextsAreRight,
  LooseDecksAreSpelled,
  PlannedCircuitsAreRight,
  PlannedDecksAreRight,
  PlannedRunsAsNetwork,
  PlannedTextsAreRight,
  SynthTextsAreRight,
};
ghost use Rattle.deck_law.specs.NamesApart.{NamesAreApart};
ghost use Rattle.deck_law.specs.OwnRuns.{NetworkDecksAreRight};
ghost use Rattle.deck_law.specs.ShapeDecks.{ShapeDecksAreLoose};
ghost use Rattle.deck_law.specs.WorkedCompound.{OrDeckIsSpelled};
ghost use Rattle.deck_law.specs.WorkedDeck.{AndDeckIsPlanned};

/// A loose deck by names is a loose domino deck by numbers, where each net has the number of its
/// name.
pub fn loose_decks_are_spelled()
    ensures { LooseDecksAreSpelled }
{}

/// The own run of a planned deck of a network is the network's run.
pub fn planned_runs_as_network()
    ensures { PlannedRunsAsNetwork }
{}

/// A text that stands for the circuit of any signs and any plan of a BLIF text's network is a right
/// deck of that text, in either style of cells, and so is the written form of that circuit, for the
/// chosen ones as for any, and so the text of synthesis. The circuit of any plan of a network is right in
/// every run, whatever it is written as, and so is each loose domino deck whose own run is a network's,
/// where all clocks fall together and where they fall as its own do.
pub fn decks_are_right()
    ensures decks { PlannedDecksAreRight }
    ensures texts { PlannedTextsAreRight }
    ensures chosen { ChosenTextsAreRight }
    ensures synth { SynthTextsAreRight }
    ensures circuits { PlannedCircuitsAreRight }
    ensures loose { NetworkDecksAreRight }
{}

/// Each right deck of a text is honest: from the rest of reset on each state of its legal runs is, each
/// event and each move keeps it, its latches start as their resets say, and an honest reading has the
/// values of the deck's own run. So is the circuit of any signs and any plan of any network, whatever it
/// is written as: its own run is the network's, its latches start as the network's, and an honest reading
/// has the network's outputs and next state.
pub fn decks_are_honest()
    ensures decks { RightDecksAreHonest }
    ensures circuits { PlannedCircuitsAreHonest }
{}

/// A network of one And is a network, and a circuit of one cell is a planned deck of it, so what these
/// laws ask for can be met. The deck of the Or of three pins as one compound cell has these fifteen cards.
pub fn worked_deck_is_planned()
    ensures planned { AndDeckIsPlanned }
    ensures compound { OrDeckIsSpelled }
{}

/// The nets of a deck of simple and compound cells and of their static gates have different names, where
/// the outputs are called by escapes: behind `_` an escape has a hexadecimal digit, so no output has the
/// name of an inner net of another's gate.
pub fn names_are_apart()
    ensures { NamesAreApart }
{}

/// Behind ports in the order of roles, whose outputs are called by escapes, the cards of a shape of
/// simple or compound cells are a loose domino deck by numbers, where each net has the number of its
/// name.
pub fn shape_decks_are_loose()
    ensures { ShapeDecksAreLoose }
{}

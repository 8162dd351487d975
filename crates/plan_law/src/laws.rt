//! Laws of the decks that networks have.
ghost use Rattle.plan_law.specs.Laws.{
  ChosenDecksAreThere,
  FilesHaveTexts,
  ForestsAreThere,
  GatesAreThere,
  LevelsAreThere,
  SignedDecksAreThere,
  SynthTextsAreThere,
  TextsAreThere,
};
ghost use Rattle.plan_law.specs.LeastDecks.{ChosenDecksAreLeast, SignedDecksHaveLeastCovers};
ghost use Rattle.plan_law.specs.OneText.{ChosenDecksAreOne, SignedDecksAreOne, SynthTextsAreOne, TextsAreOne};

/// A network has gates, gates have a forest under any signs, and the cells of trees that read only
/// cells before them have levels.
pub fn parts_are_there()
    ensures gates { GatesAreThere }
    ensures forests { ForestsAreThere }
    ensures levels { LevelsAreThere }
{}

/// Each network has a deck of any signs and the chosen plan, for a width and a height of at least 2, so
/// that of the chosen signs, and the text that synthesis gives of it.
pub fn decks_are_there()
    ensures signed { SignedDecksAreThere }
    ensures decks { ChosenDecksAreThere }
    ensures written { TextsAreThere }
    ensures texts { SynthTextsAreThere }
{}

/// A network has one deck of the same signs and the chosen plan with the same options, so one of the
/// chosen signs, and one text: what synthesis gives is decided by the network and the options.
pub fn decks_are_one()
    ensures signed { SignedDecksAreOne }
    ensures decks { ChosenDecksAreOne }
    ensures written { TextsAreOne }
    ensures texts { SynthTextsAreOne }
{}

/// Each good file is refused for something, or has a network with the text that synthesis gives of
/// it, for a width and a height of at least 2. Nothing but the file's own refusals stands in the way.
pub fn files_have_texts()
    ensures { FilesHaveTexts }
{}

/// The cells of a deck of any signs and the chosen plan are the trees of a plan of least cost in its style, and have exactly as many
/// devices as that plan costs; the chosen signs are settled and need no more pairs than all plus.
pub fn chosen_decks_are_least()
    ensures signed { SignedDecksHaveLeastCovers }
    ensures chosen { ChosenDecksAreLeast }
{}

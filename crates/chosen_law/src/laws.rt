//! Laws of the chosen run of a deck.
ghost use Rattle.chosen_law.specs.Chosen.{
  CycleNeverUnsettled,
  EvaluationIsLegal,
  LatchingIsLegal,
  PowerIsLegal,
  PowerNeverUnsettled,
  ReadsOwnRun,
};
ghost use Rattle.chosen_law.specs.Overlapping.{
  OverlappingCycleNeverUnsettled,
  OverlappingEvaluationIsLegal,
  OverlappingReadsOwnRun,
};

/// What the simulator runs, in each order: power from the power state to the rest of `released`,
/// and each cycle to its reading and from there to the rest of `launched`, is a legal run.
pub fn chosen_runs_are_legal()
    ensures power { PowerIsLegal }
    ensures evaluation { EvaluationIsLegal }
    ensures latching { LatchingIsLegal }
{}

/// What the simulator reads in a cycle of a loose domino deck, in each order of events, is what the
/// own run has in it: the outputs, and the next state at the latch inputs.
pub fn chosen_runs_read_own_run()
    ensures { ReadsOwnRun }
{}

/// No settling of it ends unsettled, in each order of events, neither at power nor in a cycle.
pub fn chosen_runs_settle()
    ensures power { PowerNeverUnsettled }
    ensures cycle { CycleNeverUnsettled }
{}

/// Where clocks overlap, and each but the last falls once the rise of the next one has settled, each
/// cycle to its reading is a legal run, it reads the own run, and none of its settlings ends
/// unsettled.
pub fn overlapping_runs_read_own_run()
    ensures evaluation { OverlappingEvaluationIsLegal }
    ensures reads { OverlappingReadsOwnRun }
    ensures cycle { OverlappingCycleNeverUnsettled }
{}

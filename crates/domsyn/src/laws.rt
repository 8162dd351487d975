//! What holds of each command and its outcomes.
ghost use Rattle.domsyn.specs.FlatTexts.{FlatReadsBack};
ghost use Rattle.domsyn.specs.Laws.{OutcomeIsOne, OutcomeIsThere};
ghost use Rattle.domsyn.specs.OwnAudits.{OwnDeckGetsYes};
ghost use Rattle.domsyn.specs.OwnDecks.{OwnDeckIsSame};
ghost use Rattle.domsyn.specs.OwnTraces.{OwnDeckHasOutputs};
ghost use Rattle.domsyn.specs.SynthTexts.{ReportTellsDeck, VersionsReadAlike};

/// Over files that are known, a command has at most one outcome: a text with its status, or the file
/// that is refused and the cause.
pub fn outcome_is_one()
    ensures { OutcomeIsOne }
{}

/// Over files that are known, a command has an outcome, where each of its files is one of them and its
/// options are within the ranges of their values. That of `audit` hangs on an answer of the audit, which
/// isn't shown to be there.
pub fn outcome_is_there()
    ensures { OutcomeIsThere }
{}

/// The text of the file of one model of the network of bytes is accepted and refused for nothing, however long it is, and its network
/// has the name of the model, the inputs, the outputs, the start values and the runs of that network.
pub fn flat_reads_back()
    ensures { FlatReadsBack }
{}

/// Over files that are known `cosim` of a text, of a right deck of it and of a stimulus for the inputs of its network has the
/// outcome that all is the same in each cycle, in each order of events.
pub fn own_deck_is_same()
    ensures { OwnDeckIsSame }
{}

/// Over files that are known `audit` of a right deck of a text with keepers, with its devices in any order, has the outcome
/// yes, with the number of its cells and the greatest width and height of their trees.
pub fn own_deck_gets_yes()
    ensures { OwnDeckGetsYes }
{}

/// Over files that are known each outcome of `sim` of a right deck of a text and of a stimulus for the inputs of its network is a
/// trace with the outputs of the network's run, whose settlings all end, with all options; or a probe names no net of the deck.
/// Where clocks overlap, the deck is one whose clocks may, or it has one clock.
pub fn own_deck_has_outputs()
    ensures { OwnDeckHasOutputs }
{}

/// Over files that are known, the texts that `synth` of a file writes with the same options, within their ranges, in two versions read
/// as the same circuit.
pub fn versions_read_alike()
    ensures { VersionsReadAlike }
{}

/// Over files that are known, the text that `synth` of a file writes with options within their ranges, in either version, reads as the
/// circuit whose figures `report` of the file tells with them.
pub fn report_tells_deck()
    ensures { ReportTellsDeck }
{}

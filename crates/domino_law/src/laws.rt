//! Laws of domino decks.

ghost use Rattle.domino_law.specs.OrderLaws.{
  ContestsAreOverpowered,
  DynamicFallsOnce,
  EventsAreFew,
  GatesOnce,
  HasNoContestAtRest,
  HasNoShort,
  NoContestWithPrecharge,
  OfRuns,
  OutputRisesOnce,
  RestsAlike,
  RestsAlikeByClocks,
};
ghost use Rattle.domino_law.specs.CellCards.{CellsHaveCards};
ghost use Rattle.domino_law.specs.CellStates.{CompoundCellsAreHonest, SimpleCellsHavePairs};
ghost use Rattle.domino_law.specs.DominoDeck.{
  DecksRunAsDomino,
  DominoDeckIsLoose,
  DominoDeckOverlaps,
  PortsReadOwnRun,
  PortsRestAlike,
};
ghost use Rattle.domino_law.specs.DynamicNets.{
  CellsAreDynamic,
  CellsAreDynamicByPorts,
  InvertersAreDomino,
  OutputsAreDominoByPorts,
};
ghost use Rattle.domino_law.specs.RunLaws.{
  PortRunsAreRuns,
  RestIsReached,
  DeckRunsAreCutAnywhere,
  RunsReadEachStream,
  DeckRunsStandInOrder,
  RunsArePortRuns,
};
ghost use Rattle.domino_law.specs.NamedDeck.{NamedIsLoose};
ghost use Rattle.domino_law.specs.Settings.{MovesAreSettings, PowerIsPower, SettingsAreMoves};
ghost use Rattle.domino_law.specs.Spelled.{NamedIsSpelled, SpelledIsLoose};
ghost use Rattle.domino_law.specs.WorkedCompound.{OrHasPower, OrIsDeck, OrRuns};
ghost use Rattle.domino_law.specs.WorkedDeck.{ToggleHasPower, ToggleIsDeck, ToggleRuns};
ghost use Rattle.domino_law.specs.Laws.{
  CaptureLaunches,
  CapturedAtTargets,
  HonestIsKnown,
  KeepsHonest,
  RealisesOwnRun,
  ResetReaches,
  RestIsValue,
  RunsAreHonest,
};

/// Each legal event and each legal move takes an honest state to an honest state. From the rest
/// of reset on every state of every legal run is honest. In an honest state all nets that the
/// parts drive but the masters' are `Zero` or `One`, and in capture and captured the cells, the
/// latch inputs and the outputs hold their targets. Of a simple cell an honest state says which pairs of
/// values its dynamic net and its output have, and of a compound cell what its two dynamic nets and its
/// output have.
pub fn keeps_honest()
    ensures step { KeepsHonest }
    ensures run { RunsAreHonest }
    ensures known { HonestIsKnown }
    ensures targets { CapturedAtTargets }
    ensures simple { SimpleCellsHavePairs }
    ensures compound { CompoundCellsAreHonest }
{}

/// At the rest of reset, and until the first pins are taken, each latch has its start value.
pub fn reset_reaches()
    ensures { ResetReaches }
{}

/// An honest rest of evaluation with all clocks up has the outputs and the next state of the
/// deck's own run.
pub fn rest_is_value()
    ensures { RestIsValue }
{}

/// From an honest reading on, when the slaves have been closed, each latch output has the value
/// that its latch input had at the reading.
pub fn capture_launches()
    ensures { CaptureLaunches }
{}

/// A legal run from power reads the outputs and the next state of the deck's own run of the same
/// stream of pins, and at the end of each cycle its latches hold that next state.
pub fn realises_own_run()
    ensures { RealisesOwnRun }
{}

/// Two legal runs from power that took the same stream of pins and rest at the same place have the
/// same value on each net that gates a device and on each output port, whatever the order of their
/// events, where their clocks stand alike; and they do where their clocks have the same values.
pub fn rests_alike()
    ensures alike { RestsAlike }
    ensures clocks { RestsAlikeByClocks }
{}

/// In an evaluation period a dynamic net has at most one event, a fall, and a domino output at
/// most one, a rise.
pub fn at_most_once()
    ensures dynamic { DynamicFallsOnce }
    ensures output { OutputRisesOnce }
{}

/// In a loose domino deck the top of each side of a cell, and in the style with precharge each inner net
/// of its tree, is a dynamic net, and the cell's output and each static gate that its tops gate is a
/// domino output, by the devices alone. So the laws of dynamic nets and of domino outputs speak of all of them.
pub fn cells_are_dynamic()
    ensures dynamic { CellsAreDynamic }
    ensures inverters { InvertersAreDomino }
    ensures dynamic_ports { CellsAreDynamicByPorts }
    ensures output_ports { OutputsAreDominoByPorts }
{}

/// From the rest of reset on no possible strong path joins sources of different values.
pub fn no_short()
    ensures { OfRuns HasNoShort }
{}

/// From the rest of reset on each possible weak path between the supplies goes through keepers
/// whose gates are `Zero` and whose drains have a definite strong path to ground. At rest there
/// is none. In the style with precharge there is none at all, at any values of the nets.
pub fn contests_overpowered()
    ensures always { OfRuns ContestsAreOverpowered }
    ensures rest { OfRuns HasNoContestAtRest }
    ensures precharge { NoContestWithPrecharge }
{}

/// Between two moves there are at most `(n + 1)^2` events, with `n` the number of nets that are
/// no sources, from power on, and from each state so many events at most lead to rest. For in a
/// legal run a net that gates a device has at most one event between two moves.
pub fn counts_events()
    ensures few { EventsAreFew }
    ensures rests { RestIsReached }
    ensures gates { GatesOnce }
{}

/// A circuit whose devices are, in order, those of the cells of one style, of the complements, of
/// the latches and of the sinks is a loose domino deck. A circuit that is made by pushing these
/// cards under names has these devices, each net numbered by the place of its name, and where the
/// names differ and the ports stand in order it is a loose domino deck by these numbers, whose ports
/// have their roles. Cells have so many devices.
pub fn spelled_decks_are_loose()
    ensures loose { SpelledIsLoose }
    ensures named { NamedIsSpelled }
    ensures deck { NamedIsLoose }
    ensures counts { CellsHaveCards }
{}

/// A deck of the style with precharge, with a cell, two complements, a latch and an output, meets
/// what the laws ask of a deck and of its power state, and its own run is the toggle's. So does a deck
/// with a compound cell, whose own run is the Or of three pins.
pub fn worked_deck_is_loose()
    ensures deck { ToggleIsDeck }
    ensures power { ToggleHasPower }
    ensures run { ToggleRuns }
    ensures compound_deck { OrIsDeck }
    ensures compound_power { OrHasPower }
    ensures compound_run { OrRuns }
{}

/// Where the ports of a deck stand in the order of roles, to set the ports of a move together is
/// to make it, each move sets these ports and no others, and the power values of the circuit are a
/// power state.
pub fn settings_are_moves()
    ensures moves { SettingsAreMoves }
    ensures settings { MovesAreSettings }
    ensures power { PowerIsPower }
{}

/// In a legal run each net has a value, the sources are as the place says, and pins came in cycles,
/// one bit for each pin. Cut anywhere, it is a legal run. A legal run by ports is one of the deck, and
/// a legal run of the deck from power is one by ports. For each stream of pins there is one to the
/// reading of its last cycle and one to where the slaves have been closed after it.
pub fn runs_stand_in_order()
    ensures order { DeckRunsStandInOrder }
    ensures cut { DeckRunsAreCutAnywhere }
    ensures ports { PortRunsAreRuns }
    ensures back { RunsArePortRuns }
    ensures reads { RunsReadEachStream }
{}

/// In a loose domino deck the output ports have the outputs of the own run at each reading of a
/// legal run, and the same values in two runs that took the same stream of pins and rest at the same
/// place. A deck whose clocks may overlap is one whose clocks do. In each legal run in which all clocks
/// fall together, or as the deck's do, the deck does what is said of domino circuits.
pub fn output_ports_read()
    ensures loose { DominoDeckIsLoose }
    ensures overlaps { DominoDeckOverlaps }
    ensures reads { PortsReadOwnRun }
    ensures alike { PortsRestAlike }
    ensures domino { DecksRunAsDomino }
{}

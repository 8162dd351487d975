//! What holds of each deck and stimulus, of their trace and of their verdict.
ghost use Rattle.port_runs.specs.declared.clocking.Clocking.{Clocking};
ghost use Rattle.trace_tool.specs.Laws.{AnswerIsOne, EdgesAreTold, TraceIsOne, TraceIsThere};
ghost use Rattle.trace_tool.specs.VerdictLaws.{VerdictIsOne, VerdictIsThere};

/// Over the same cycles a circuit has at most one trace in each order.
pub fn trace_is_one()
    ensures { TraceIsOne }
{}

/// A deck and a stimulus have at most one trace for each choice of options, where the clocks fall together and
/// where they overlap, or are refused for at most one cause, and never both.
pub fn answer_is_one()
    ensures { (clocking : Clocking) → AnswerIsOne clocking }
{}

/// A deck whose ports are in the order of roles has a trace over each stimulus for its pins, where the clocks
/// fall together and where they overlap, for all options whose probe words name nets of the deck.
pub fn trace_is_there()
    ensures { (clocking : Clocking) → TraceIsThere clocking }
{}

/// In an order of events a text of BLIF, a deck and a stimulus have at most one verdict, or are refused
/// for at most one cause, and never both.
pub fn verdict_is_one()
    ensures { VerdictIsOne }
{}

/// A text of BLIF that has a network, a deck whose ports are in the order of roles, and a stimulus for
/// the network's inputs have a verdict in each order of events.
pub fn verdict_is_there()
    ensures { VerdictIsThere }
{}

/// A probe word tells an event of its net exactly where its edge's relation, as probes have it, holds of
/// the old and the new value.
pub fn edges_are_told()
    ensures { EdgesAreTold }
{}

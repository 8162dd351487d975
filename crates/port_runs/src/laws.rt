//! Laws of legal runs.
ghost use Rattle.port_runs.specs.Laws.{PeriodsLast, RunsAreCutAnywhere, RunsGoOn, RunsStandInOrder};

/// A legal run has taken its pins in cycles, one bit for each pin, and stands where its stream of
/// pins, its place and the clocks that have risen put it. Each net keeps a value. Cut anywhere, it
/// is a legal run.
pub fn runs_stand_in_order()
    ensures order { RunsStandInOrder }
    ensures cut { RunsAreCutAnywhere }
{}

/// A legal run goes on by the event of each pending net, at any moment, by each move of the
/// environment at the rest of the place before it, and in evaluation by the rise of the next clock,
/// at rest or not: no order of events and of clocks is left out. An evaluation period lasts at each
/// step but the opening of precharge.
pub fn runs_go_on()
    ensures runs { RunsGoOn }
    ensures periods { PeriodsLast }
{}

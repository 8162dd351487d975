//! Laws of the figures of decks.
ghost use Rattle.synth_flow.specs.SummaryLaws.{DevicesAreCounted};

/// The circuit that synthesis gives of a network has as many devices as its cells cost, and 2 for each
/// complement, 9 for each latch and 2 for each sink.
pub fn devices_are_counted()
    ensures { DevicesAreCounted }
{}

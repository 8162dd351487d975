//! Who picks the next event.
ghost use Rattle.std.specs.Prelude.{◌≡◌};
ghost use Rattle.event_sim.specs.Choices.{Chooses};

/// Picks which of the pending nets takes its target next: a function of the step and of the number
/// of pending nets, at least 1, to a place below that number.
#[derive(Drop)]
pub struct Chooser<F: Fn(u64, u64) -> u64> {
    pub pick: F,
}

impl<F: Fn(u64, u64) -> u64> Chooser<F> {
    /// A chooser by a function that may be called on every step and every count of at least 1 and
    /// answers below the count. Takes no memory.
    pub fn new(pick: F) -> Chooser<F>
        requires { Chooses (F.pre pick) (F.post pick) }
        ensures { result.pick ≡ pick }
    {
        Chooser { pick }
    }
}

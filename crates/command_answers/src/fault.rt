//! Why a command gives no text, once the bytes of its files are there.
ghost use Rattle.std.specs.Prelude.{◌≡◌};
ghost use Rattle.command_answers.specs.declared.fault.Fault.TheVariants.{Traced};
ghost use Rattle.trace_tool.specs.declared.fault.TraceFault.TheVariants.{Memory};

use dom_base::OutOfMemory;
use trace_tool::TraceFault;

/// A fault of a text, a deck or a stimulus, or want of memory; or a network of so many sinks, of which exact
/// signs aren't sought.
#[derive(Debug, Drop)]
pub enum Fault {
    Traced(TraceFault),
    TooManySinks { count: u64 },
}

impl From<TraceFault> for Fault {
    ghost from_gives = { λ fault e. e ≡ Traced fault };

    fn from(fault: TraceFault) -> Self {
        Fault::Traced(fault)
    }
}

impl From<OutOfMemory> for Fault {
    ghost from_gives = { λ _ e. e ≡ Traced Memory };

    fn from(_: OutOfMemory) -> Self {
        Fault::Traced(TraceFault::Memory)
    }
}

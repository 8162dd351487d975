//! What a run can break.

/// What a run breaks.
#[derive(Clone, Copy, PartialEq, Eq)]
pub enum Breach {
    /// As many events as there may be, and no rest.
    Unsettled,
    /// A second event of a dynamic net or domino output in an evaluation period.
    Twice,
    /// A dynamic net that rises, or a domino output that falls, in an evaluation period.
    WrongEdge,
    /// A possible strong path between sources of different values.
    Short,
    /// A keeper that contends and isn't overpowered, or that contends at rest or in a style without keepers.
    Contest,
    /// An unknown net that has to be known.
    Unknown,
    /// A cell, a complement or a latch that isn't as its place and the network's state say.
    Dishonest,
    /// A net that isn't at its target while masters are open or have just been shut.
    Uncaptured,
    /// An output that isn't that of the network where the outputs are read.
    Output,
    /// The data of a latch that isn't the network's next state there.
    NextState,
}

//! What a command gives.
ghost use Rattle.std.specs.Prelude.{◌≡◌};
ghost use Rattle.command_answers.specs.Endings.{ending_of};

/// How a command that gives a text ends: all is well, or a settling of a simulation doesn't end, a comparison finds a
/// difference, or an audit finds a rule that is broken.
#[derive(Clone, Copy, Debug, PartialEq, Eq)]
pub enum Ending {
    Done,
    Differs,
}

impl Ending {
    /// The ending where all is well, or isn't.
    pub fn of(well: bool) -> Ending
        ensures { result ≡ ending_of well }
    {
        if well { Ending::Done } else { Ending::Differs }
    }
}

/// A text to be put out, and how the command ends then.
#[derive(Drop)]
pub struct Answer {
    pub text: Vec<u8>,
    pub ending: Ending,
}

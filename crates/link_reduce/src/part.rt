//! Links, and the parts of a network that links are joined to.
ghost use Rattle.std.specs.Prelude.{◌≡◌, false, true};
ghost use Rattle.link_reduce.specs.Parts.{PartEndsAt, PartJoins};

/// The two nets that a link joins.
#[derive(Clone, Copy, Debug, PartialEq, Eq)]
pub struct Ends {
    pub from: u32,
    pub to: u32,
}

/// What a part is: a link that was given, or two parts, by number, in series or in parallel.
#[derive(Clone, Copy)]
pub enum Made {
    Given,
    Series(u32, u32),
    Parallel(u32, u32),
}

/// A part of a network: its two ends, and how wide and how high its links are.
#[derive(Clone, Copy)]
pub struct Part {
    pub from: u32,
    pub to: u32,
    pub width: u32,
    pub height: u32,
    pub made: Made,
}

impl Part {
    /// The end of the part other than this one.
    pub fn other_end(self, net: u32) -> u32
        requires { PartEndsAt self net }
        ensures { PartJoins self net result }
    {
        if self.from == net { self.to } else { self.from }
    }

    /// Whether these two nets are the ends of the part.
    pub fn joins(self, a: u32, b: u32) -> bool
        ensures yes { result ≡ true → PartJoins self a b }
        ensures no { result ≡ false → PartJoins self a b → ⊥ }
    {
        (self.from == a && self.to == b) || (self.to == a && self.from == b)
    }
}

//! Ternary values.
ghost use Rattle.std.specs.Prelude.{◌≡◌};
ghost use Rattle.dom_base.specs.Tri.{opposite, letter_of};

/// The value of a net: 0, 1 or not known to be either.
#[derive(Clone, Copy, Debug, PartialEq, Eq, Hash)]
pub enum Tri {
    Zero,
    One,
    Unknown,
}

impl Tri {
    /// The other of the two known values; `Unknown` stays as it is.
    pub fn not(self) -> Tri
        ensures { result ≡ opposite self }
    {
        match self {
            Tri::Zero => Tri::One,
            Tri::One => Tri::Zero,
            Tri::Unknown => Tri::Unknown,
        }
    }

    /// `0`, `1` or `X`, as an ASCII byte.
    pub fn letter(self) -> u8
        ensures { result ≡ letter_of self }
    {
        match self {
            Tri::Zero => b'0',
            Tri::One => b'1',
            Tri::Unknown => b'X',
        }
    }
}

//! Values for both signs, and nodes with one.
ghost use Rattle.std.specs.Prelude.{◌≡◌, Bool, cond};
ghost use Rattle.dual_rail.specs.SignedValues.{of_sign, same_sign, with_sign};

/// A value for each sign.
#[derive(Clone, Copy)]
pub struct Signed<T> {
    pub plus: T,
    pub minus: T,
}

impl<T: Copy> Signed<T> {
    /// The value for a sign, true for plus.
    pub fn of(self, plus: bool) -> T
        ensures { result ≡ of_sign self plus }
    {
        if plus { self.plus } else { self.minus }
    }

    /// The values with that of one sign replaced.
    pub fn replaced(self, plus: bool, value: T) -> Signed<T>
        ensures { (s : Bool) → of_sign result s ≡ cond (same_sign plus s) value (of_sign self s) }
    {
        if plus {
            Signed {
                plus: value,
                minus: self.minus,
            }
        } else {
            Signed {
                plus: self.plus,
                minus: value,
            }
        }
    }
}

/// An And or Or node and a sign, true for plus.
#[derive(Clone, Copy)]
pub struct SignedNode {
    pub node: u32,
    pub plus: bool,
}

impl SignedNode {
    /// What is asked for with a sign, where this is asked for with the sign plus.
    pub fn signed(self, plus: bool) -> SignedNode
        ensures { result ≡ with_sign self plus }
    {
        if plus {
            self
        } else {
            SignedNode {
                node: self.node,
                plus: !self.plus,
            }
        }
    }
}

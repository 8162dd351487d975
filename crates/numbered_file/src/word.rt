//! Words of a text, as keys.
ghost use Rattle.std.specs.Prelude.{◌≡◌, ◌==◌, ◌∷◌, []};
ghost use Rattle.std.specs.Cmp.Lexicographic.{pointwise};
ghost use Rattle.std.specs.Cmp.Rules.{comparing, hashing};
ghost use Rattle.std.proofs.Common.{rules};

use std::hash::{Hash, Hasher};
use std::marker::Model;

/// A word of a text: its bytes are hashed at once, where those of a slice are hashed one by one.
#[derive(Debug, Drop)]
pub struct Word<'t>(pub &'t [u8]);

impl<'t> Model for Word<'t> {
    ghost use Rattle.std.specs.Prelude.{List, ℕ};

    ghost Value = { List ℕ };

    ghost view = { λ w. w.0.now };
}

impl<'t> PartialEq for Word<'t> {
    ghost eq = { pointwise ◌==◌ };

    ghost laws = { Prim.search (comparing, rules) };

    fn eq(&self, other: &Word<'t>) -> bool {
        *self.0 == *other.0
    }
}

impl<'t> Eq for Word<'t> {
    ghost laws = { Prim.search (comparing, rules) };
}

impl<'t> Hash for Word<'t> {
    ghost hash_input = { λ word. word ∷ [] };

    ghost respects_eq = { Prim.search (hashing, rules) };

    fn hash<H: Hasher>(&self, state: &mut H) {
        state.write(self.0);
    }
}

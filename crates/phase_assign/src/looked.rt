//! The pairs whose uses a trial of a sink looked at, and what has changed of them since.
ghost use Rattle.std.specs.Prelude.{ℕ, Bool, true, ◌≡◌, ◌<◌, ◌≤◌, ◌⊎◌, length, get_or};
ghost use Rattle.phase_assign.specs.LookedPairs.{looked_pairs};
ghost use Rattle.phase_assign.specs.Uses.{AreBelow, times};

use dual_rail::SignedNode;

/// The pairs whose uses were looked at: of some a use was taken away, and then to some a use was added.
#[derive(Drop)]
pub struct Looked {
    pub gone: Vec<SignedNode>,
    pub come: Vec<SignedNode>,
}

/// Whether no use of these pairs has changed since so many pairs were needed, where `changed` has for
/// each node the number of needed pairs at its last change.
fn are_unchanged(pairs: &[SignedNode], changed: &[u32], size: u64) -> bool
    requires { AreBelow (length changed.now) pairs.now }
    ensures { result ≡ true → (n : ℕ) (s : Bool) → 0 < times n s pairs.now → size ≤ get_or changed.now n 0 }
{
    for pair in pairs {
        if u64::from(changed[pair.node as usize]) < size {
            return false;
        }
    }
    true
}

/// Notes a change of the uses of pairs, when so many pairs are needed.
fn note_changes(changed: &mut [u32], pairs: &[SignedNode], size: u32)
    requires { AreBelow (length changed.old) pairs.now }
    ensures { (n : ℕ) → (get_or changed.new n 0 ≡ size)
        ⊎ ((get_or changed.new n 0 ≡ get_or changed.old n 0) × ((s : Bool) → times n s pairs.now ≡ 0)) }
{
    for pair in pairs {
        changed[pair.node as usize] = size;
    }
}

impl Looked {
    /// Whether no use of the pairs has changed since so many pairs were needed, where `changed` has for
    /// each node the number of needed pairs at its last change.
    pub fn is_current(&self, changed: &[u32], size: u64) -> bool
        requires { AreBelow (length changed.now) (looked_pairs self.now) }
        ensures { result ≡ true → (n : ℕ) (s : Bool) → 0 < times n s (looked_pairs self.now) → size ≤ get_or changed.now n 0 }
    {
        are_unchanged(self.gone.as_slice(), changed, size)
            && are_unchanged(self.come.as_slice(), changed, size)
    }

    /// Notes a change of the uses of the pairs, when so many pairs are needed.
    pub fn note_change(&self, changed: &mut [u32], size: u32)
        requires { AreBelow (length changed.old) (looked_pairs self.now) }
        ensures { (n : ℕ) → (get_or changed.new n 0 ≡ size)
            ⊎ ((get_or changed.new n 0 ≡ get_or changed.old n 0) × ((s : Bool) → times n s (looked_pairs self.now) ≡ 0)) }
    {
        note_changes(changed, self.gone.as_slice(), size);
        note_changes(changed, self.come.as_slice(), size);
    }
}

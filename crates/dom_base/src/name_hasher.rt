//! The hasher of names.
ghost use Rattle.dom_base.specs.NameHashes.{finished, written};

use std::hash::{DefaultHasher, FoldHasher, Hasher};

/// Spreads the fast hash once more: of a name of four letters, which are taken in twice, the halves of its hash cancel
/// each other where a table joins them.
const SPREAD: u64 = 0x9e37_79b9_7f4a_7c15;

/// Takes in the bytes of a name: fast, or by SipHash 1-3 with a key.
#[derive(Clone, Copy)]
pub enum NameHasher {
    Folding(FoldHasher),
    Sipping(DefaultHasher),
}

impl Hasher for NameHasher {
    ghost write = { written };

    ghost finish = { finished };

    fn finish(&self) -> u64 {
        match self {
            NameHasher::Folding(hasher) => hasher.finish().wrapping_mul(SPREAD),
            NameHasher::Sipping(hasher) => hasher.finish(),
        }
    }

    fn write(&mut self, bytes: &[u8]) {
        match self {
            NameHasher::Folding(hasher) => hasher.write(bytes),
            NameHasher::Sipping(hasher) => hasher.write(bytes),
        }
    }
}

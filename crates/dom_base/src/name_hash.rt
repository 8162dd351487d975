//! Hashes of names that strangers choose.
ghost use Rattle.dom_base.specs.NameHashes.{first_hasher};

use crate::{NameHasher, OutOfMemory, append, mark_of};
use core::hash::keyed_hasher;
use sha2::{Digest, Sha512};
use std::alloc::Global;
use std::hash::{BuildHasher, FoldHasher};

/// How names are hashed: fast, which whoever chooses the names knows beforehand, or by SipHash 1-3 with a key. The key is
/// a digest of all that is read, so that whoever writes a file cannot choose names that meet in one slot of a table: with
/// other names the key is another. So names are hashed fast first, and with a key where a `Crowd` finds them crowded.
#[derive(Clone, Copy, Debug)]
pub enum NameHash {
    Fast,
    Keyed(u64, u64),
}

impl NameHash {
    /// The fast hash, for few names, and for names that a `Crowd` counts.
    pub fn known() -> NameHash {
        NameHash::Fast
    }

    /// A hash with a key, for names that stand in this text.
    pub fn of_text(text: &[u8]) -> NameHash {
        NameHash::of_digest(Sha512::digest(text))
    }

    fn of_digest(digest: [u8; 64]) -> NameHash {
        let [a, b, c, d, e, f, g, h, i, j, k, l, m, n, o, p, ..] = digest;
        NameHash::Keyed(
            u64::from_le_bytes([a, b, c, d, e, f, g, h]),
            u64::from_le_bytes([i, j, k, l, m, n, o, p]),
        )
    }
}

impl BuildHasher for NameHash {
    type Hasher = NameHasher;

    ghost build_hasher = { first_hasher };

    fn build_hasher(&self) -> NameHasher {
        match self {
            NameHash::Fast => NameHasher::Folding(FoldHasher::default()),
            NameHash::Keyed(key0, key1) => NameHasher::Sipping(keyed_hasher(*key0, *key1)),
        }
    }
}

/// How many bytes of names are digested at once.
const PIECE: usize = 8192;

/// How many names are kept, so that one which comes again soon is taken in once.
const KEPT: usize = 1024;

/// Takes names in one after the other, for the key of a hash. Each name is taken in at least once; after the first piece
/// `kept` has at the place of a mark the last name with a mark of that place.
#[derive(Drop)]
pub struct NameDigest<'a> {
    digest: Sha512,
    piece: Vec<u8>,
    kept: Vec<&'a [u8]>,
}

impl<'a> NameDigest<'a> {
    /// No names.
    pub fn new(alloc: Global) -> NameDigest<'a> {
        NameDigest {
            digest: Sha512::new(),
            piece: Vec::new(alloc),
            kept: Vec::new(alloc),
        }
    }

    /// Takes in a name, and a blank behind it, so that names which are cut elsewhere give another key. The one error
    /// is out of memory.
    pub fn add(&mut self, name: &'a [u8]) -> Result<(), OutOfMemory> {
        if self.has_kept(name) {
            return Ok(());
        }
        append(&mut self.piece, name)?;
        append(&mut self.piece, b" ")?;
        if PIECE <= self.piece.len() {
            self.digest.update(self.piece.as_slice());
            self.piece.clear();
            self.kept.resize(KEPT, &[])?;
        }
        Ok(())
    }

    /// Whether a name was the last one at the place of its mark. If it wasn't, it is from now on.
    fn has_kept(&mut self, name: &'a [u8]) -> bool {
        match self.kept.get_mut(mark_of(name) as usize % KEPT) {
            Some(kept) if *kept == name => true,
            Some(kept) => {
                *kept = name;
                false
            }
            None => false,
        }
    }

    /// A hash with a key, for the names that were taken in.
    pub fn hash(self) -> NameHash {
        let NameDigest {
            mut digest,
            piece,
            ..
        } = self;
        digest.update(piece.as_slice());
        NameHash::of_digest(digest.finalize())
    }
}

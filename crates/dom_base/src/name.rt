//! Names as lists of bytes.
ghost use Rattle.std.specs.Prelude.{◌≡◌, ◌==◌, ◌∷◌, [], IfOk, MatchOption};
ghost use Rattle.std.specs.Cmp.Lexicographic.{pointwise};
ghost use Rattle.std.specs.Cmp.Rules.{comparing, hashing};
ghost use Rattle.std.specs.List.{list_all};
ghost use Rattle.std.specs.Str.{str_to_ascii_lowercase};
ghost use Rattle.std.proofs.Common.{rules};
ghost use Rattle.dom_base.specs.Names.{IsNetName, is_net_byte, is_net_name};

use crate::OutOfMemory;
use crate::words::is_same;
use smallvec::SmallVec;
use std::alloc::{AllocError, Global};
use std::default::MadeWith;
use std::hash::{Hash, Hasher};
use std::marker::Model;

/// The bytes of a name. The name itself has room for 16; more stand in an allocation.
pub type NameBytes = SmallVec<u8, 16>;

/// These bytes, as those of a name.
fn bytes_of(alloc: Global, bytes: &[u8]) -> Result<NameBytes, AllocError>
    ensures { IfOk result (λ name. name.items ≡ bytes.now) }
{
    SmallVec::from_slice(alloc, bytes)
}

/// These bytes in lower case, as those of a name. The one error is out of memory.
pub fn name_in_lower_case(alloc: Global, bytes: &[u8]) -> Result<NameBytes, OutOfMemory>
    ensures { IfOk result (λ name. name.items ≡ str_to_ascii_lowercase bytes.now) }
{
    let mut lowered = bytes_of(alloc, bytes)?;
    lowered.as_mut_slice().make_ascii_lowercase();
    Ok(lowered)
}

/// A name of any bytes.
#[derive(Debug, Drop)]
pub struct Name(pub NameBytes);

impl Model for Name {
    ghost use Rattle.std.specs.Prelude.{List, ℕ};

    ghost Value = { List ℕ };

    ghost view = { λ s. s.0.items };
}

impl Name {
    /// The name of these bytes. The one error is out of memory.
    pub fn from_bytes(alloc: Global, bytes: &[u8]) -> Result<Name, OutOfMemory>
        ensures { IfOk result (λ name. name ≡ bytes.now) }
    {
        Ok(Name(bytes_of(alloc, bytes)?))
    }

    /// The bytes of the name.
    pub fn as_bytes(&self) -> &[u8]
        ensures { result.now ≡ self.now }
    {
        self.0.as_slice()
    }
}

impl Clone for Name {
    ghost is_clone = { λ name copy. copy ≡ name };

    fn clone(&self) -> Result<Name, AllocError> {
        Ok(Name(bytes_of(*self.0.allocator(), self.as_bytes())?))
    }
}

impl MadeWith<Global> for Name {
    ghost is_made_with = { λ name. name ≡ [] };

    fn made_with(alloc: Global) -> Name {
        Name(NameBytes::new(alloc))
    }
}

impl PartialEq for Name {
    ghost eq = { pointwise ◌==◌ };

    ghost laws = { Prim.search (comparing, rules) };

    fn eq(&self, other: &Name) -> bool {
        is_same(self.0.as_slice(), other.0.as_slice())
    }
}

impl Eq for Name {
    ghost laws = { Prim.search (comparing, rules) };
}

impl Hash for Name {
    ghost hash_input = { λ name. name ∷ [] };

    ghost respects_eq = { Prim.search (hashing, rules) };

    fn hash<H: Hasher>(&self, state: &mut H) {
        state.write(self.as_bytes());
    }
}

fn is_net_byte(b: u8) -> bool
    ensures { result ≡ is_net_byte b }
{
    b > b' ' && b != 0x7f && (b < b'A' || b > b'Z')
}

fn are_net_bytes(word: &[u8]) -> bool
    ensures { result ≡ list_all is_net_byte word.now }
{
    word.iter().all(|b| is_net_byte(*b))
}

fn is_net_name(word: &[u8]) -> bool
    ensures { result ≡ is_net_name word.now }
{
    !word.is_empty() && are_net_bytes(word)
}

/// The name of a net: at least one byte, and none that is a blank, a control byte or an
/// upper-case ASCII letter.
#[derive(Debug, Drop)]
pub struct NetName(pub NameBytes);

impl Model for NetName {
    ghost use Rattle.std.specs.Prelude.{List, ℕ};
    ghost use Rattle.dom_base.specs.Names.{IsNetName};

    ghost Value = { List ℕ };

    ghost view = { λ s. s.0.items };

    ghost invariant = { λ s. IsNetName s.0.items };
}

impl NetName {
    /// The name of these bytes, or none where they are no name of a net: the one way to make a name that is checked.
    pub fn new(bytes: NameBytes) -> Option<NetName>
        ensures { MatchOption result (IsNetName bytes.items → ⊥) (λ name. IsNetName bytes.items × (name ≡ bytes.items)) }
    {
        if is_net_name(bytes.as_slice()) {
            Some(NetName(bytes))
        } else {
            None
        }
    }

    /// The name that this word is, or none where it is no name of a net.
    pub fn from_word(alloc: Global, word: &[u8]) -> Result<Option<NetName>, OutOfMemory>
        ensures { IfOk result (λ found. MatchOption found (IsNetName word.now → ⊥) (λ name. IsNetName word.now × (name ≡ word.now))) }
    {
        Ok(NetName::new(bytes_of(alloc, word)?))
    }

    /// The bytes of the name.
    pub fn as_bytes(&self) -> &[u8]
        ensures bytes { result.now ≡ self.now }
        ensures good { IsNetName self.now }
    {
        self.0.as_slice()
    }
}

impl Clone for NetName {
    ghost is_clone = { λ name copy. copy ≡ name };

    fn clone(&self) -> Result<NetName, AllocError> {
        Ok(NetName(bytes_of(*self.0.allocator(), self.as_bytes())?))
    }
}

impl PartialEq for NetName {
    ghost eq = { pointwise ◌==◌ };

    ghost laws = { Prim.search (comparing, rules) };

    fn eq(&self, other: &NetName) -> bool {
        is_same(self.0.as_slice(), other.0.as_slice())
    }
}

impl Eq for NetName {
    ghost laws = { Prim.search (comparing, rules) };
}

impl Hash for NetName {
    ghost hash_input = { λ name. name ∷ [] };

    ghost respects_eq = { Prim.search (hashing, rules) };

    fn hash<H: Hasher>(&self, state: &mut H) {
        state.write(self.as_bytes());
    }
}

//! Names, each once, as the words of a line.
ghost use Rattle.std.specs.Prelude.{◌≡◌, ◌<◌, ◌+◌, ◌≤◌, drop, take, false, true, [], IfOk, MatchOption, OnOk, length, nat_eq};
ghost use Rattle.std.specs.List.{list_any};
ghost use Rattle.std.specs.Cmp.Lexicographic.{pointwise};
ghost use Rattle.deck.specs.Nets.{net_number, with_net};
ghost use Rattle.plan_text.specs.NameLists.{name_words};

use dom_base::{OutOfMemory, append_word, is_same};
use std::alloc::Global;
use std::marker::Model;

/// The greatest length of a name.
const LONGEST: usize = 0xffff_ffff;

/// Names in order, each once: a blank before each name, and how long each name is.
#[derive(Drop)]
pub struct NameList {
    words: Vec<u8>,
    sizes: Vec<u32>,
}

impl Model for NameList {
    ghost use Rattle.std.specs.Prelude.{ℕ, List};
    ghost use Rattle.plan_text.specs.NameLists.{AreWords, cut_words};

    ghost Value = { List (List ℕ) };

    ghost view = { λ n. cut_words n.sizes.items n.words.items };

    ghost invariant = { λ n. AreWords n.sizes.items n.words.items };
}

/// Whether a name is the word of this length behind the blank at this place.
#[inline(always)]
fn is_word(words: &[u8], start: usize, size: usize, name: &[u8]) -> bool
    requires { start + 1 + size ≤ length words.now }
    ensures { result ≡ pointwise nat_eq (take size (drop (start + 1) words.now)) name.now }
{
    let behind = &words[start + 1..];
    is_same(&behind[..size], name)
}

impl NameList {
    /// None.
    pub fn new(alloc: Global) -> NameList
        ensures { result ≡ [] }
    {
        NameList {
            words: Vec::new(alloc),
            sizes: Vec::new(alloc),
        }
    }

    /// A blank before each name, and the name.
    pub fn words(&self) -> &[u8]
        ensures { result.now ≡ name_words self.now }
    {
        self.words.as_slice()
    }

    /// Takes all names out.
    pub fn clear(&mut self)
        ensures { self.new ≡ [] }
    {
        self.words.clear();
        self.sizes.clear();
    }

    /// The place of a name, if it stands.
    #[inline(always)]
    fn find(&self, name: &[u8]) -> Option<u32>
        ensures { MatchOption result (list_any (pointwise nat_eq name.now) self.now ≡ false)
            (λ place. (list_any (pointwise nat_eq name.now) self.now ≡ true) × (place ≡ net_number self.now name.now)) }
    {
        let words = self.words.as_slice();
        let sizes = self.sizes.as_slice();
        let mut start = 0;
        'names: for place in 0..sizes.len() {
            let size = sizes[place] as usize;
            if is_word(words, start, size, name) {
                return Some(place as u32);
            }
            start += size + 1;
        }
        None
    }

    /// Adds a name that doesn't stand, and gives its place. The one error is out of memory.
    fn add(&mut self, name: &[u8]) -> Result<u32, OutOfMemory>
        requires { list_any (pointwise nat_eq name.now) self.old ≡ false }
        ensures place { IfOk result (λ place. place ≡ net_number self.old name.now) }
        ensures names { OnOk result (self.new ≡ with_net self.old name.now) }
    {
        let place = self.sizes.len();
        if place >= LONGEST || name.len() > LONGEST {
            return Err(OutOfMemory);
        }
        self.sizes.push(name.len() as u32)?;
        match append_word(&mut self.words, name) {
            Ok(()) => Ok(place as u32),
            Err(failed) => {
                self.sizes.pop();
                Err(failed)
            }
        }
    }

    /// The place of a name, which is added at the end where it is new. The one error is out of memory.
    pub fn number(&mut self, name: &[u8]) -> Result<u32, OutOfMemory>
        ensures place { IfOk result (λ place. place ≡ net_number self.old name.now) }
        ensures names { OnOk result (self.new ≡ with_net self.old name.now) }
    {
        match self.find(name) {
            Some(place) => Ok(place),
            None => self.add(name),
        }
    }
}

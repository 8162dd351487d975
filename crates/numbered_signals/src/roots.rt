//! The numbers of the signals of the names in all scopes, each by its place among the names of its model.
ghost use Rattle.std.specs.Prelude.{◌≡◌, ◌≢◌, ◌≤◌, ◌<◌, ◌+◌, ◌-◌, ◌++◌, ◌∷◌, IfOk, IsFalse, IsTrue, OnOk, Some, [], length, map, slice_get, slice_index_or};
ghost use Rattle.std.specs.List.{AllByRecursion};
ghost use Rattle.local_names.specs.LocalNames.{firsts, seconds};
ghost use Rattle.network.specs.Limits.{most_signals};
ghost use Rattle.numbered_signals.specs.ScopeBlocks.{AddsOwn, BindsAll, CanBind};
ghost use Rattle.numbered_signals.specs.ScopeRoots.{HasRoot, with_next, local_root, with_root};

use dom_base::OutOfMemory;
use network::Reads;
use std::alloc::Global;
use std::marker::Model;

/// The numbers of the names in all scopes: `starts` has for each scope the number of its first name, and `roots` for each number
/// the number of the signal that its name is: its own, or for a formal that an instance binds that of the actual.
#[derive(Drop)]
pub struct ScopeRoots {
    starts: Vec<usize>,
    roots: Vec<u32>,
}

impl Model for ScopeRoots {
    ghost use Rattle.numbered_signals.specs.ScopeRoots.{ScopeRootsData};

    ghost Value = { ScopeRootsData };

    ghost view = { λ r. record { starts = r.starts.items; roots = r.roots.items } };
}

impl ScopeRoots {
    /// No numbers.
    pub fn new(alloc: Global) -> ScopeRoots
        ensures starts { result.starts ≡ [] }
        ensures roots { result.roots ≡ [] }
    {
        ScopeRoots {
            starts: Vec::new(alloc),
            roots: Vec::new(alloc),
        }
    }

    /// Whether no scope has numbers.
    pub fn is_empty(&self) -> bool
        ensures none { IsTrue result → length self.now.starts ≡ 0 }
        ensures some { IsFalse result → length self.now.starts ≢ 0 }
    {
        self.starts.is_empty()
    }

    /// How many numbers there are.
    pub fn len(&self) -> usize
        ensures { result ≡ length self.now.roots }
    {
        self.roots.len()
    }

    /// The same in 32 bits.
    pub fn count(&self) -> u32
        requires few { length self.now.roots ≤ most_signals }
        ensures { result ≡ length self.now.roots }
    {
        self.roots.len() as u32
    }

    /// The number of the signal of the name at a place among those of a scope's model.
    pub fn root(&self, scope: usize, local: u32) -> u32
        requires there { HasRoot self.now scope local }
        ensures { result ≡ local_root self.now scope local }
    {
        self.roots[self.starts[scope] + local as usize]
    }

    /// The same for one of some names; 0 where there is no such one.
    pub fn root_at(&self, scope: usize, locals: &[u32], place: usize) -> u32
        requires there { AllByRecursion (HasRoot self.now scope) locals.now }
        ensures { result ≡ slice_index_or (map (local_root self.now scope) locals.now) place 0 }
    {
        match locals.get(place) {
            Some(local) => self.root(scope, *local),
            None => 0,
        }
    }

    /// The same for one of some names, if there is such a one.
    pub fn some_root(&self, scope: usize, locals: &[u32], place: usize) -> Option<u32>
        requires there { AllByRecursion (HasRoot self.now scope) locals.now }
        ensures { result ≡ slice_get (map (local_root self.now scope) locals.now) place }
    {
        match locals.get(place) {
            Some(local) => Some(self.root(scope, *local)),
            None => None,
        }
    }

    /// The same for some names.
    pub fn roots_of(
        &self,
        alloc: Global,
        scope: usize,
        locals: &[u32],
    ) -> Result<Vec<u32>, OutOfMemory>
        requires there { AllByRecursion (HasRoot self.now scope) locals.now }
        ensures { IfOk result (λ all. all.items ≡ map (local_root self.now scope) locals.now) }
    {
        let mut all = Vec::with_capacity(alloc, locals.len())?;
        for local in locals {
            all.push(self.root(scope, *local))?;
        }
        Ok(all)
    }

    /// The same for the names that a table reads.
    pub fn reads_of(
        &self,
        alloc: Global,
        scope: usize,
        locals: &[u32],
    ) -> Result<Reads, OutOfMemory>
        requires there { AllByRecursion (HasRoot self.now scope) locals.now }
        ensures { IfOk result (λ reads. reads.items ≡ map (local_root self.now scope) locals.now) }
    {
        let mut reads = Reads::with_capacity(alloc, locals.len())?;
        for local in locals {
            reads.push(self.root(scope, *local))?;
        }
        Ok(reads)
    }

    /// Appends a number. The one error is out of memory.
    fn push(&mut self, number: u32) -> Result<(), OutOfMemory>
        ensures { OnOk result (self.new ≡ with_next self.old number) }
    {
        self.roots.push(number)?;
        Ok(())
    }

    /// Appends so many names of the scope that comes, each with its own number.
    pub fn push_own(&mut self, count: usize) -> Result<(), OutOfMemory>
        requires few { length self.old.roots + count ≤ most_signals }
        ensures { OnOk result (AddsOwn count self.old self.new) }
    {
        let start = self.len();
        for index in 0..count {
            self.push((start + index) as u32)?;
        }
        Ok(())
    }

    /// Appends a scope, whose first name has this number.
    pub fn push_start(&mut self, start: usize) -> Result<(), OutOfMemory>
        ensures starts { OnOk result (self.new.starts ≡ self.old.starts ++ start ∷ []) }
        ensures roots { self.new.roots ≡ self.old.roots }
    {
        self.starts.push(start)?;
        Ok(())
    }

    /// Sets the number of the signal of a formal, of a block that begins with `start`, to that of its actual in the scope above.
    fn bind(&mut self, start: usize, above: usize, formal: u32, actual: u32)
        requires formal { start + formal < length self.old.roots }
        requires actual { HasRoot self.old above actual }
        ensures { self.new ≡ with_root self.old (start + formal) (local_root self.old above actual) }
    {
        let root = self.root(above, actual);
        self.roots[start + formal as usize] = root;
    }

    /// Sets the numbers of the signals of all formals of some pairs of a formal and an actual. The first pair of a formal counts.
    pub fn bind_all(&mut self, start: usize, above: usize, pairs: &[u32])
        requires { CanBind self.old start above pairs.now }
        ensures { BindsAll start above pairs.now self.old self.new }
    {
        for index in 0..pairs.len() / 2 {
            let (formal, actual) = pair_from_last(pairs, index);
            self.bind(start, above, formal, actual);
        }
    }
}

/// The pair at this index from the last one on.
fn pair_from_last(pairs: &[u32], index: usize) -> (u32, u32)
    requires { index < length (firsts pairs.now) }
    ensures formal { slice_get (firsts pairs.now) (length (firsts pairs.now) - 1 - index) ≡ Some result.0 }
    ensures actual { slice_get (seconds pairs.now) (length (firsts pairs.now) - 1 - index) ≡ Some result.1 }
{
    let place = 2 * (pairs.len() / 2 - 1 - index);
    (pairs[place], pairs[place + 1])
}

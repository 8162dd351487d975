//! Needed pairs by counts of their uses: a pair is needed where it is used.
ghost use Rattle.std.specs.Prelude.{IfOk, List, ℕ, Bool, true, false, not, cond, ◌++◌, ◌≡◌, ◌<◌, ◌≤◌, ◌+◌, ◌*◌, ◌^◌, [], length};
ghost use Rattle.dual_rail.specs.declared.signed.SignedNode.{SignedNode as NodeData};
ghost use Rattle.phase_assign.specs.LookedPairs.{looked_pairs};
ghost use Rattle.phase_assign.specs.Refusals.{IsSignChangeRefused};
ghost use Rattle.phase_assign.specs.Uses.{AreArms, AreBelow, AreUses, HasFewRoots, HasRoots, IsSupplied, asked, is_pair, living, one_if, times, used};

use crate::looked::Looked;
use crate::pairs::{Arms, asked_for};
use dom_base::OutOfMemory;
use dual_rail::{Signed, SignedNode};
use std::alloc::Global;

/// No uses.
pub const NO_USES: Signed<u32> = Signed { plus: 0, minus: 0 };

/// The number of uses of a pair.
fn uses_of(uses: &[Signed<u32>], pair: SignedNode) -> u32
    requires { pair.node < length uses.now }
    ensures { result ≡ used uses.now pair.node pair.plus }
{
    uses[pair.node as usize].of(pair.plus)
}

/// Replaces the number of uses of a pair.
fn set_uses(uses: &mut [Signed<u32>], pair: SignedNode, count: u32)
    requires { pair.node < length uses.old }
    ensures { (n : ℕ) (s : Bool) → used uses.new n s ≡ cond (is_pair n s pair) count (used uses.old n s) }
{
    let own = uses[pair.node as usize];
    uses[pair.node as usize] = own.replaced(pair.plus, count);
}

/// Adds a use of a pair, and answers whether it is the first.
fn add_use(uses: &mut [Signed<u32>], pair: SignedNode) -> bool
    requires there { pair.node < length uses.old }
    requires room { used uses.old pair.node pair.plus + 1 < 2 ^ 32 }
    ensures uses { (n : ℕ) (s : Bool) → used uses.new n s ≡ used uses.old n s + one_if (is_pair n s pair) }
    ensures first { result ≡ true → used uses.old pair.node pair.plus ≡ 0 }
    ensures later { result ≡ false → 0 < used uses.old pair.node pair.plus }
{
    let before = uses_of(uses, pair);
    set_uses(uses, pair, before + 1);
    before == 0
}

/// Takes a use of a pair away, and answers whether it was the last.
fn take_use(uses: &mut [Signed<u32>], pair: SignedNode) -> bool
    requires there { pair.node < length uses.old }
    requires some { 0 < used uses.old pair.node pair.plus }
    ensures uses { (n : ℕ) (s : Bool) → used uses.new n s + one_if (is_pair n s pair) ≡ used uses.old n s }
    ensures last { result ≡ true → used uses.new pair.node pair.plus ≡ 0 }
    ensures earlier { result ≡ false → 0 < used uses.new pair.node pair.plus }
{
    let after = uses_of(uses, pair) - 1;
    set_uses(uses, pair, after);
    after == 0
}

/// Takes a use of each of these pairs away.
pub fn take_uses(uses: &mut [Signed<u32>], pairs: &[SignedNode])
    requires below { AreBelow (length uses.old) pairs.now }
    requires some { (n : ℕ) (s : Bool) → times n s pairs.now ≤ used uses.old n s }
    ensures { (n : ℕ) (s : Bool) → used uses.new n s + times n s pairs.now ≡ used uses.old n s }
{
    for pair in pairs {
        take_use(uses, *pair);
    }
}

/// Adds a use of each of these pairs.
fn add_uses(uses: &mut [Signed<u32>], pairs: &[SignedNode])
    requires below { AreBelow (length uses.old) pairs.now }
    requires room { (n : ℕ) (s : Bool) → used uses.old n s + times n s pairs.now < 2 ^ 32 }
    ensures { (n : ℕ) (s : Bool) → used uses.new n s ≡ used uses.old n s + times n s pairs.now }
{
    for pair in pairs {
        add_use(uses, *pair);
    }
}

/// What came of a sink's use with the other sign: whether fewer pairs are used then, and the pairs
/// whose uses were looked at.
#[derive(Drop)]
pub struct Exchange {
    pub fewer: bool,
    pub looked: Looked,
}

/// How often the pairs of each node are used, by arms of needed pairs and by sinks, and the number of pairs that are used.
#[derive(Drop)]
pub struct Needed {
    pub uses: Vec<Signed<u32>>,
    pub size: u64,
}

impl Needed {
    /// Adds a use of a pair, and answers whether it is the first.
    fn add(&mut self, pair: SignedNode) -> bool
        requires there { pair.node < length self.old.uses.items }
        requires room { used self.old.uses.items pair.node pair.plus + 1 < 2 ^ 32 }
        requires size { self.old.size ≡ living (used self.old.uses.items) (length self.old.uses.items) }
        requires fits { self.old.size + 1 < 2 ^ 64 }
        ensures count { length self.new.uses.items ≡ length self.old.uses.items }
        ensures uses { (n : ℕ) (s : Bool) → used self.new.uses.items n s ≡ used self.old.uses.items n s + one_if (is_pair n s pair) }
        ensures size { self.new.size ≡ living (used self.new.uses.items) (length self.old.uses.items) }
        ensures first { result ≡ true → (used self.old.uses.items pair.node pair.plus ≡ 0) × (self.new.size ≡ self.old.size + 1) }
        ensures later { result ≡ false → (0 < used self.old.uses.items pair.node pair.plus) × (self.new.size ≡ self.old.size) }
    {
        let first = add_use(self.uses.as_mut_slice(), pair);
        if first {
            self.size += 1;
        }
        first
    }

    /// Takes a use of a pair away, and answers whether it was the last.
    fn take(&mut self, pair: SignedNode) -> bool
        requires there { pair.node < length self.old.uses.items }
        requires some { 0 < used self.old.uses.items pair.node pair.plus }
        requires size { self.old.size ≡ living (used self.old.uses.items) (length self.old.uses.items) }
        ensures count { length self.new.uses.items ≡ length self.old.uses.items }
        ensures uses { (n : ℕ) (s : Bool) → used self.new.uses.items n s + one_if (is_pair n s pair) ≡ used self.old.uses.items n s }
        ensures size { self.new.size ≡ living (used self.new.uses.items) (length self.old.uses.items) }
        ensures last { result ≡ true → (used self.new.uses.items pair.node pair.plus ≡ 0) × (self.new.size + 1 ≡ self.old.size) }
        ensures earlier { result ≡ false → (0 < used self.new.uses.items pair.node pair.plus) × (self.new.size ≡ self.old.size) }
    {
        let last = take_use(self.uses.as_mut_slice(), pair);
        if last {
            self.size -= 1;
        }
        last
    }

    /// Takes uses away, each of which stands in the list, and those by the arms of each pair that is
    /// not used then, which are appended.
    pub fn withdraw(&mut self, arms: &[Arms], work: &mut Vec<SignedNode>) -> Result<(), OutOfMemory>
        requires arms { AreArms arms.now }
        requires count { length self.old.uses.items ≡ length arms.now }
        requires size { self.old.size ≡ living (used self.old.uses.items) (length arms.now) }
        requires below { AreBelow (length arms.now) work.old.items }
        requires uses { (roots : List NodeData) × AreUses arms.now (used self.old.uses.items) roots [] work.old.items }
        ensures count { IfOk result (λ u. length self.new.uses.items ≡ length arms.now) }
        ensures size { IfOk result (λ u. self.new.size ≡ living (used self.new.uses.items) (length arms.now)) }
        ensures below { IfOk result (λ u. AreBelow (length arms.now) work.new.items) }
        ensures uses { IfOk result (λ u. (roots : List NodeData) → AreUses arms.now (used self.old.uses.items) roots [] work.old.items
            → AreUses arms.now (used self.new.uses.items) roots [] []) }
        ensures gone { IfOk result (λ u. (n : ℕ) (s : Bool)
            → used self.new.uses.items n s + times n s work.new.items ≡ used self.old.uses.items n s) }
    {
        let mut done = 0;
        'uses: while done < work.len() {
            let pair = work[done];
            done += 1;
            if self.take(pair) {
                arms[pair.node as usize].push(work, pair.plus)?;
            }
        }
        Ok(())
    }

    /// Adds uses, each of which stands in the list, and those by the arms of each pair that was not
    /// used before, which are appended. It stops where so many pairs are used; the list then has those
    /// that were added.
    pub fn supply(
        &mut self,
        arms: &[Arms],
        work: &mut Vec<SignedNode>,
        limit: u64,
    ) -> Result<(), OutOfMemory>
        requires arms { AreArms arms.now }
        requires count { length self.old.uses.items ≡ length arms.now }
        requires size { self.old.size ≡ living (used self.old.uses.items) (length arms.now) }
        requires below { AreBelow (length arms.now) work.old.items }
        requires uses { (roots : List NodeData) × HasFewRoots arms.now roots
            × AreUses arms.now (used self.old.uses.items) roots work.old.items [] }
        ensures count { IfOk result (λ u. length self.new.uses.items ≡ length arms.now) }
        ensures size { IfOk result (λ u. self.new.size ≡ living (used self.new.uses.items) (length arms.now)) }
        ensures below { IfOk result (λ u. AreBelow (length arms.now) work.new.items) }
        ensures uses { IfOk result (λ u. (roots : List NodeData) → AreUses arms.now (used self.old.uses.items) roots work.old.items []
            → IsSupplied arms.now (used self.new.uses.items) roots self.new.size limit) }
        ensures come { IfOk result (λ u. (n : ℕ) (s : Bool)
            → used self.new.uses.items n s ≡ used self.old.uses.items n s + times n s work.new.items) }
    {
        let mut done = 0;
        'uses: while done < work.len() && self.size < limit {
            let pair = work[done];
            done += 1;
            if self.add(pair) {
                arms[pair.node as usize].push(work, pair.plus)?;
            }
        }
        work.truncate(done);
        Ok(())
    }

    /// Takes uses away that were added, and adds those that were taken away, when so many pairs were
    /// used.
    fn restore(&mut self, gone: &[SignedNode], come: &[SignedNode], size: u64)
        requires gone { AreBelow (length self.old.uses.items) gone.now }
        requires come { AreBelow (length self.old.uses.items) come.now }
        requires some { (n : ℕ) (s : Bool) → times n s come.now ≤ used self.old.uses.items n s }
        requires room { (n : ℕ) (s : Bool) → used self.old.uses.items n s + times n s gone.now < 2 ^ 32 + times n s come.now }
        ensures count { length self.new.uses.items ≡ length self.old.uses.items }
        ensures uses { (n : ℕ) (s : Bool)
            → used self.new.uses.items n s + times n s come.now ≡ used self.old.uses.items n s + times n s gone.now }
        ensures size { self.new.size ≡ size }
    {
        take_uses(self.uses.as_mut_slice(), come);
        add_uses(self.uses.as_mut_slice(), gone);
        self.size = size;
    }

    /// Takes a sink's use of a pair with a sign away, and adds its use with the other sign; where no
    /// fewer pairs are used then, all is as before.
    pub fn exchange(
        &mut self,
        alloc: Global,
        arms: &[Arms],
        target: Option<SignedNode>,
        sign: bool,
    ) -> Result<Exchange, OutOfMemory>
        requires arms { AreArms arms.now }
        requires count { length self.old.uses.items ≡ length arms.now }
        requires size { self.old.size ≡ living (used self.old.uses.items) (length arms.now) }
        requires below { (s : Bool) → AreBelow (length arms.now) (asked target s) }
        requires uses { (others : List NodeData) × HasFewRoots arms.now (others ++ asked target sign)
            × AreUses arms.now (used self.old.uses.items) others [] (asked target sign) }
        ensures count { IfOk result (λ x. length self.new.uses.items ≡ length arms.now) }
        ensures size { IfOk result (λ x. self.new.size ≡ living (used self.new.uses.items) (length arms.now)) }
        ensures below { IfOk result (λ x. AreBelow (length arms.now) (looked_pairs x.looked)) }
        ensures elsewhere { IfOk result (λ x. (n : ℕ) (s : Bool) → times n s (looked_pairs x.looked) ≡ 0
            → used self.new.uses.items n s ≡ used self.old.uses.items n s) }
        ensures lower { IfOk result (λ x. x.fewer ≡ true → self.new.size < self.old.size) }
        ensures changed { IfOk result (λ x. x.fewer ≡ true → (others roots : List NodeData)
            → AreUses arms.now (used self.old.uses.items) others [] (asked target sign)
            → HasRoots others (asked target (not sign)) roots → AreUses arms.now (used self.new.uses.items) roots [] []) }
        ensures kept { IfOk result (λ x. x.fewer ≡ false → (n : ℕ) (s : Bool)
            → used self.new.uses.items n s ≡ used self.old.uses.items n s) }
        ensures refused { IfOk result (λ x. x.fewer ≡ false
            → IsSignChangeRefused arms.now (used self.old.uses.items) target sign (looked_pairs x.looked)) }
    {
        let before = self.size;
        let mut gone = asked_for(alloc, target, sign)?;
        self.withdraw(arms, &mut gone)?;
        let mut come = asked_for(alloc, target, !sign)?;
        self.supply(arms, &mut come, before)?;
        if self.size < before {
            return Ok(Exchange {
                fewer: true,
                looked: Looked { gone, come },
            });
        }
        self.restore(gone.as_slice(), come.as_slice(), before);
        Ok(Exchange {
            fewer: false,
            looked: Looked { gone, come },
        })
    }
}

//! Nets that are joined, as a forest: of each net the one above it, of a smaller number, or itself at the top.
ghost use Rattle.std.specs.Prelude.{◌≡◌, ◌<◌, ◌^◌, ◌↔◌, ◌⊎◌, ℕ, length, All};
ghost use Rattle.switch_model.specs.Joins.{AreJoined, AreTopsOf, IsJoinForest, IsTopMoved, above, top_of};

/// The top above a net.
pub fn top(parents: &[u32], net: u32) -> u32
    requires forest { IsJoinForest parents.now }
    requires within { net < length parents.now }
    ensures { result ≡ top_of parents.now net }
{
    let mut at = net;
    'up: while parents[at as usize] != at {
        at = parents[at as usize];
    }
    at
}

/// The top above a net. Nets on the way come to stand nearer to it.
pub fn lift(parents: &mut Vec<u32>, net: u32) -> u32
    requires forest { IsJoinForest parents.old.items }
    requires within { net < length parents.old.items }
    ensures top { result ≡ top_of parents.old.items net }
    ensures forest { IsJoinForest parents.new.items }
    ensures long { length parents.new.items ≡ length parents.old.items }
    ensures tops { (n : ℕ) → top_of parents.new.items n ≡ top_of parents.old.items n }
{
    let mut at = net;
    'up: while parents[at as usize] != at {
        lower(parents, at);
        at = parents[at as usize];
    }
    at
}

/// A net comes to stand below the one that is twice above it.
fn lower(parents: &mut Vec<u32>, net: u32)
    requires forest { IsJoinForest parents.old.items }
    requires within { net < length parents.old.items }
    ensures forest { IsJoinForest parents.new.items }
    ensures long { length parents.new.items ≡ length parents.old.items }
    ensures tops { (n : ℕ) → top_of parents.new.items n ≡ top_of parents.old.items n }
    ensures above { above parents.new.items net ≡ above parents.old.items (above parents.old.items net) }
{
    let once = parents[net as usize];
    parents[net as usize] = parents[once as usize];
}

/// Nets, by rising number, come to stand right below their tops, where all nets below these are among them.
pub fn flatten(parents: &mut Vec<u32>, nets: &[u32])
    requires forest { IsJoinForest parents.old.items }
    requires within { All (λ net. net < length parents.old.items) nets.now }
    ensures forest { IsJoinForest parents.new.items }
    ensures long { length parents.new.items ≡ length parents.old.items }
    ensures tops { (n : ℕ) → top_of parents.new.items n ≡ top_of parents.old.items n }
{
    for net in nets {
        lower(parents, *net);
    }
}

/// All nets come to stand right below their tops.
pub fn flatten_all(parents: &mut Vec<u32>)
    requires forest { IsJoinForest parents.old.items }
    requires few { length parents.old.items < 2 ^ 32 }
    ensures forest { IsJoinForest parents.new.items }
    ensures long { length parents.new.items ≡ length parents.old.items }
    ensures tops { (n : ℕ) → top_of parents.new.items n ≡ top_of parents.old.items n }
{
    for net in 0..parents.len() as u32 {
        lower(parents, net);
    }
}

/// Joins two nets, and gives the top that stays and the one that goes below it.
pub fn join(parents: &mut Vec<u32>, a: u32, b: u32) -> (u32, u32)
    requires forest { IsJoinForest parents.old.items }
    requires a { a < length parents.old.items }
    requires b { b < length parents.old.items }
    ensures forest { IsJoinForest parents.new.items }
    ensures long { length parents.new.items ≡ length parents.old.items }
    ensures joined { (x y : ℕ) → AreJoined parents.new.items x y ↔ AreJoined parents.old.items x y
        ⊎ ((AreJoined parents.old.items x a × AreJoined parents.old.items b y)
        ⊎ (AreJoined parents.old.items x b × AreJoined parents.old.items a y)) }
    ensures both { AreTopsOf parents.old.items a b result.0 result.1 }
    ensures tops { (n : ℕ) → IsTopMoved parents.old.items parents.new.items result.0 result.1 n }
{
    let first = lift(parents, a);
    let second = lift(parents, b);
    if first < second {
        parents[second as usize] = first;
        (first, second)
    } else {
        parents[first as usize] = second;
        (second, first)
    }
}

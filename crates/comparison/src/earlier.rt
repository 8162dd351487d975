//! Plans whose cells read only cells before them.
ghost use Rattle.std.specs.Prelude.{◌≡◌, ◌+◌, ◌*◌, ◌<◌, ◌^◌, true, length};
ghost use Rattle.clock_phase.specs.Plans.{ReadEarlierCells, trees_of};
ghost use Rattle.sp_network.specs.Tree.{EachLeaf};
ghost use Rattle.sp_network.specs.TypedTree.{tree_of};

use dom_base::ToVss;
use sp_network::{GatePlan, Sp};

/// Whether all gates of a tree have numbers below this one.
fn reads_below(tree: &Sp<ToVss>, count: u32) -> bool
    ensures { result ≡ true → EachLeaf (λ gate. gate < count) (tree_of tree.now) }
{
    match tree {
        Sp::Leaf { gate, .. } => *gate < count,
        Sp::Series(left, right) => {
            let (left, right) = (reads_below(left, count), reads_below(right, count));
            left && right
        }
        Sp::Parallel(left, right) => {
            let (left, right) = (reads_below(left, count), reads_below(right, count));
            left && right
        }
    }
}

/// Whether each cell reads only rails of so many leaves and cells before it.
pub fn read_earlier(plans: &[GatePlan], leaves: u32) -> bool
    requires { 2 * leaves + length plans.now < 2 ^ 32 }
    ensures { result ≡ true → ReadEarlierCells leaves (trees_of plans.now) }
{
    for k in 0..plans.len() {
        if !reads_below(&plans[k].tree, 2 * leaves + k as u32) {
            return false;
        }
    }
    true
}

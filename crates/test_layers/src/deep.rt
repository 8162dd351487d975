//! A deep tree: its calls and its drop stand 10,000 levels on a stack of 8 MB.
ghost use Rattle.std.specs.Prelude.{◌≡◌, ◌<◌, ◌+◌, IfOk};
ghost use Rattle.sp_network.specs.Tree.{EachLeaf, leaves};
ghost use Rattle.sp_network.specs.TypedTree.{most_leaves, tree_of};

use dom_base::{OutOfMemory, ToVss, Tri};
use sp_network::Sp;
use std::alloc::Global;
use std::test::Fail;

/// A chain of leaves in series, each with the gate 0, one more than `levels`.
fn chain(alloc: Global, levels: u32) -> Result<Sp<ToVss>, OutOfMemory>
    requires { levels < most_leaves }
    ensures leaves { IfOk result (λ tree. leaves (tree_of tree) ≡ levels + 1) }
    ensures gates { IfOk result (λ tree. EachLeaf (λ gate. gate < 1) (tree_of tree)) }
{
    let mut tree = Sp::Leaf {
        gate: 0,
        rail: ToVss,
    };
    for _ in 0..levels {
        let leaf = Box::new(
            alloc,
            Sp::Leaf {
                gate: 0,
                rail: ToVss,
            },
        )?;
        tree = Sp::Series(Box::new(alloc, tree)?, leaf);
    }
    Ok(tree)
}

#[test]
fn deep_tree(rt: HostRuntime) -> Result<(), Fail> {
    let alloc = rt.alloc();
    let tree = chain(alloc, 10_000)?;
    assert_eq!(rt;
        (tree.leaves(), tree.width(), tree.height()),
        (10_001, 1, 10_001)
    );
    assert_eq!(rt; tree.conducts(&[Tri::One]), Tri::One);
    tree.dual(alloc)?;
    Ok(())
}

//! A tree and its dual, worked by hand.
ghost use Rattle.std.specs.Prelude.{◌≡◌, IfOk};
ghost use Rattle.sp_network.specs.Tree.{Leaf, Series};
ghost use Rattle.sp_network.specs.TypedTree.{tree_of};

use dom_base::{OutOfMemory, ToVss, Tri};
use sp_network::Sp;
use std::alloc::Global;
use std::test::Fail;

/// Two leaves in series towards ground, with the gates 0 and 1.
fn series_of_two(alloc: Global) -> Result<Sp<ToVss>, OutOfMemory>
    ensures { IfOk result (λ tree. tree_of tree ≡ Series (Leaf 0) (Leaf 1)) }
{
    let upper = Box::new(
        alloc,
        Sp::Leaf {
            gate: 0,
            rail: ToVss,
        },
    )?;
    let lower = Box::new(
        alloc,
        Sp::Leaf {
            gate: 1,
            rail: ToVss,
        },
    )?;
    Ok(Sp::Series(upper, lower))
}

/// The dual is two leaves in parallel towards supply; where one of two gates is on, the series doesn't
/// conduct and the dual does.
#[test]
fn dual_of_a_series(rt: HostRuntime) -> Result<(), Fail> {
    let alloc = rt.alloc();
    let series = series_of_two(alloc)?;
    let dual = series.dual(alloc)?;
    assert_eq!(rt;
        (series.leaves(), series.width(), series.height()),
        (2, 1, 2)
    );
    assert_eq!(rt; (dual.leaves(), dual.width(), dual.height()), (2, 2, 1));
    let values = [Tri::One, Tri::Zero];
    assert_eq!(rt; series.conducts(&values), Tri::Zero);
    assert_eq!(rt; dual.conducts(&values), Tri::One);
    Ok(())
}

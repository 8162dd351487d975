//! The plans of the whole trees of cells: those of both trees of a compound cell side by side.
ghost use Rattle.std.specs.Prelude.{◌≡◌, IfOk, length, map};
ghost use Rattle.sp_network.specs.TypedTree.{tree_of};
ghost use Rattle.clock_phase.specs.Plans.{clocks_of};
ghost use Rattle.tree_map.specs.MappedCover.{plan_trees};
ghost use Rattle.compound_cell.specs.CompoundCells.{whole_tree};
ghost use Rattle.compound_plan.specs.CellPlans.{clock_of, trees_of};
ghost use Rattle.tree_map.specs.CompoundCover.{cell_trees};
ghost use Rattle.compound_flow.specs.WholePlans.{is_compound, parted, parted_trees, plan_clocks};

use compound_plan::CellPlan;
use dom_base::OutOfMemory;
use sp_network::{GatePlan, Sp};
use std::alloc::Global;

/// The plans of the whole trees of cells, and which of the cells are compound.
#[derive(Drop)]
pub struct WholePlans {
    pub plans: Vec<GatePlan>,
    pub compound: Vec<bool>,
}

/// Whether a cell is compound.
pub fn is_compound(plan: &CellPlan) -> bool
    ensures { result ≡ is_compound (trees_of plan.now) }
{
    match plan {
        CellPlan::Simple(_) => false,
        CellPlan::Compound { .. } => true,
    }
}

/// The plan of the whole tree of a cell. The one error is out of memory.
fn whole_plan(alloc: Global, plan: CellPlan) -> Result<GatePlan, OutOfMemory>
    ensures { IfOk result (λ whole. tree_of whole.tree ≡ whole_tree (trees_of plan)) }
{
    match plan {
        CellPlan::Simple(simple) => Ok(simple),
        CellPlan::Compound { left, right, clock } => {
            let left = Box::new(alloc, left)?;
            let right = Box::new(alloc, right)?;
            let tree = Sp::Parallel(left, right);
            Ok(GatePlan { tree, clock })
        }
    }
}

/// The plans of the whole trees of cells, in order. The one error is out of memory.
pub fn whole_plans(alloc: Global, plans: Vec<CellPlan>) -> Result<WholePlans, OutOfMemory>
    ensures trees { IfOk result (λ w. plan_trees w.plans.items ≡ map whole_tree (cell_trees plans.items)) }
    ensures compound { IfOk result (λ w. w.compound.items ≡ map is_compound (cell_trees plans.items)) }
{
    let mut wholes = Vec::with_capacity(alloc, plans.len())?;
    let mut compound = Vec::with_capacity(alloc, plans.len())?;
    'cells: for plan in plans {
        compound.push(is_compound(&plan))?;
        let whole = whole_plan(alloc, plan)?;
        wholes.push(whole)?;
    }
    Ok(WholePlans {
        plans: wholes,
        compound,
    })
}

/// The plan of the cell of a whole tree: a compound one has two trees side by side.
fn cell_plan(whole: GatePlan, compound: bool) -> CellPlan
    ensures trees { trees_of result ≡ parted compound (tree_of whole.tree) }
    ensures clock { clock_of result ≡ whole.clock }
{
    let GatePlan { tree, clock } = whole;
    if !compound {
        return CellPlan::Simple(GatePlan { tree, clock });
    }
    match tree {
        Sp::Parallel(left, right) => CellPlan::Compound {
            left: Box::into_inner(left),
            right: Box::into_inner(right),
            clock,
        },
        other => CellPlan::Simple(GatePlan { tree: other, clock }),
    }
}

/// The plans of the cells of these whole trees, in order. The one error is out of memory.
pub fn cell_plans(
    alloc: Global,
    wholes: Vec<GatePlan>,
    compound: &[bool],
) -> Result<Vec<CellPlan>, OutOfMemory>
    requires { length compound.now ≡ length wholes.items }
    ensures trees { IfOk result (λ plans. cell_trees plans.items ≡ parted_trees compound.now (plan_trees wholes.items)) }
    ensures clocks { IfOk result (λ plans. plan_clocks plans.items ≡ clocks_of wholes.items) }
{
    let mut plans = Vec::with_capacity(alloc, wholes.len())?;
    'cells: for whole in wholes {
        let place = plans.len();
        plans.push(cell_plan(whole, compound[place]))?;
    }
    Ok(plans)
}

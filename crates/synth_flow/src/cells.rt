//! Cells of a deck, one after the other.
ghost use Rattle.std.specs.Prelude.{◌≡◌, ◌≤◌, ◌<◌, ◌+◌, ◌^◌, OnOk, length};
ghost use Rattle.deck.specs.Limits.{most_devices};
ghost use Rattle.deck.specs.NamedDevices.{with_devices};
ghost use Rattle.tree_map.specs.MappedCover.{plan_trees};
ghost use Rattle.style_costs.specs.Styles.{cost_in};
ghost use Rattle.synth_flow.specs.MadeDecks.{AreGated, HasRoomForCells, cells_from};

use deck::{Circuit, reserve_nets};
use dom_base::{NetName, OutOfMemory};
use domino_cell::{CellNames, Style, push_numbered_domino};
use sp_network::GatePlan;
use std::alloc::Global;

/// How many nets a cell of two switches has at most that no other cell has.
const NETS_OF_A_CELL: usize = 4;

/// Appends the cells of these plans in this style, in order from cell 0, where gate by gate `names` has the net that
/// gates it. The one error is out of memory, and then some of the cells may stand at the end.
#[tactic(auto, using(domino_cell::proofs::NetsAt::no_numbers))]
pub fn push_cells(
    alloc: Global,
    circuit: &mut Circuit,
    style: Style,
    plans: &[GatePlan],
    names: &[NetName],
) -> Result<(), OutOfMemory>
    requires few { length plans.now < 2 ^ 32 }
    requires nets { HasRoomForCells circuit.old plans.now }
    requires gates { AreGated names.now 0 plans.now }
    requires room { length circuit.old.devices + cost_in style (plan_trees plans.now) ≤ most_devices }
    ensures { OnOk result (circuit.new ≡ with_devices circuit.old (cells_from style names.now 0 plans.now)) }
{
    let outputs = names.len().saturating_sub(plans.len());
    let mut numbers = vec![in alloc; None; names.len()]?;
    let mut nets = CellNames::new(alloc, 1, 0)?;
    reserve_nets(circuit, plans.len().saturating_mul(NETS_OF_A_CELL));
    'cells: for k in 0..plans.len() {
        let plan = &plans[k];
        let gate = outputs.saturating_add(k);
        nets.renumber(alloc, plan.clock, k as u32)?;
        push_numbered_domino(
            alloc,
            circuit,
            plan,
            names,
            k as u32,
            style,
            gate,
            &nets,
            numbers.as_mut_slice(),
        )?;
    }
    Ok(())
}

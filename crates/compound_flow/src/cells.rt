//! Simple and compound cells of a deck, one after the other.
ghost use Rattle.std.specs.Prelude.{◌≡◌, ◌≤◌, ◌<◌, ◌+◌, ◌*◌, ◌^◌, OnOk, length, [], List, ℕ};
ghost use Rattle.deck.specs.Limits.{most_devices};
ghost use Rattle.deck.specs.NamedDevices.{with_devices};
ghost use Rattle.deck.specs.Nets.{net_name};
ghost use Rattle.compound_plan.specs.Plans.{compound_costs, cost};
ghost use Rattle.synth_flow.specs.BareDecks.{IsBareDeck, gate_nets};
ghost use Rattle.synth_flow.specs.MadeDecks.{HasRoomForCells};
ghost use Rattle.compound_flow.specs.MadeCells.{AreCompoundPlans, HaveClocks, HaveGates, named_cells, plain_cells};
ghost use Rattle.tree_map.specs.CompoundCover.{cell_trees};

use compound_cell::push_compound;
use compound_plan::CellPlan;
use deck::Circuit;
use dom_base::{NetName, OutOfMemory};
use std::alloc::Global;
use synth_flow::gate_names;

/// Appends the cells of these plans, in order from cell 0, where gate by gate `names` has the net that gates it. The one
/// error is out of memory, and then some of the cells may stand at the end.
fn push_cells(
    alloc: Global,
    circuit: &mut Circuit,
    plans: &[CellPlan],
    names: &[NetName],
) -> Result<(), OutOfMemory>
    requires few { length plans.now < 2 ^ 32 }
    requires nets { HasRoomForCells circuit.old [] }
    requires clocks { HaveClocks circuit.old (plain_cells plans.now) }
    requires gates { HaveGates names.now 0 (plain_cells plans.now) }
    requires room { length circuit.old.devices + cost compound_costs (cell_trees plans.now) ≤ most_devices }
    ensures { OnOk result (circuit.new ≡ with_devices circuit.old (named_cells (net_name names.now) 0 (plain_cells plans.now))) }
{
    'cells: for k in 0..plans.len() {
        circuit.whole();
        push_compound(alloc, circuit, &plans[k], names, k as u32)?;
    }
    Ok(())
}

/// Appends the cells of these plans to a circuit with the ports of a deck and no devices, over pins and so many latches
/// as leaves. The one error is out of memory, and then some of the cells may stand at the end.
pub fn push_deck_cells(
    alloc: Global,
    circuit: &mut Circuit,
    pins: &[NetName],
    plans: &[CellPlan],
    leaves: u32,
) -> Result<(), OutOfMemory>
    requires bare { (latches : ℕ) × (sinks : List (List ℕ)) × IsBareDeck circuit.old latches pins.now sinks [] }
    requires clocks { HaveClocks circuit.old (plain_cells plans.now) }
    requires few { leaves ≤ 200000 }
    requires plans { AreCompoundPlans leaves plans.now }
    ensures { OnOk result (circuit.new ≡ with_devices circuit.old
        (named_cells (net_name (gate_nets pins.now leaves (2 * leaves + length plans.now))) 0 (plain_cells plans.now))) }
{
    let gates = gate_names(alloc, pins, leaves, 2 * leaves + plans.len() as u32)?;
    push_cells(alloc, circuit, plans, gates.as_slice())?;
    Ok(())
}

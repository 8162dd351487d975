//! The devices of a deck with compound cells, group by group.
ghost use Rattle.std.specs.Prelude.{◌≡◌, ◌≤◌, ◌+◌, All, Bool, OnOk, [], filter, length, map, ℕ};
ghost use Rattle.std.specs.List.{range_with_len};
ghost use Rattle.deck.specs.NamedDevices.{with_devices};
ghost use Rattle.network.specs.declared.network.NetLatch.{NetLatch};
ghost use Rattle.dual_rail.specs.Uses.{IsEndThere};
ghost use Rattle.synth_flow.specs.BareDecks.{IsBareDeck};
ghost use Rattle.synth_flow.specs.SinkParts.{end_in};
ghost use Rattle.compound_flow.specs.MadeCells.{AreCompoundPlans, HaveClocks, plain_cells};
ghost use Rattle.compound_flow.specs.MadeDecks.{compound_devices};
ghost use Rattle.compound_flow.specs.MadeSinks.{IsSinkName};

use crate::cells::push_deck_cells;
use crate::sinks::push_sinks;
use compound_plan::CellPlan;
use deck::Circuit;
use dom_base::{NetName, OutOfMemory};
use dual_rail::End;
use network::NetLatch;
use std::alloc::Global;
use synth_flow::{push_complements, push_latches};

/// Appends the devices of a deck to a circuit with its ports and no devices: cells, inverters of the complements that are
/// named, latches, and static gates of sinks. The one error is out of memory.
pub fn push_deck(
    alloc: Global,
    circuit: &mut Circuit,
    pins: &[NetName],
    sinks: &[NetName],
    latches: &[NetLatch],
    plans: &[CellPlan],
    complements: &[u32],
    ends: &[End],
    cells: &[u32],
) -> Result<(), OutOfMemory>
    requires bare { IsBareDeck circuit.old (length latches.now) pins.now sinks.now [] }
    requires clocks { HaveClocks circuit.old (plain_cells plans.now) }
    requires few { length pins.now + length latches.now ≤ 200000 }
    requires few_sinks { length sinks.now ≤ 8192 }
    requires few_latches { length latches.now ≤ 8192 }
    requires plans { AreCompoundPlans (length pins.now + length latches.now) plans.now }
    requires complements { (test : ℕ → Bool)
        × (complements.now ≡ filter test (range_with_len 0 (length pins.now + length latches.now))) }
    requires sinks { All IsSinkName sinks.now }
    requires ends { All (IsEndThere (length cells.now)) ends.now }
    requires one_end { length ends.now ≡ length sinks.now }
    ensures { OnOk result (circuit.new ≡ with_devices circuit.old (compound_devices pins.now sinks.now
        (map (λ (l : NetLatch). l.init) latches.now) (plain_cells plans.now) complements.now (map (end_in cells.now) ends.now))) }
{
    circuit.whole();
    let leaves = pins.len() as u32 + latches.len() as u32;
    push_deck_cells(alloc, circuit, pins, plans, leaves)?;
    push_complements(alloc, circuit, pins, complements)?;
    push_latches(alloc, circuit, latches)?;
    circuit.whole();
    push_sinks(alloc, circuit, pins, plans, cells, ends, sinks)?;
    Ok(())
}

//! The static gates of sinks, one after the other.
ghost use Rattle.std.specs.Prelude.{◌≡◌, ◌≤◌, ◌+◌, ◌*◌, ◌++◌, All, List, MatchOption, OnOk, codes, length, map, slice_get, ℕ};
ghost use Rattle.std.specs.Fmt.{decimal};
ghost use Rattle.deck.specs.Limits.{most_devices};
ghost use Rattle.deck.specs.NamedDevices.{with_devices};
ghost use Rattle.sp_network.specs.Tree.{Leaf, Series};
ghost use Rattle.domino_cell.specs.PushedNames.{HasRoomForGate, static_gate};
ghost use Rattle.dual_rail.specs.Uses.{IsEndThere};
ghost use Rattle.deck_form.specs.DeckNets.{dynamic_net, sink_gate};
ghost use Rattle.synth_flow.specs.SinkParts.{end_in};
ghost use Rattle.compound_law.specs.PushedDecks.{sink_tree};
ghost use Rattle.compound_flow.specs.MadeCells.{plain_cells};
ghost use Rattle.compound_flow.specs.MadeSinks.{HasRoomForSinks, has_two_trees, sink_gates};

use crate::wholes::is_compound;
use compound_cell::series_of_two;
use compound_plan::CellPlan;
use deck::{Circuit, numbered_name};
use dom_base::{NetName, OutOfMemory, ToVss};
use domino_cell::push_static;
use dual_rail::End;
use latch_bind::push_sink;
use sp_network::Sp;
use std::alloc::Global;
use synth_flow::sink_gate_name;

/// Whether cell `k` is there and is compound.
fn is_compound_at(plans: &[CellPlan], k: u32) -> bool
    ensures { result ≡ has_two_trees (slice_get (plain_cells plans.now) k) }
{
    if (k as usize) < plans.len() {
        is_compound(&plans[k as usize])
    } else {
        false
    }
}

/// The compound cell from whose two dynamic nets a sink is taken, if it is taken from those of one. Pair by pair `cells`
/// has the number of its cell.
fn compound_taken(plans: &[CellPlan], cells: &[u32], end: End) -> Option<u32>
    requires there { IsEndThere (length cells.now) end }
    ensures { (pins : List (List ℕ)) → MatchOption result
        (sink_tree pins (plain_cells plans.now) (end_in cells.now end) ≡ Leaf (sink_gate pins (end_in cells.now end)))
        (λ k. sink_tree pins (plain_cells plans.now) (end_in cells.now end) ≡ Series (Leaf (dynamic_net k)) (Leaf (codes "e" ++ decimal k))) }
{
    match end {
        End::FromDynamic(place) => {
            let k = cells[place as usize];
            if is_compound_at(plans, k) {
                Some(k)
            } else {
                None
            }
        }
        End::Const(_) | End::Literal(_) | End::FromOutput(_) => None,
    }
}

/// Appends the static gate of both dynamic nets of compound cell `k` in series, with this output. The one error is out of
/// memory.
fn push_both(alloc: Global, circuit: &mut Circuit, k: u32, out: &NetName) -> Result<(), OutOfMemory>
    requires nets { HasRoomForGate circuit.old out.now }
    requires room { length circuit.old.devices + 4 ≤ most_devices }
    ensures { OnOk result (circuit.new
        ≡ with_devices circuit.old (static_gate out.now (Series (Leaf (dynamic_net k)) (Leaf (codes "e" ++ decimal k))))) }
{
    let gate = series_of_two(alloc)?;
    let first = numbered_name(alloc, b"d", k)?;
    let second = numbered_name(alloc, b"e", k)?;
    let dynamics = [first, second];
    push_static(alloc, circuit, &gate, &dynamics, out)?;
    Ok(())
}

/// Appends the static gate of a sink with this output: of both dynamic nets of a compound cell, or the inverter of one
/// net. The one error is out of memory.
fn push_end(
    alloc: Global,
    circuit: &mut Circuit,
    pins: &[NetName],
    plans: &[CellPlan],
    cells: &[u32],
    end: &End,
    out: &NetName,
) -> Result<(), OutOfMemory>
    requires there { IsEndThere (length cells.now) end.now }
    requires nets { HasRoomForGate circuit.old out.now }
    requires room { length circuit.old.devices + 4 ≤ most_devices }
    ensures { OnOk result (circuit.new
        ≡ with_devices circuit.old (static_gate out.now (sink_tree pins.now (plain_cells plans.now) (end_in cells.now end.now)))) }
{
    match compound_taken(plans, cells, *end) {
        Some(k) => {
            push_both(alloc, circuit, k, out)?;
            Ok(())
        }
        None => {
            let gate = sink_gate_name(alloc, pins, cells, *end)?;
            push_sink(alloc, circuit, &gate, out)?;
            Ok(())
        }
    }
}

/// Appends the static gate of each sink with these ends, in order, with the output at its place. Pair by pair `cells`
/// has the number of its cell. The one error is out of memory, and then some of the gates may stand at the end.
pub fn push_sinks(
    alloc: Global,
    circuit: &mut Circuit,
    pins: &[NetName],
    plans: &[CellPlan],
    cells: &[u32],
    ends: &[End],
    outs: &[NetName],
) -> Result<(), OutOfMemory>
    requires one_each { length ends.now ≡ length outs.now }
    requires there { All (IsEndThere (length cells.now)) ends.now }
    requires nets { HasRoomForSinks circuit.old outs.now }
    requires room { length circuit.old.devices + 4 * length outs.now ≤ most_devices }
    ensures { OnOk result (circuit.new
        ≡ with_devices circuit.old (sink_gates pins.now (plain_cells plans.now) outs.now (map (end_in cells.now) ends.now))) }
{
    'sinks: for k in 0..outs.len() {
        push_end(alloc, circuit, pins, plans, cells, &ends[k], &outs[k])?;
    }
    Ok(())
}

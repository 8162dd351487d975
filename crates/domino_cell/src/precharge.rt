//! What follows the precharge of the dynamic net of a cell.
ghost use Rattle.std.specs.Prelude.{◌≡◌, ◌≤◌, ◌+◌, IfOk, OnOk, length};
ghost use Rattle.deck.specs.CircuitGrowth.{Grew};
ghost use Rattle.deck.specs.Limits.{most_devices};
ghost use Rattle.deck.specs.NamedDevices.{with_devices};
ghost use Rattle.deck.specs.NetsAt.{StandsAt};
ghost use Rattle.domino_cell.specs.HeldNames.{AreNetsOfCell, StandInCircuit, held_nets};
ghost use Rattle.domino_cell.specs.NamedTrees.{AreInnerNames};
ghost use Rattle.domino_cell.specs.StyledCells.{behind_count, behind_precharge, inner_precharges};

use crate::Style;
use crate::names::{CellNames, CellNetsAt};
use deck::{Circuit, NetAt, push_held};
use dom_base::{Kind, NetName, OutOfMemory};

/// Appends what follows the precharge of a cell with these inner nets, where its nets stand at the numbers that are
/// held for them: the keeper, or the precharge of each inner net in order. Gives the number at which the output
/// stands, where it is known. The one error is out of memory, and then some of the devices may stand at the end.
pub fn push_behind_precharge(
    circuit: &mut Circuit,
    style: Style,
    nets: &CellNames,
    inner: &[NetName],
    cell: CellNetsAt<'_>,
    dynamic: NetAt<'_>,
) -> Result<Option<u32>, OutOfMemory>
    requires named { AreNetsOfCell nets.now cell }
    requires stand { StandInCircuit circuit.old.nets cell }
    requires dynamic_is { dynamic.name.now ≡ nets.now.dynamic }
    requires dynamic { StandsAt circuit.old.nets dynamic.number dynamic.name.now }
    requires inner { AreInnerNames nets.now.front inner.now }
    requires room { length circuit.old.devices + behind_count style (length inner.now) ≤ most_devices }
    ensures devices { OnOk result (circuit.new
        ≡ with_devices circuit.old (behind_precharge style (held_nets nets.now) (length inner.now))) }
    ensures count { OnOk result (length circuit.new.devices
        ≡ length circuit.old.devices + behind_count style (length inner.now)) }
    ensures output { IfOk result (λ number. StandsAt circuit.new.nets number nets.now.output) }
    ensures grew { Grew circuit.old circuit.new }
{
    match style {
        Style::Keeper => {
            let keeper = push_held(circuit, Kind::Keep, dynamic, cell.output, cell.vdd)?;
            Ok(Some(keeper.gate))
        }
        Style::Precharge => {
            push_inner_precharges(circuit, nets, inner, cell.clock, cell.vdd)?;
            Ok(cell.output.number)
        }
    }
}

/// Appends the precharge of each of these inner nets, in order. After a refusal some of them may stand at the end.
fn push_inner_precharges(
    circuit: &mut Circuit,
    nets: &CellNames,
    inner: &[NetName],
    clock: NetAt<'_>,
    vdd: NetAt<'_>,
) -> Result<(), OutOfMemory>
    requires clock_is { clock.name.now ≡ nets.now.clock }
    requires vdd_is { vdd.name.now ≡ nets.now.vdd }
    requires clock { StandsAt circuit.old.nets clock.number clock.name.now }
    requires vdd { StandsAt circuit.old.nets vdd.number vdd.name.now }
    requires inner { AreInnerNames nets.now.front inner.now }
    requires room { length circuit.old.devices + length inner.now ≤ most_devices }
    ensures devices { OnOk result (circuit.new
        ≡ with_devices circuit.old (inner_precharges (held_nets nets.now) 0 (length inner.now))) }
    ensures grew { Grew circuit.old circuit.new }
{
    'inners: for number in 0..inner.len() {
        let net = NetAt::named(&inner[number]);
        push_held(circuit, Kind::P, net, clock, vdd)?;
    }
    Ok(())
}

//! The nets of sinks, and the nets that gate their inverters.
ghost use Rattle.std.specs.Prelude.{◌≡◌, ◌<◌, ◌+◌, ◌++◌, All, IfOk, length, map};
ghost use Rattle.std.specs.List.{range_with_len, zip};
ghost use Rattle.deck_form.specs.DeckNets.{data_net, sink_gate};
ghost use Rattle.dual_rail.specs.Uses.{IsEndThere};
ghost use Rattle.synth_flow.specs.SinkParts.{end_in, phase_of_sink};

use crate::names::{complement_name, copied_names, own_name};
use deck::{Phase, copied, fixed_name, numbered_name};
use dom_base::{NetName, OutOfMemory};
use dual_rail::{End, Rail};
use std::alloc::Global;

/// The nets of the sinks: the outputs, and the data of each of so many latches.
pub fn sink_names(
    alloc: Global,
    outs: &[NetName],
    latches: u32,
) -> Result<Vec<NetName>, OutOfMemory>
    ensures { IfOk result (λ nets. nets.items ≡ outs.now ++ map data_net (range_with_len 0 latches)) }
{
    let mut nets = copied_names(alloc, outs)?;
    'latches: for j in 0..latches {
        nets.push(numbered_name(alloc, b"x", j)?)?;
    }
    Ok(nets)
}

/// The phases of sinks with these nets and signs.
pub fn phases(alloc: Global, nets: &[NetName], signs: &[bool]) -> Result<Vec<Phase>, OutOfMemory>
    requires { length nets.now ≡ length signs.now }
    ensures { IfOk result (λ phases. phases.items ≡ map phase_of_sink (zip nets.now signs.now)) }
{
    let mut phases = Vec::with_capacity(alloc, nets.len())?;
    'sinks: for k in 0..nets.len() {
        let net = copied(&nets[k])?;
        phases.push(Phase {
            net,
            plus: signs[k],
        })?;
    }
    Ok(phases)
}

/// The net that gates the inverter of a sink: the supply of the other value, the opposite rail of a
/// literal, or the dynamic net or the output of the pair's cell.
pub fn sink_gate_name(
    alloc: Global,
    pins: &[NetName],
    cells: &[u32],
    end: End,
) -> Result<NetName, OutOfMemory>
    requires { IsEndThere (length cells.now) end }
    ensures { IfOk result (λ gate. gate ≡ sink_gate pins.now (end_in cells.now end)) }
{
    match end {
        End::Const(false) => fixed_name(alloc, b"vdd"),
        End::Const(true) => fixed_name(alloc, b"vss"),
        End::Literal(Rail { leaf, plus: true }) => complement_name(alloc, leaf),
        End::Literal(Rail { leaf, plus: false }) => own_name(alloc, pins, leaf),
        End::FromDynamic(place) => numbered_name(alloc, b"d", cells[place as usize]),
        End::FromOutput(place) => numbered_name(alloc, b"z", cells[place as usize]),
    }
}

/// The net that gates the inverter of each sink.
pub fn sink_gate_names(
    alloc: Global,
    pins: &[NetName],
    cells: &[u32],
    ends: &[End],
) -> Result<Vec<NetName>, OutOfMemory>
    requires { All (IsEndThere (length cells.now)) ends.now }
    ensures { IfOk result (λ gates. gates.items ≡ map (sink_gate pins.now) (map (end_in cells.now) ends.now)) }
{
    let mut gates = Vec::with_capacity(alloc, ends.len())?;
    'ends: for end in ends {
        gates.push(sink_gate_name(alloc, pins, cells, *end)?)?;
    }
    Ok(gates)
}

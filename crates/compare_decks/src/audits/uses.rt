//! The nets beside cells and latches, by the fifth rule.
use crate::audits::design::{Design, VDD, VSS};
use crate::audits::latches::Group;
use crate::audits::parts::Parts;
use crate::audits::words::{ends_none, gates_none, input_of};
use std::alloc::{AllocError, Global};

/// Whether a net is an inverter output that is neither an output port nor latch data, whose input is a pin or a latch output,
/// and none of these nets has that input.
fn is_complement(design: &Design, parts: &Parts, nets: &[usize], net: usize) -> bool {
    let Some(input) = input_of(&parts.inputs, net) else {
        return false;
    };
    let of_signal = design.ports.is_pin(input) || parts.is_latch_output(input);
    let is_new = nets
        .iter()
        .all(|other| input_of(&parts.inputs, *other) != Some(input));
    of_signal && is_new && !design.ports.is_out(net) && !parts.is_data(net)
}

/// The complements: inverter outputs that are neither output ports nor latch data, whose inputs are pins or latch outputs,
/// for each input the smallest one.
pub fn complements_of(
    alloc: Global,
    design: &Design,
    parts: &Parts,
) -> Result<Vec<usize>, AllocError> {
    let mut nets: Vec<usize> = Vec::new(alloc);
    for net in 0..design.names.len() {
        if is_complement(design, parts, &nets, net) {
            nets.push(net)?;
        }
    }
    Ok(nets)
}

/// Whether a sink may invert a net.
fn is_sink_input(design: &Design, parts: &Parts, net: usize) -> bool {
    parts.is_dynamic(net)
        || parts.is_output(net)
        || design.ports.is_pin(net)
        || parts.is_latch_output(net)
        || parts.complements.contains(&net)
        || net == VDD
        || net == VSS
}

/// Whether the data of a latch gates no device but those of the latch.
fn gates_own(design: &Design, group: &Group) -> bool {
    design.cards.iter().enumerate().all(|(place, card)| card.gate != group.data
        || group.places.contains(&place))
}

/// Whether a net that isn't a cell's or a latch's, or that is a sink, is used as the fifth rule has it.
fn is_used(design: &Design, parts: &Parts, net: usize, is_sink: bool) -> bool {
    let is_idle = !is_sink && ends_none(design, net) && gates_none(design, net);
    let inverts = is_sink
        && input_of(&parts.inputs, net).is_some_and(|input| is_sink_input(design, parts, input));
    let gates = gates_none(design, net) || !design.ports.is_out(net);
    let own = parts
        .groups
        .iter()
        .all(|group| group.data != net || gates_own(design, group));
    (is_idle || inverts || parts.complements.contains(&net)) && gates && own
}

/// Whether the fifth rule is broken at a net.
fn breaks(design: &Design, parts: &Parts, net: usize) -> bool {
    let ports = design.ports;
    let is_bridged = design.cards.iter().any(|card| card.drain == net
        && ports.is_source(net)
        && ports.is_source(card.source));
    let is_sink = ports.is_out(net) || parts.is_data(net);
    let is_other = !ports.is_source(net)
        && !parts.is_output(net)
        && !parts.is_in_cell(net)
        && !parts.is_in_latch(net);
    is_bridged || ((is_sink || is_other) && !is_used(design, parts, net, is_sink))
}

/// The smallest net at which the fifth rule is broken.
pub fn broken_use(design: &Design, parts: &Parts) -> Option<usize> {
    (0..design.names.len()).find(|net| breaks(design, parts, *net))
}

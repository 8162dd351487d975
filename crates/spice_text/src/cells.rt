//! The subcircuits of shapes, and the calls of groups.
ghost use Rattle.std.specs.Prelude.{◌≡◌, ◌<◌, ◌≤◌, ◌++◌, ◌∷◌, [], All, IfOk, OnOk, length, map, codes};
ghost use Rattle.std.specs.List.{enumerate_from, flat_map, position_or_len};
ghost use Rattle.std.specs.Fmt.{decimal};
ghost use Rattle.indexmap.specs.IndexSet.{insert_key};
ghost use Rattle.dom_base.specs.Names.{IsNetName};
ghost use Rattle.deck.specs.Limits.{most_devices};
ghost use Rattle.deck.specs.Nets.{IsInRange, ends as net_ends, net_name as name_of_net, numbers_used};
ghost use Rattle.spice_text.specs.Text.{deck_line};
ghost use Rattle.spice_text.specs.Cells.{
  PlacesRise,
  cell_lines,
  cell_name,
  cell_port,
  cell_ports,
  groups_from,
  same_cell_shape,
};
ghost use Rattle.spice_text.specs.GroupNets.{ArePorts, placed_calls, placed_shapes};

use crate::cards::{net_name, put_cards};
use crate::group::GroupNets;
use crate::line::put_words;
use crate::shape::Shape;
use deck::Device;
use dom_base::{
    NameBytes, NameHash, NetName, OutOfMemory, append, append_number, append_number_to_name,
    append_to_name, append_word,
};
use indexmap::IndexSet;
use std::alloc::Global;

/// Shapes, each once, in the order of their first groups.
pub type ShapeSet = IndexSet<Shape, NameHash>;

/// The shapes of groups, and the calls of their cells.
#[derive(Drop)]
pub struct PlacedGroups {
    pub shapes: ShapeSet,
    pub calls: Vec<u8>,
}

/// The number of a shape, which is added at the end where it is new. The one error is out of memory.
pub fn number_shape(shapes: &mut ShapeSet, shape: &Shape) -> Result<usize, OutOfMemory>
    ensures number { IfOk result (λ number. number ≡ position_or_len (same_cell_shape shape.now) shapes.old.keys) }
    ensures keys { OnOk result (shapes.new.keys ≡ insert_key same_cell_shape shapes.old.keys shape.now) }
{
    if let Some(number) = shapes.get_index_of(shape) {
        return Ok(number);
    }
    let (number, _) = shapes.insert_full(shape.clone()?)?;
    Ok(number)
}

/// How many nets a shape has.
#[tactic(auto, using(deck::proofs::Cuts::counting_used))]
fn net_count(shape: &[Device]) -> u64
    ensures { result ≡ numbers_used 2 (net_ends shape.now) }
{
    let mut count = 2;
    for device in shape {
        count = count
            .max(u64::from(device.drain) + 1)
            .max(u64::from(device.gate) + 1)
            .max(u64::from(device.source) + 1);
    }
    count
}

/// The name of a port of a subcircuit. The one error is out of memory.
#[tactic(auto, using(crate::proofs::CellPorts::port_is_net_name))]
fn port_name(alloc: Global, number: u64) -> Result<NetName, OutOfMemory>
    ensures { IfOk result (λ name. name ≡ cell_port number) }
{
    let mut bytes = NameBytes::new(alloc);
    append_to_name(&mut bytes, b"p")?;
    append_number_to_name(&mut bytes, number)?;
    Ok(NetName(bytes))
}

/// The name of these bytes. The one error is out of memory.
fn supply_name(alloc: Global, bytes: &[u8]) -> Result<NetName, OutOfMemory>
    requires { IsNetName bytes.now }
    ensures { IfOk result (λ name. name ≡ bytes.now) }
{
    let mut name = NameBytes::new(alloc);
    append_to_name(&mut name, bytes)?;
    Ok(NetName(name))
}

/// The supplies, as the first ports of subcircuits.
fn supply_ports(alloc: Global) -> Result<Vec<NetName>, OutOfMemory>
    ensures { IfOk result (λ ports. ArePorts ports.items) }
{
    let mut ports = Vec::new(alloc);
    ports.push(supply_name(alloc, b"vdd")?)?;
    ports.push(supply_name(alloc, b"vss")?)?;
    Ok(ports)
}

/// Adds ports of subcircuits behind those that stand, until there are so many.
fn add_ports(alloc: Global, ports: &mut Vec<NetName>, count: u64) -> Result<(), OutOfMemory>
    requires { ArePorts ports.old.items }
    ensures ports { OnOk result (ArePorts ports.new.items) }
    ensures enough { OnOk result (count ≤ length ports.new.items) }
{
    let stand = (ports.len() as u64).saturating_sub(2);
    let others = count.saturating_sub(2);
    'numbers: for number in stand..others {
        ports.push(port_name(alloc, number)?)?;
    }
    Ok(())
}

/// Appends the name of a shape's subcircuit, after a blank.
fn put_cell_name(text: &mut Vec<u8>, number: usize) -> Result<(), OutOfMemory>
    ensures { OnOk result (text.new.items ≡ text.old.items ++ 32 ∷ cell_name number) }
{
    append(text, b" cell-")?;
    append_number(text, number as u64)?;
    Ok(())
}

/// Appends the subcircuit of a shape with these ports.
fn put_cell(
    text: &mut Vec<u8>,
    number: usize,
    shape: &[Device],
    ports: &[NetName],
) -> Result<(), OutOfMemory>
    requires { ports.now ≡ cell_ports shape.now }
    ensures { OnOk result (text.new.items ≡ text.old.items ++ cell_lines (number, shape.now)) }
{
    append(text, b".subckt")?;
    put_cell_name(text, number)?;
    put_words(text, ports)?;
    append(text, b"\n")?;
    put_cards(text, ports, shape)?;
    append(text, b".ends")?;
    put_cell_name(text, number)?;
    append(text, b"\n")?;
    Ok(())
}

/// Appends the subcircuit of each shape.
pub fn put_shapes(alloc: Global, text: &mut Vec<u8>, shapes: &ShapeSet) -> Result<(), OutOfMemory>
    ensures { OnOk result (text.new.items ≡ text.old.items ++ flat_map cell_lines (enumerate_from 0 shapes.now.keys)) }
{
    let mut ports = supply_ports(alloc)?;
    for (number, shape) in shapes.as_slice().iter().enumerate() {
        let listed = shape.devices();
        let count = net_count(listed);
        add_ports(alloc, &mut ports, count)?;
        let all = ports.as_slice();
        put_cell(text, number, listed, &all[..count as usize])?;
    }
    Ok(())
}

/// Appends a blank and a name for each of these nets.
fn put_nets(text: &mut Vec<u8>, names: &[NetName], nets: &[u32]) -> Result<(), OutOfMemory>
    requires { All (λ net. net < length names.now) nets.now }
    ensures { OnOk result (text.new.items ≡ text.old.items ++ flat_map (λ net. 32 ∷ name_of_net names.now net) nets.now) }
{
    for net in nets {
        append_word(text, net_name(names, *net))?;
    }
    Ok(())
}

/// Appends the call of the cell of a group with these nets, by the numbers of the group and of its shape.
fn put_call(
    text: &mut Vec<u8>,
    names: &[NetName],
    index: usize,
    nets: &[u32],
    number: usize,
) -> Result<(), OutOfMemory>
    requires { All (λ net. net < length names.now) nets.now }
    ensures { OnOk result (text.new.items ≡ text.old.items
        ++ deck_line (codes "x" ++ decimal index) (map (name_of_net names.now) nets.now ++ cell_name number ∷ [])) }
{
    append(text, b"x")?;
    append_number(text, index as u64)?;
    put_nets(text, names, nets)?;
    put_cell_name(text, number)?;
    append(text, b"\n")?;
    Ok(())
}

/// The shapes of the groups that end at these places, and the call of each group's cell.
pub fn place_groups(
    alloc: Global,
    hasher: NameHash,
    names: &[NetName],
    nets: &mut GroupNets,
    devices: &[Device],
    ends: &[u32],
) -> Result<PlacedGroups, OutOfMemory>
    requires count { nets.old.count ≡ length names.now }
    requires supplies { 2 ≤ length names.now }
    requires within { All (IsInRange (length names.now)) devices.now }
    requires few { length devices.now ≤ most_devices }
    requires rise { PlacesRise 0 ends.now (length devices.now) }
    ensures shapes { IfOk result (λ p. p.shapes.keys ≡ placed_shapes (groups_from 0 ends.now devices.now)) }
    ensures calls { IfOk result (λ p. p.calls.items
        ≡ placed_calls names.now (placed_shapes (groups_from 0 ends.now devices.now)) 0 (groups_from 0 ends.now devices.now)) }
{
    let mut shapes = ShapeSet::with_hasher(alloc, hasher);
    let mut calls = Vec::new(alloc);
    let mut shape = Shape::new(alloc);
    let mut rest = devices;
    let mut start = 0;
    'groups: for (index, end) in ends.iter().enumerate() {
        let (group, more) = rest.split_at((*end - start) as usize);
        nets.number_group(group, &mut shape)?;
        let number = number_shape(&mut shapes, &shape)?;
        put_call(&mut calls, names, index, nets.nets(), number)?;
        rest = more;
        start = *end;
    }
    Ok(PlacedGroups { shapes, calls })
}

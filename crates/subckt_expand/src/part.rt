//! Parts of subcircuits: devices and calls, by the numbers of nets.
use dom_base::{Kind, NetName};
use std::marker::Model;

/// A transistor between nets of a subcircuit, by their numbers there.
#[derive(Clone, Copy, Debug)]
pub struct LocalDevice {
    pub kind: Kind,
    pub drain: usize,
    pub gate: usize,
    pub source: usize,
}

/// A device of a subcircuit, or the call with this index among its calls.
#[derive(Clone, Copy, Debug)]
pub enum Part {
    Own(LocalDevice),
    Called(usize),
}

/// A name at a level of the calls within one another.
#[derive(Drop)]
pub struct LevelName {
    pub level: usize,
    pub name: NetName,
}

/// A net outside a call: by its number in the calling subcircuit, or by its name at an outer level.
#[derive(Drop)]
pub enum Outer {
    Net(usize),
    Name(LevelName),
}

/// The call of a subcircuit: its own name, the number of the subcircuit, and for each port the
/// number of the net that is passed.
#[derive(Drop)]
pub struct Call {
    pub name: NetName,
    pub unit: usize,
    pub nets: Vec<u32>,
}

impl Model for Call {
    ghost use Rattle.subckt_expand.specs.Definitions.{CallData};

    ghost Value = { CallData };

    ghost view = { λ c. record { name = c.name; unit = c.unit; nets = c.nets.items } };
}

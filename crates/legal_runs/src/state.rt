//! The values of the nets of a circuit, one of which takes its target at a time.
ghost use Rattle.std.specs.Prelude.{◌≡◌, length};

use comparison::Trouble;
use deck::{Circuit, roles};
use dom_base::Tri;
use std::alloc::Global;
use switch_model::Links;

/// A value of each net, and what gives its target.
#[derive(Drop)]
pub struct State {
    links: Links,
    values: Vec<Tri>,
    ghost whole: { length values.items ≡ links.nets },
}

impl State {
    /// All nets are unknown.
    pub fn new(alloc: Global, circuit: &Circuit) -> Result<State, Trouble> {
        let roles = roles(circuit)?;
        let links = Links::new(alloc, circuit, roles)?;
        let mut values = Vec::new(alloc);
        values.resize(circuit.nets.len(), Tri::Unknown)?;
        Ok(State { links, values })
    }

    /// The number of nets.
    pub fn nets(&self) -> usize {
        self.values.len()
    }

    /// The number of sources, which are the first nets.
    pub fn sources(&self) -> usize {
        self.links.sources() as usize
    }

    /// The values of all nets.
    pub fn values(&self) -> &[Tri] {
        self.values.as_slice()
    }

    /// Gives a net a value.
    pub fn set(&mut self, net: usize, value: Tri) {
        if net < self.values.len() {
            self.values[net] = value;
        }
    }

    /// The target of a net that is no source, where it differs from the value of the net.
    pub fn pending(&mut self, net: usize) -> Option<Tri> {
        let Ok(number) = u32::try_from(net) else {
            return None;
        };
        if net >= self.values.len() || number < self.links.sources() {
            return None;
        }
        let target = self.links.target(self.values.as_slice(), number);
        if target == self.values[net] {
            None
        } else {
            Some(target)
        }
    }
}

//! What the runs of a trace have in common.
ghost use Rattle.std.specs.Prelude.{◌≡◌, ◌<◌, [], length, slice_index_or};
ghost use Rattle.trace_tool.specs.Probes.{is_told};

use crate::asked::Asked;
use crate::{Clocking, ProbeWord};
use deck::{Circuit, Roles};
use dom_base::NetName;
use event_sim::Event;
use std::marker::Model;

/// A circuit with the roles of its ports and how its clocks fall, whether every event is told, and the probe
/// words, with the edges that they ask for at each net.
#[derive(Drop)]
pub struct Setup<'a> {
    pub circuit: Circuit,
    pub roles: Roles,
    pub clocking: Clocking,
    pub events: bool,
    pub probes: &'a [ProbeWord],
    pub asked: Vec<Asked>,
}

impl<'a> Model for Setup<'a> {
    ghost use Rattle.trace_tool.specs.AskedEdges.{AreAsked};
    ghost use Rattle.trace_tool.specs.SetupData.{SetupData};

    ghost Value = { SetupData };

    ghost view = { λ s. record { circuit = s.circuit; roles = s.roles; clocking = s.clocking; events = s.events; probes = s.probes.now } };

    ghost invariant = { λ s. AreAsked s.probes.now s.circuit.nets s.asked.items };
}

impl<'a> Setup<'a> {
    /// What the ports are for.
    pub fn roles(&self) -> Roles
        ensures { result ≡ self.now.roles }
    {
        self.roles
    }

    /// How the clocks fall.
    pub fn clocking(&self) -> Clocking
        ensures { result ≡ self.now.clocking }
    {
        self.clocking
    }

    /// The name of a net.
    pub fn net_name(&self, net: usize) -> &NetName
        requires { net < length self.now.circuit.nets }
        ensures { result.now ≡ slice_index_or self.now.circuit.nets net [] }
    {
        &self.circuit.nets[net]
    }

    /// Whether an event is told.
    pub fn is_told(&self, event: Event) -> bool
        requires { event.net < length self.now.circuit.nets }
        ensures { result ≡ is_told self.now event }
    {
        if self.events {
            return true;
        }
        match self.asked.get(event.net as usize) {
            Some(asked) => asked.hits(event.before, event.after),
            None => false,
        }
    }
}

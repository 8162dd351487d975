//! The links of a circuit: what its nets do next.
ghost use Rattle.std.specs.Prelude.{◌≡◌, ◌+◌, ◌*◌, ◌<◌, ◌≤◌, ◌↔◌, List, IfOk, IsTrue, length, slice_set, ℕ};
ghost use Rattle.deck.specs.Roles.{AreRoles, ports_of};
ghost use Rattle.switch_model.specs.Components.{AreTouched};
ghost use Rattle.switch_model.specs.LinksData.{is_first, links_of};
ghost use Rattle.switch_model.specs.Pending.{AreKeptTargets, ArePending};
ghost use Rattle.switch_model.specs.Targets.{IsAtRest, IsTarget};

use crate::components::{Components, alone};
use crate::refresh::refresh_all;
use crate::rooms::Rooms;
use crate::sweep::find_targets;
use crate::values::has_value;
use crate::{Steps, Wires};
use deck::{Circuit, Roles};
use dom_base::{OutOfMemory, Tri};
use pending_nets::Pending;
use std::alloc::Global;
use std::marker::{Brand, Model};
use std::sync::ledger::{Blank, Ledger};

/// The devices of a circuit and its components, with room to find the targets of one.
#[derive(Drop)]
pub struct Links {
    wires: Wires,
    sources: u32,
    components: Components,
    rooms: Rooms,
}

impl Model for Links {
    ghost use Rattle.std.specs.Prelude.{length};
    ghost use Rattle.switch_model.specs.ComponentLists.{AreLinks};
    ghost use Rattle.switch_model.specs.LinksData.{LinksData};

    ghost Value = { LinksData };

    ghost view = { λ l. record { nets = length l.components.nets; sources = l.sources; devices = l.wires } };

    ghost invariant = { λ l. AreLinks l.sources l.wires l.components l.rooms };
}

impl Links {
    /// The links of a circuit whose ports have these roles. The sources are the ports before the
    /// outputs. The one error is out of memory.
    pub fn new(alloc: Global, circuit: &Circuit, roles: Roles) -> Result<Links, OutOfMemory>
        requires { AreRoles (ports_of circuit.now) roles }
        ensures { IfOk result (λ links. links ≡ links_of circuit.now roles) }
    {
        let sources = circuit.ports - roles.outs;
        let nets = circuit.nets.len() as u32;
        let components = Components::new(alloc, circuit.devices.as_slice(), nets, sources)?;
        let devices = Vec::from_slice(alloc, circuit.devices.as_slice())?;
        let rooms = Rooms::new(alloc, nets)?;
        Ok(Links {
            wires: Wires::new(devices),
            sources,
            components,
            rooms,
        })
    }

    /// The number of sources, which are the first nets. Takes no memory.
    pub fn sources(&self) -> u32
        ensures { result ≡ self.now.sources }
    {
        self.sources
    }

    /// The value that a net, which is no source, takes next, at one value per net. A definite strong
    /// path to sources of one value alone gives that value, then such a weak one; where possible
    /// paths lead to other sources as well the target is `Unknown`. A net that no source is joined to
    /// keeps its value where all nets that are joined to it have it, and is `Unknown` else. Takes no
    /// memory, and leaves the links as they were.
    pub fn target(&mut self, values: &[Tri], net: u32) -> Tri
        requires whole { length values.now ≡ self.old.nets }
        requires within { net < self.old.nets }
        requires free { self.old.sources ≤ net }
        ensures target { IsTarget self.old.devices (is_first self.old.sources) values.now net result }
        ensures same { self.new ≡ self.old }
    {
        self.target_uncounted::<Brand>(values, net, Blank::new(1))
    }

    fn target_uncounted<L: Ledger>(&mut self, values: &[Tri], net: u32, blank: Blank) -> Tri
        requires whole { length values.now ≡ self.old.nets }
        requires within { net < self.old.nets }
        requires free { self.old.sources ≤ net }
        requires name { blank.name ≡ L.name }
        requires parts { blank.parts ≡ L.parts }
        requires some { 0 < L.parts }
        ensures target { IsTarget self.old.devices (is_first self.old.sources) values.now net result }
        ensures same { self.new ≡ self.old }
    {
        let mut steps = Steps::<L>::new(blank);
        self.target_counted(values, net, &mut steps)
    }

    /// The value that a net takes next, as by `target`, in at most nine steps for each device of the
    /// components that it touches. Takes no memory, and leaves the links as they were.
    pub fn target_counted<L: Ledger>(
        &mut self,
        values: &[Tri],
        net: u32,
        steps: &mut Steps<L>,
    ) -> Tri
        requires whole { length values.now ≡ self.old.nets }
        requires within { net < self.old.nets }
        requires free { self.old.sources ≤ net }
        ensures target { IsTarget self.old.devices (is_first self.old.sources) values.now net result }
        ensures same { self.new ≡ self.old }
        ensures cost { (places : List ℕ) → AreTouched self.old.devices (is_first self.old.sources) net places
            → steps.new ≤ steps.old + 9 * length places }
    {
        let number = self.components.number(net);
        let plain = find_targets(
            &self.wires,
            self.components.nets.at(number),
            self.components.places.at(number),
            self.sources,
            values,
            &mut self.rooms,
            steps,
        );
        self.rooms.target(plain, net)
    }

    /// Whether no net is to take another value, at one value per net. Takes no memory, and leaves
    /// the links as they were.
    pub fn at_rest(&mut self, values: &[Tri]) -> bool
        requires { length values.now ≡ self.old.nets }
        ensures rest { IsTrue result ↔ IsAtRest self.old.devices (is_first self.old.sources) values.now }
        ensures same { self.new ≡ self.old }
    {
        for net in self.sources..self.components.nets.len() as u32 {
            let target = self.target(values, net);
            if !has_value(values, net, target) {
                return false;
            }
        }
        true
    }

    /// The pending nets at one value per net, and the targets of all nets. The one error is out of memory.
    pub fn pending(&mut self, values: &[Tri]) -> Result<Pending, OutOfMemory>
        requires { length values.now ≡ self.old.nets }
        ensures nets { IfOk result (λ pending. pending.nets ≡ self.old.nets) }
        ensures right { IfOk result (λ pending. ArePending self.old values.now pending.listed) }
        ensures targets { IfOk result (λ pending. AreKeptTargets self.old values.now pending.targets) }
        ensures same { self.new ≡ self.old }
    {
        self.pending_uncounted::<Brand>(values, Blank::new(1))
    }

    fn pending_uncounted<L: Ledger>(
        &mut self,
        values: &[Tri],
        blank: Blank,
    ) -> Result<Pending, OutOfMemory>
        requires whole { length values.now ≡ self.old.nets }
        requires name { blank.name ≡ L.name }
        requires parts { blank.parts ≡ L.parts }
        requires some { 0 < L.parts }
        ensures nets { IfOk result (λ pending. pending.nets ≡ self.old.nets) }
        ensures right { IfOk result (λ pending. ArePending self.old values.now pending.listed) }
        ensures targets { IfOk result (λ pending. AreKeptTargets self.old values.now pending.targets) }
        ensures same { self.new ≡ self.old }
    {
        let alloc = *self.components.parents.allocator();
        let nets = self.components.nets.len() as u32;
        let mut pending = Pending::new(alloc, nets)?;
        let all = alone(alloc, nets)?;
        let mut steps = Steps::<L>::new(blank);
        refresh_all(
            &self.wires,
            &self.components,
            all.as_slice(),
            self.sources,
            values,
            &mut self.rooms,
            &mut pending,
            &mut steps,
        );
        Ok(pending)
    }

    /// Puts the pending nets right where one net has changed from `before`: they were right for the
    /// values with `before` at the net, and are right for the values, and so are the kept targets. At
    /// most 64 steps, and 64 more for each device of the components that the net touches. Takes no
    /// memory, and leaves the links as they were.
    pub fn refresh<L: Ledger>(
        &mut self,
        pending: &mut Pending,
        values: &[Tri],
        net: u32,
        before: Tri,
        steps: &mut Steps<L>,
    )
        requires whole { length values.now ≡ self.old.nets }
        requires within { net < self.old.nets }
        requires nets { pending.old.nets ≡ self.old.nets }
        requires right { ArePending self.old (slice_set values.now net before) pending.old.listed }
        ensures right { ArePending self.old values.now pending.new.listed }
        ensures targets { AreKeptTargets self.old (slice_set values.now net before) pending.old.targets
            → AreKeptTargets self.old values.now pending.new.targets }
        ensures nets { pending.new.nets ≡ pending.old.nets }
        ensures same { self.new ≡ self.old }
        ensures cost { (places : List ℕ) × AreTouched self.old.devices (is_first self.old.sources) net places
            × (steps.new ≤ steps.old + 64 * (length places + 1)) }
        ensures nine { (places : List ℕ) → AreTouched self.old.devices (is_first self.old.sources) net places
            → steps.new ≤ steps.old + 9 * length places }
    {
        let components = &self.components;
        refresh_all(
            &self.wires,
            components,
            components.touched.at(net),
            self.sources,
            values,
            &mut self.rooms,
            pending,
            steps,
        );
    }
}

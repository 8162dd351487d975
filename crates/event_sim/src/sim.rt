//! Simulation, one event at a time.
ghost use Rattle.std.specs.Prelude.{◌≡◌, ◌<◌, ◌≤◌, ◌↔◌, ◌+◌, ◌*◌, ◌-◌, ◌^◌, ℕ, List, [], ◌∷◌, IfOk, IfSome, IsErrOf, IsNone, IsTrue, length};
ghost use Rattle.deck.specs.Roles.{AreRoles, LeavesRolesAt, ports_of};
ghost use Rattle.deck.specs.Switches.{value_of};
ghost use Rattle.deck.specs.declared.role.Roles.{Roles as RolesData};
ghost use Rattle.deck.specs.declared.role.PortFault.{PortFault as PortFaultData};
ghost use Rattle.switch_model.specs.Components.{AreTouched};
ghost use Rattle.switch_model.specs.LinksData.{is_first};
ghost use Rattle.switch_model.specs.Targets.{EventAt};
ghost use Rattle.event_sim.specs.Chains.{IsChosen};
ghost use Rattle.event_sim.specs.Choices.{Chooses};
ghost use Rattle.event_sim.specs.Pending.{IsResting};
ghost use Rattle.event_sim.specs.Settling.{IsSettling, most_events as most_of};
ghost use Rattle.event_sim.specs.SimData.{power_sim, ran, with_value};
ghost use Rattle.event_sim.specs.declared.event.Event.{Event as EventData};
ghost use Rattle.event_sim.specs.declared.fault.SimFault.TheVariants.{Ports as ports};

use crate::power::power_values;
use crate::{Chooser, Event, Settled, SimFault};
use deck::{Circuit, Roles, roles};
use dom_base::{OutOfMemory, Tri};
use std::alloc::Global;
use std::marker::{Brand, Model};
use std::sync::ledger::{Blank, Ledger};
use switch_model::{Links, Pending, Steps};

/// A circuit with a value of each net and a step, and a chooser of what comes next.
#[derive(Drop)]
pub struct Sim<F: Fn(u64, u64) -> u64> {
    chooser: Chooser<F>,
    links: Links,
    values: Vec<Tri>,
    step: u64,
    pending: Pending,
}

impl<F: Fn(u64, u64) -> u64> Model for Sim<F> {
    ghost use Rattle.event_sim.specs.SimData.{SimData};
    ghost use Rattle.event_sim.specs.Inside.{IsSim};

    ghost Value = { SimData F };

    ghost view = { λ s. record { pick = s.chooser.pick; links = s.links; values = s.values.items; step = s.step } };

    ghost invariant = { λ s. IsSim s.links s.values.items s.pending };
}

impl<F: Fn(u64, u64) -> u64> Sim<F> {
    /// The power state of a circuit, at step 0: `vdd` is `One`, `vss` and all clocks are `Zero`, `lm`,
    /// `lmb`, `ls`, `lsb` are `Zero`, `One`, `Zero`, `One`, `rs` is `One` and `rsb` `Zero`, all pins are
    /// `Zero`, and all other nets are `Unknown`. `Ports` has the place at which the ports leave every
    /// order of roles.
    pub fn new(alloc: Global, circuit: &Circuit, chooser: Chooser<F>) -> Result<Sim<F>, SimFault>
        ensures power { IfOk result (λ sim.
            (roles : RolesData) × AreRoles (ports_of circuit.now) roles × (sim ≡ power_sim chooser.pick circuit.now roles)) }
        ensures each { IfOk result (λ sim.
            (roles : RolesData) → AreRoles (ports_of circuit.now) roles → sim ≡ power_sim chooser.pick circuit.now roles) }
        ensures whole { IfOk result (λ sim. (length sim.values ≡ length circuit.now.nets) × (length sim.values ≡ sim.links.nets)) }
        ensures ports { (fault : PortFaultData) → IsErrOf result (ports fault) → LeavesRolesAt (ports_of circuit.now) fault.place }
    {
        let roles = roles(circuit)?;
        let sim = Sim::with_roles(alloc, circuit, roles, chooser)?;
        Ok(sim)
    }

    /// The power state of a circuit whose ports have these roles, as by `new`. The one error is out of
    /// memory.
    pub fn with_roles(
        alloc: Global,
        circuit: &Circuit,
        roles: Roles,
        chooser: Chooser<F>,
    ) -> Result<Sim<F>, OutOfMemory>
        requires { AreRoles (ports_of circuit.now) roles }
        ensures power { IfOk result (λ sim. sim ≡ power_sim chooser.pick circuit.now roles) }
        ensures few { IfOk result (λ sim. length sim.values ≤ 2 ^ 26) }
        ensures whole { IfOk result (λ sim. (length sim.values ≡ length circuit.now.nets) × (length sim.values ≡ sim.links.nets)) }
    {
        let mut links = Links::new(alloc, circuit, roles)?;
        let nets = circuit.nets.len();
        let values = power_values(alloc, roles, nets)?;
        let pending = links.pending(values.as_slice())?;
        Ok(Sim {
            chooser,
            links,
            values,
            step: 0,
            pending,
        })
    }

    /// Gives a source other than `vdd` and `vss` a value. No other net changes. Takes no memory.
    pub fn set_pin(&mut self, place: u32, value: Tri)
        requires no_supply { 2 ≤ place }
        requires source { place < self.old.links.sources }
        ensures set { self.new ≡ with_value self.old place value }
        ensures whole { length self.new.values ≡ length self.old.values }
    {
        self.set_pin_uncounted::<Brand>(place, value, Blank::new(1));
    }

    fn set_pin_uncounted<L: Ledger>(&mut self, place: u32, value: Tri, blank: Blank)
        requires no_supply { 2 ≤ place }
        requires source { place < self.old.links.sources }
        requires name { blank.name ≡ L.name }
        requires parts { blank.parts ≡ L.parts }
        requires some { 0 < L.parts }
        ensures set { self.new ≡ with_value self.old place value }
        ensures whole { length self.new.values ≡ length self.old.values }
    {
        let mut steps = Steps::<L>::new(blank);
        self.set_pin_counted(place, value, &mut steps);
    }

    /// Gives a source a value, as by `set_pin`, in at most 64 steps, and 64 more for each device of
    /// the components that it touches. Takes no memory.
    pub fn set_pin_counted<L: Ledger>(&mut self, place: u32, value: Tri, steps: &mut Steps<L>)
        requires no_supply { 2 ≤ place }
        requires source { place < self.old.links.sources }
        ensures set { self.new ≡ with_value self.old place value }
        ensures whole { length self.new.values ≡ length self.old.values }
        ensures cost { (places : List ℕ) × AreTouched self.old.links.devices (is_first self.old.links.sources) place places
            × (steps.new ≤ steps.old + 64 * (length places + 1)) }
    {
        let before = self.values[place as usize];
        self.values[place as usize] = value;
        let values = self.values.as_slice();
        self.links
            .refresh(&mut self.pending, values, place, before, steps);
    }

    /// The value of a net. Takes no memory.
    pub fn value(&self, net: u32) -> Tri
        requires { net < length self.now.values }
        ensures { result ≡ value_of self.now.values net }
    {
        self.values[net as usize]
    }

    /// The chosen event: of the pending nets by rising number the one at the place that the chooser
    /// gives takes its target, and the step rises by one, modulo 2^64. `None` comes exactly at rest, and
    /// then nothing changes. Takes no memory.
    pub fn step(&mut self) -> Option<Event>
        requires { Chooses (F.pre self.old.pick) (F.post self.old.pick) }
        ensures rest { IsNone result ↔ IsResting self.old.links self.old.values }
        ensures stays { IsNone result → self.new ≡ self.old }
        ensures when { IfSome result (λ event. event.step ≡ self.old.step) }
        ensures chosen { IfSome result (λ event. IsChosen (F.post self.old.pick) self.old.links self.old.values event) }
        ensures legal { IfSome result (λ event.
            EventAt self.old.links.devices (is_first self.old.links.sources) event.net self.old.values self.new.values) }
        ensures whole { length self.new.values ≡ length self.old.values }
        ensures moved { IfSome result (λ event. self.new ≡ ran self.old (event ∷ [])) }
    {
        self.step_uncounted::<Brand>(Blank::new(1))
    }

    fn step_uncounted<L: Ledger>(&mut self, blank: Blank) -> Option<Event>
        requires chooses { Chooses (F.pre self.old.pick) (F.post self.old.pick) }
        requires name { blank.name ≡ L.name }
        requires parts { blank.parts ≡ L.parts }
        requires some { 0 < L.parts }
        ensures rest { IsNone result ↔ IsResting self.old.links self.old.values }
        ensures stays { IsNone result → self.new ≡ self.old }
        ensures when { IfSome result (λ event. event.step ≡ self.old.step) }
        ensures chosen { IfSome result (λ event. IsChosen (F.post self.old.pick) self.old.links self.old.values event) }
        ensures legal { IfSome result (λ event.
            EventAt self.old.links.devices (is_first self.old.links.sources) event.net self.old.values self.new.values) }
        ensures whole { length self.new.values ≡ length self.old.values }
        ensures moved { IfSome result (λ event. self.new ≡ ran self.old (event ∷ [])) }
    {
        let mut steps = Steps::<L>::new(blank);
        self.step_counted(&mut steps)
    }

    /// The chosen event, as by `step`, in at most 64 steps, and 64 more for each device of the
    /// components that its net touches; in no step at rest. Takes no memory.
    pub fn step_counted<L: Ledger>(&mut self, steps: &mut Steps<L>) -> Option<Event>
        requires { Chooses (F.pre self.old.pick) (F.post self.old.pick) }
        ensures rest { IsNone result ↔ IsResting self.old.links self.old.values }
        ensures stays { IsNone result → self.new ≡ self.old }
        ensures when { IfSome result (λ event. event.step ≡ self.old.step) }
        ensures chosen { IfSome result (λ event. IsChosen (F.post self.old.pick) self.old.links self.old.values event) }
        ensures legal { IfSome result (λ event.
            EventAt self.old.links.devices (is_first self.old.links.sources) event.net self.old.values self.new.values) }
        ensures whole { length self.new.values ≡ length self.old.values }
        ensures moved { IfSome result (λ event. self.new ≡ ran self.old (event ∷ [])) }
        ensures cost { IfSome result (λ event.
            (places : List ℕ) × AreTouched self.old.links.devices (is_first self.old.links.sources) event.net places
            × (steps.new ≤ steps.old + 64 * (length places + 1))) }
        ensures idle { IsNone result → steps.new ≡ steps.old }
    {
        let count = self.pending.count();
        if count == 0 {
            return None;
        }
        let place = (self.chooser.pick)(self.step, count);
        let net = self.pending.nth(place);
        let after = self.pending.target(net);
        let before = self.values[net as usize];
        let event = Event {
            step: self.step,
            net,
            before,
            after,
        };
        self.values[net as usize] = after;
        let values = self.values.as_slice();
        self.links
            .refresh(&mut self.pending, values, net, before, steps);
        self.step = self.step.wrapping_add(1);
        Some(event)
    }

    /// Events, each as by `step`, until rest, with their number; or as many as the square of one more
    /// than the number of nets that are no sources, without rest. Takes no memory.
    pub fn settle(&mut self) -> Settled
        requires { Chooses (F.pre self.old.pick) (F.post self.old.pick) }
        ensures run { (events : List EventData)
            × IsSettling (F.post self.old.pick) self.old.links self.old.values self.old.step events result
            × (self.new ≡ ran self.old events) }
        ensures whole { length self.new.values ≡ length self.old.values }
    {
        let most = self.most_events();
        let mut count = 0u64;
        'events: while count < most {
            let Some(_) = self.step() else {
                return Settled::Rest(count);
            };
            count += 1;
        }
        if self.at_rest() {
            Settled::Rest(count)
        } else {
            Settled::Unsettled(count)
        }
    }

    /// The number of events so far, modulo 2^64. Takes no memory.
    pub fn steps(&self) -> u64
        ensures { result ≡ self.now.step }
    {
        self.step
    }

    /// Whether no net is pending. Takes no memory, and leaves the simulation as it was.
    pub fn at_rest(&mut self) -> bool
        ensures rest { IsTrue result ↔ IsResting self.old.links self.old.values }
        ensures same { self.new ≡ self.old }
    {
        self.pending.count() == 0
    }

    /// The most events of one settling: the square of one more than the number of nets that are no
    /// sources. Takes no memory.
    pub fn most_events(&self) -> u64
        ensures most { result ≡ most_of self.now.links }
        ensures few { result ≤ 2 ^ 53 }
    {
        let more = self.values.len() as u64 - self.links.sources() as u64 + 1;
        more * more
    }
}

//! Sets of probes, each under a key of its own.
ghost use Rattle.std.specs.Prelude.{◌≡◌, ◌↔◌, [], None, Some, IfErr, IfOk, IsNone, IsTrue, OnErr};
ghost use Rattle.event_sim.specs.Probes.{AllAnswer, Changes, Hits, held};

use crate::{Event, Probe};
use dom_base::{OutOfMemory, Tri};
use slab::Slab;
use std::alloc::Global;
use std::marker::Model;

/// Probes, each under a key that the set picks, seen as a map from keys to probes.
#[derive(Drop)]
pub struct ProbeSet<P: Fn(Tri, Tri) -> bool> {
    probes: Slab<Probe<P>>,
}

impl<P: Fn(Tri, Tri) -> bool> Model for ProbeSet<P> {
    ghost use Rattle.event_sim.specs.Probes.{ProbeMap};

    ghost Value = { ProbeMap P };

    ghost view = { λ s. record { slots = s.probes.slots; next_key = s.probes.vacant_key } };
}

impl<P: Fn(Tri, Tri) -> bool> ProbeSet<P> {
    /// A set without probes, whose first key is 0. Takes no memory.
    pub fn new(alloc: Global) -> ProbeSet<P>
        ensures empty { result.slots ≡ [] }
        ensures first_key { result.next_key ≡ 0 }
    {
        ProbeSet {
            probes: Slab::new(alloc),
        }
    }

    /// Adds a probe under a key that was free. Out of memory hands the probe back and changes nothing.
    pub fn add(&mut self, probe: Probe<P>) -> Result<usize, (Probe<P>, OutOfMemory)>
        ensures key { IfOk result (λ key. key ≡ self.old.next_key) }
        ensures free { IfOk result (λ key. held self.old key ≡ None) }
        ensures added { IfOk result (λ key. Changes self.old self.new key (Some probe)) }
        ensures back { IfErr result (λ refusal. refusal.0 ≡ probe) }
        ensures stays { OnErr result (self.new ≡ self.old) }
    {
        match self.probes.insert(probe) {
            Ok(key) => Ok(key),
            Err(failed) => Err((failed.value, OutOfMemory)),
        }
    }

    /// Takes the probe under a key out of the set. `None` comes exactly where the key holds nothing,
    /// and then nothing changes. Takes no memory.
    pub fn remove(&mut self, key: usize) -> Option<Probe<P>>
        ensures probe { result ≡ held self.old key }
        ensures removed { Changes self.old self.new key None }
        ensures stays { IsNone result → self.new ≡ self.old }
    {
        self.probes.try_remove(key)
    }

    /// Whether some probe has the event's net and its edge's relation holds of the value before and
    /// the value after. Takes no memory.
    pub fn hits(&self, event: &Event) -> bool
        requires { AllAnswer P.pre P.post self.now }
        ensures { IsTrue result ↔ Hits self.now event.now }
    {
        for key in 0..self.probes.capacity() {
            if let Some(probe) = self.probes.get(key) {
                if probe.is_hit(event) {
                    return true;
                }
            }
        }
        false
    }
}

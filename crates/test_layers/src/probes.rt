//! Probes by themselves.
ghost use Rattle.std.specs.Prelude.{◌↔◌, IsTrue};
ghost use Rattle.event_sim.specs.Probes.{IsEdge};
ghost use Rattle.event_sim.specs.declared.event.Edge.TheVariants.{Rise};

use dom_base::Tri;
use event_sim::{Edge, Event, Probe, ProbeSet};
use std::test::Fail;

/// Whether a value rises.
fn rises(before: Tri, after: Tri) -> bool
    ensures { IsTrue result ↔ IsEdge Rise before after }
{
    after == Tri::One && before != Tri::One
}

/// Events of a net, with whether a probe of rises of net 12 is hit.
const EVENTS: &[(u32, Tri, Tri, bool)] = &[
    (12, Tri::Zero, Tri::One, true),
    (12, Tri::Unknown, Tri::One, true),
    (12, Tri::One, Tri::Zero, false),
    (12, Tri::Zero, Tri::Unknown, false),
    (13, Tri::Zero, Tri::One, false),
];

#[test]
fn probe_is_hit_by_its_edge(rt: HostRuntime) {
    let probe = Probe::new(12, Edge::Rise, rises);
    for (net, before, after, wanted) in EVENTS {
        let event = Event {
            step: 7,
            net: *net,
            before: *before,
            after: *after,
        };
        assert_eq!(rt; probe.is_hit(&event), *wanted);
    }
}

#[test]
fn probe_is_taken_out_once(rt: HostRuntime) -> Result<(), Fail> {
    let mut probes = ProbeSet::new(rt.alloc());
    let key = match probes.add(Probe::new(12, Edge::Rise, rises)) {
        Ok(key) => key,
        Err((_, fault)) => return Err(Fail::from(fault)),
    };
    assert_eq!(rt; key, 0);
    let taken = probes.remove(0);
    let is_same = matches!(&taken, Some(probe) if (probe.net, probe.edge) == (12, Edge::Rise));
    assert!(rt; is_same);
    assert!(rt; probes.remove(0).is_none());
    Ok(())
}

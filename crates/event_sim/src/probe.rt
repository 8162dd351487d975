//! What is looked for in events: a net with an edge.
ghost use Rattle.std.specs.Prelude.{◌≡◌, ◌↔◌, IsTrue};
ghost use Rattle.event_sim.specs.Probes.{AnswersEdge, IsHit};

use crate::{Edge, Event};
use dom_base::Tri;

/// Looks for an edge of a net, with a test of that edge: a function of the value before and the value
/// after that is true exactly where the edge's relation holds of them.
#[derive(Drop)]
pub struct Probe<P: Fn(Tri, Tri) -> bool> {
    pub net: u32,
    pub edge: Edge,
    pub hit: P,
}

impl<P: Fn(Tri, Tri) -> bool> Probe<P> {
    /// A probe by a function that may be called on every two values and answers exactly whether the
    /// edge's relation holds of them. Takes no memory.
    pub fn new(net: u32, edge: Edge, hit: P) -> Probe<P>
        requires { AnswersEdge (P.pre hit) (P.post hit) edge }
        ensures net { result.net ≡ net }
        ensures edge { result.edge ≡ edge }
        ensures hit { result.hit ≡ hit }
    {
        Probe { net, edge, hit }
    }

    /// Whether the event is of this net, and of this edge. Takes no memory.
    pub fn is_hit(&self, event: &Event) -> bool
        requires { AnswersEdge (P.pre self.now.hit) (P.post self.now.hit) self.now.edge }
        ensures { IsTrue result ↔ IsHit self.now event.now }
    {
        self.net == event.net && (self.hit)(event.before, event.after)
    }
}

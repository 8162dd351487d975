//! Probe words by nets: the edges that are asked for at each net.
ghost use Rattle.std.specs.Prelude.{◌≡◌, ◌||◌, Contains, IfOk, IsErrOf, MatchOption, Some, slice_get};
ghost use Rattle.trace_tool.specs.AskedEdges.{AreAsked, hits, unasked};
ghost use Rattle.trace_tool.specs.Probes.{AreNets, has_edge};
ghost use Rattle.trace_tool.specs.Refusals.{IsUnnamed};
ghost use Rattle.trace_tool.specs.declared.fault.TraceFault.{TraceFault as Fault};
ghost use Rattle.dom_base.specs.declared.tri.Tri.{Tri as Value};

use crate::names::copied;
use crate::{ProbeWord, TraceFault};
use deck::Circuit;
use dom_base::{NetName, Tri};
use event_sim::Edge;
use std::alloc::Global;

/// The edges that are asked for at a net.
#[derive(Clone, Copy)]
pub struct Asked {
    any: bool,
    rise: bool,
    fall: bool,
}

impl Asked {
    /// No edge.
    fn none() -> Asked
        ensures { result ≡ unasked }
    {
        Asked {
            any: false,
            rise: false,
            fall: false,
        }
    }

    /// These and one more edge.
    fn with(self, edge: Edge) -> Asked
        ensures { (before after : Value) → hits result before after ≡ (hits self before after || has_edge edge before after) }
    {
        match edge {
            Edge::Any => Asked { any: true, ..self },
            Edge::Rise => Asked { rise: true, ..self },
            Edge::Fall => Asked { fall: true, ..self },
        }
    }

    /// Whether some of the edges holds of an old and a new value.
    pub fn hits(self, before: Tri, after: Tri) -> bool
        ensures { result ≡ hits self before after }
    {
        (self.any && before != after)
            || (self.rise && after == Tri::One && before != Tri::One)
            || (self.fall && after == Tri::Zero && before != Tri::Zero)
    }
}

/// The edges that probe words ask for at each net of a circuit, or nothing where there are no words.
/// The faults are the first word whose name is no net, and out of memory.
pub fn asked_edges(
    alloc: Global,
    circuit: &Circuit,
    probes: &[ProbeWord],
) -> Result<Vec<Asked>, TraceFault>
    ensures asked { IfOk result (λ asked. AreAsked probes.now circuit.now.nets asked.items) }
    ensures nets { IfOk result (λ asked. AreNets circuit.now.nets probes.now) }
    ensures no_net { (why : Fault) → IsErrOf result why → IsUnnamed circuit.now.nets probes.now why }
{
    if probes.is_empty() {
        return Ok(Vec::new(alloc));
    }
    let mut asked = vec![in alloc; Asked::none(); circuit.nets.len()]?;
    for word in probes {
        match net_of(circuit, &word.name) {
            Some(net) => asked[net] = asked[net].with(word.edge),
            None => {
                let name = copied(&word.name)?;
                return Err(TraceFault::NoNet { name });
            }
        }
    }
    Ok(asked)
}

/// The number of the net of a name, if there is one.
fn net_of(circuit: &Circuit, name: &NetName) -> Option<usize>
    ensures { MatchOption result (Contains circuit.now.nets name.now → ⊥) (λ net. slice_get circuit.now.nets net ≡ Some name.now) }
{
    circuit.nets.get_index_of(name)
}

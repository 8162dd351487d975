//! The forest of gates under signs.
ghost use Rattle.std.specs.Prelude.{IfOk, All, ◌≡◌, ◌≤◌, ◌*◌, length, List, Bool, count_by};
ghost use Rattle.gate_decompose.specs.GatesData.{GatesData};
ghost use Rattle.gate_decompose.specs.GatesOrder.{is_operator};
ghost use Rattle.gate_decompose.specs.Needed.{AreNeeded, HasSize};
ghost use Rattle.dual_rail.specs.ArmPlaces.{HasPlacesOf};
ghost use Rattle.dual_rail.specs.EndPlaces.{SinksHavePlaces};
ghost use Rattle.dual_rail.specs.Forests.{IsForestOf};
ghost use Rattle.dual_rail.specs.Targets.{AreTargets};

use crate::arms::pairs_of;
use crate::ends::ends_of;
use crate::forest::Forest;
use crate::pairs_needed::{NeededPairs, needed_pairs};
use crate::targets::{Target, node_targets};
use crate::uses::uses_of;
use crate::wanted::wanted_nodes;
use dom_base::OutOfMemory;
use gate_decompose::Gates;
use std::alloc::Global;

/// The forest of gates under signs, where this is what nodes ask for and which pairs are needed.
fn forest_of(
    alloc: Global,
    gates: &Gates,
    signs: &[bool],
    targets: &[Target],
    needed: NeededPairs,
) -> Result<Forest, OutOfMemory>
    requires signs { length signs.now ≡ length gates.now.sinks }
    requires targets { length targets.now ≡ length gates.now.nodes }
    requires places { length needed.places.items ≡ length gates.now.nodes }
    requires known { AreTargets gates.now.nodes targets.now }
    requires needed { AreNeeded gates.now signs.now needed.pairs.items }
    requires parts { All (λ p. HasPlacesOf gates.now.nodes needed.pairs.items needed.places.items p.0 p.1) needed.pairs.items }
    requires sinks { SinksHavePlaces gates.now signs.now needed.pairs.items needed.places.items }
    requires few { length needed.pairs.items ≤ 2 * count_by is_operator gates.now.nodes }
    ensures { IfOk result (λ forest. IsForestOf gates.now signs.now forest) }
{
    let nodes = gates.nodes.as_slice();
    let NeededPairs {
        pairs: origin,
        places,
    } = needed;
    let pairs = pairs_of(alloc, nodes, targets, places.as_slice(), origin.as_slice())?;
    let ends = ends_of(alloc, gates, signs, targets, places.as_slice())?;
    drop(places);
    let uses = uses_of(alloc, pairs.as_slice(), ends.as_slice())?;
    Ok(Forest {
        leaves: gates.leaves,
        pairs,
        origin,
        uses,
        ends,
    })
}

/// The needed pairs of gates, under one sign for each sink (true is plus), in order, each with its
/// operator and its number of uses, and the end of each sink. It fails only where it is out of memory.
pub fn rails(alloc: Global, gates: &Gates, signs: &[bool]) -> Result<Forest, OutOfMemory>
    requires { length signs.now ≡ length gates.now.sinks }
    ensures { IfOk result (λ forest. IsForestOf gates.now signs.now forest) }
{
    let nodes = gates.nodes.as_slice();
    let wanted = wanted_nodes(alloc, gates, signs)?;
    let needed = needed_pairs(alloc, nodes, wanted.as_slice())?;
    let targets = node_targets(alloc, nodes)?;
    forest_of(alloc, gates, signs, targets.as_slice(), needed)
}

/// The number of pairs, which are the needed ones of the gates and signs that the forest stands for.
pub fn size(forest: &Forest) -> u64
    ensures pairs { result ≡ length forest.now.pairs }
    ensures needed { (gates : GatesData) (signs : List Bool) → IsForestOf gates signs forest.now → HasSize gates signs result }
{
    forest.pairs.len() as u64
}

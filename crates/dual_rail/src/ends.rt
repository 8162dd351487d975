//! The ends of sinks.
ghost use Rattle.std.specs.Prelude.{IfOk, List, ℕ, Bool, ◌≡◌, length};
ghost use Rattle.dual_rail.specs.EndPlaces.{AreEndsSoFar, IsEndFor, IsNodeWithin, SinksHavePlaces};
ghost use Rattle.dual_rail.specs.Targets.{AreTargets, asked_target};
ghost use Rattle.dual_rail.specs.WantedNodes.{AreOrderedNodes};

use crate::forest::End;
use crate::signed::Signed;
use crate::targets::{Target, target_of};
use dom_base::OutOfMemory;
use gate_decompose::Gates;
use std::alloc::Global;

/// The end of a sink with a sign, where this is what it asks for with the sign plus.
fn end_for(target: Target, places: &[Signed<u32>], sign: bool) -> End
    requires { IsNodeWithin (length places.now) (asked_target target) }
    ensures { IsEndFor places.now (asked_target target) sign result }
{
    match target {
        Target::Const(bit) => End::Const(bit),
        Target::Literal(rail) => End::Literal(rail),
        Target::Pair(pair) => {
            let place = places[pair.node as usize].of(pair.signed(sign).plus);
            if sign {
                End::FromDynamic(place)
            } else {
                End::FromOutput(place)
            }
        }
    }
}

/// The end of each sink.
pub fn ends_of(
    alloc: Global,
    gates: &Gates,
    signs: &[bool],
    targets: &[Target],
    places: &[Signed<u32>],
) -> Result<Vec<End>, OutOfMemory>
    requires signs { length signs.now ≡ length gates.now.sinks }
    requires targets { length targets.now ≡ length gates.now.nodes }
    requires places { length places.now ≡ length gates.now.nodes }
    requires order { AreOrderedNodes gates.now.nodes }
    requires known { AreTargets gates.now.nodes targets.now }
    ensures count { IfOk result (λ v. length v.items ≡ length gates.now.sinks) }
    ensures ends { IfOk result (λ v. (origin : List (ℕ × Bool)) → SinksHavePlaces gates.now signs.now origin places.now
        → AreEndsSoFar gates.now signs.now origin v.items) }
{
    let mut ends = Vec::with_capacity(alloc, gates.sinks.len())?;
    for (index, sink) in gates.sinks.iter().enumerate() {
        let target = target_of(targets, *sink, true);
        ends.push(end_for(target, places, signs[index]))?;
    }
    Ok(ends)
}

//! The target of a net that devices join to sources alone.
ghost use Rattle.std.specs.Prelude.{◌≡◌, ◌<◌, ◌+◌, [], ◌∷◌, All, Bool, length};
ghost use Rattle.deck.specs.Nets.{IsInRange};
ghost use Rattle.switch_model.specs.Components.{IsClosedPart};
ghost use Rattle.switch_model.specs.Drives.{IsEndOf};
ghost use Rattle.switch_model.specs.FourDrives.{IsTold, sort_of};
ghost use Rattle.switch_model.specs.LinksData.{is_first};
ghost use Rattle.switch_model.specs.Targets.{IsTarget};

use crate::drives::{Drives, NO_DRIVES};
use crate::lead::lead_of;
use crate::rooms::target_from;
use crate::sort::POSSIBLE;
use crate::{Steps, Wires};
use dom_base::Tri;
use std::sync::ledger::Ledger;

/// The target of the one net of a component, in a step a device.
pub fn single_target<L: Ledger>(
    wires: &Wires,
    net: u32,
    places: &[u32],
    sources: u32,
    values: &[Tri],
    steps: &mut Steps<L>,
) -> Tri
    requires net { net < length values.now }
    requires places { All (λ place. place < length wires.now) places.now }
    requires in_range { All (IsInRange (length values.now)) wires.now }
    requires closed { IsClosedPart wires.now (is_first sources) (net ∷ []) places.now }
    ensures target { IsTarget wires.now (is_first sources) values.now net result }
    ensures cost { steps.new ≡ steps.old + length places.now }
{
    let drives = single_drives(wires, net, places, sources, values, steps);
    target_from(drives, values[net as usize])
}

/// The drives of the one net of a component, in a step a device.
fn single_drives<L: Ledger>(
    wires: &Wires,
    net: u32,
    places: &[u32],
    sources: u32,
    values: &[Tri],
    steps: &mut Steps<L>,
) -> Drives
    requires places { All (λ place. place < length wires.now) places.now }
    requires in_range { All (IsInRange (length values.now)) wires.now }
    requires closed { IsClosedPart wires.now (is_first sources) (net ∷ []) places.now }
    ensures driven { (definite keepers : Bool) → IsTold result definite keepers
        (IsEndOf wires.now (is_first sources) values.now (sort_of definite keepers) net) values.now }
    ensures cost { steps.new ≡ steps.old + length places.now }
{
    let mut drives = NO_DRIVES;
    for place in places {
        let device = wires.wire(*place, steps);
        if let Some(lead) = lead_of(POSSIBLE, device, sources, values) {
            drives = drives.with(Drives::of_source(device, values[lead.1 as usize], values));
        }
    }
    drives
}

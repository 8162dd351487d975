//! What four sorts of paths say of the nets of a component.
ghost use Rattle.std.specs.Prelude.{◌<◌, ◌+◌, ◌*◌, ◌≤◌, ℕ, All, Contains, length};
ghost use Rattle.deck.specs.Nets.{IsInRange};
ghost use Rattle.switch_model.specs.Components.{IsClosedPart};
ghost use Rattle.switch_model.specs.LinksData.{is_first};
ghost use Rattle.switch_model.specs.Sweeps.{AreRooms, target_in};
ghost use Rattle.switch_model.specs.Targets.{IsTarget};

use crate::rooms::Rooms;
use crate::sort::{POSSIBLE, Sort};
use crate::walk::find_classes;
use crate::{Steps, Wires};
use dom_base::Tri;
use std::sync::ledger::Ledger;

// The other sorts of paths.
const STRONG_DEFINITE: Sort = Sort {
    definite: true,
    keepers: false,
};

const STRONG_POSSIBLE: Sort = Sort {
    definite: false,
    keepers: false,
};

const DEFINITE: Sort = Sort {
    definite: true,
    keepers: true,
};

/// Finds the targets of all nets of a component, in nine steps a device at most, and tells whether
/// all sorts of paths have the classes of possible paths.
pub fn find_targets<L: Ledger>(
    wires: &Wires,
    nets: &[u32],
    places: &[u32],
    sources: u32,
    values: &[Tri],
    rooms: &mut Rooms,
    steps: &mut Steps<L>,
) -> bool
    requires rooms { AreRooms (length values.now) rooms.old }
    requires nets { All (λ net. net < length values.now) nets.now }
    requires places { All (λ place. place < length wires.now) places.now }
    requires in_range { All (IsInRange (length values.now)) wires.now }
    requires closed { IsClosedPart wires.now (is_first sources) nets.now places.now }
    ensures rooms { AreRooms (length values.now) rooms.new }
    ensures swept { (net : ℕ) → Contains nets.now net
        → IsTarget wires.now (is_first sources) values.now net (target_in result rooms.new net) }
    ensures cost { steps.new ≤ steps.old + 9 * length places.now }
{
    let possible = &mut rooms.possible;
    let plain = find_classes(
        wires, nets, places, sources, POSSIBLE, values, possible, steps,
    );
    if plain {
        return true;
    }
    let strong_definite = &mut rooms.strong_definite;
    find_classes(
        wires,
        nets,
        places,
        sources,
        STRONG_DEFINITE,
        values,
        strong_definite,
        steps,
    );
    let strong_possible = &mut rooms.strong_possible;
    find_classes(
        wires,
        nets,
        places,
        sources,
        STRONG_POSSIBLE,
        values,
        strong_possible,
        steps,
    );
    let definite = &mut rooms.definite;
    find_classes(
        wires, nets, places, sources, DEFINITE, values, definite, steps,
    );
    false
}

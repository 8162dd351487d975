//! Walks over the devices of a component.
ghost use Rattle.std.specs.Prelude.{◌≡◌, ◌<◌, ◌+◌, ◌∷◌, [], ℕ, All, Bool, Contains, List, Some, false, length, slice_get, true};
ghost use Rattle.deck.specs.declared.device.Device.{Device as DeviceData};
ghost use Rattle.deck.specs.Nets.{IsInRange};
ghost use Rattle.switch_model.specs.Components.{IsClosedPart};
ghost use Rattle.switch_model.specs.Drives.{IsClass, IsEndOf};
ghost use Rattle.switch_model.specs.Found.{AreFound, IsCharge, class_of};
ghost use Rattle.switch_model.specs.FourDrives.{IsPlain, IsTold, sort_of};
ghost use Rattle.switch_model.specs.Joins.{top_of};
ghost use Rattle.switch_model.specs.Laws.{EndsAt};
ghost use Rattle.switch_model.specs.LinksData.{is_first};
ghost use Rattle.switch_model.specs.Sweeps.{IsRoom};
ghost use Rattle.switch_model.specs.Walks.{AreAt};

use crate::drives::Drives;
use crate::lead::lead_of;
use crate::room::Room;
use crate::sort::{POSSIBLE, Sort, is_joint, is_plain_too};
use crate::{Steps, Wires};
use deck::Device;
use dom_base::Tri;
use std::sync::ledger::Ledger;

/// Finds the classes of the nets of a component by one sort of paths, and what drives and charges each,
/// in a step a device, and tells whether all of these devices are plain.
pub fn find_classes<L: Ledger>(
    wires: &Wires,
    nets: &[u32],
    places: &[u32],
    sources: u32,
    sort: Sort,
    values: &[Tri],
    room: &mut Room,
    steps: &mut Steps<L>,
) -> bool
    requires room { IsRoom (length values.now) room.old }
    requires nets { All (λ net. net < length values.now) nets.now }
    requires places { All (λ place. place < length wires.now) places.now }
    requires in_range { All (IsInRange (length values.now)) wires.now }
    requires closed { IsClosedPart wires.now (is_first sources) nets.now places.now }
    ensures room { IsRoom (length values.now) room.new }
    ensures class { IsClass wires.now (is_first sources) values.now sort nets.now room.new.parents.items }
    ensures driven { (definite keepers : Bool)
        → IsClass wires.now (is_first sources) values.now (sort_of definite keepers) nets.now room.new.parents.items
        → (net : ℕ) → Contains nets.now net → IsTold (class_of room.new net).drives definite keepers
        (IsEndOf wires.now (is_first sources) values.now (sort_of definite keepers) net) values.now }
    ensures charged { (net : ℕ) → Contains nets.now net
        → IsCharge (λ m. Contains nets.now m × (top_of room.new.parents.items m ≡ top_of room.new.parents.items net)) values.now
        (class_of room.new net).charge }
    ensures plain { result ≡ true → (d : DeviceData) (place : ℕ) → Contains places.now place
        → slice_get wires.now place ≡ Some d → IsPlain (is_first sources) values.now d }
    ensures cost { steps.new ≡ steps.old + length places.now }
{
    room.start(nets, values);
    let plain = walk_all(wires, nets, places, sources, sort, values, room, steps);
    room.flatten(nets);
    plain
}

/// Walks over the devices at some places, whose ends are nets of a list or sources, by a step a place,
/// and tells whether all of these devices are plain.
fn walk_all<L: Ledger>(
    wires: &Wires,
    nets: &[u32],
    places: &[u32],
    sources: u32,
    sort: Sort,
    values: &[Tri],
    room: &mut Room,
    steps: &mut Steps<L>,
) -> bool
    requires room { IsRoom (length values.now) room.old }
    requires places { All (λ place. place < length wires.now) places.now }
    requires in_range { All (IsInRange (length values.now)) wires.now }
    requires closed { IsClosedPart wires.now (is_first sources) nets.now places.now }
    requires started { AreFound room.old.parents.items nets.now (is_first sources) sort values.now [] room.old }
    ensures room { IsRoom (length values.now) room.new }
    ensures found { (ds : List DeviceData) × AreAt wires.now places.now ds
        × AreFound room.old.parents.items nets.now (is_first sources) sort values.now ds room.new }
    ensures plain { result ≡ true → (d : DeviceData) (place : ℕ) → Contains places.now place
        → slice_get wires.now place ≡ Some d → IsPlain (is_first sources) values.now d }
    ensures cost { steps.new ≡ steps.old + length places.now }
{
    let mut plain = true;
    for place in places {
        let device = wires.wire(*place, steps);
        if !POSSIBLE.passes(device, values) {
            continue;
        }
        plain = is_plain_too(plain, device, sources, values);
        walk(device, sources, sort, values, room);
    }
    plain
}

/// Joins the ends of a device where paths of a sort go through it from a net to another, or adds the
/// source at one end to what drives the other.
fn walk(device: Device, sources: u32, sort: Sort, values: &[Tri], room: &mut Room)
    requires room { IsRoom (length values.now) room.old }
    requires device { IsInRange (length values.now) device }
    ensures room { IsRoom (length values.now) room.new }
    ensures found { (start nets : List ℕ) (ds : List DeviceData)
        → ((n : ℕ) → EndsAt device n → is_first sources n ≡ false → Contains nets n)
        → AreFound start nets (is_first sources) sort values.now ds room.old
        → AreFound start nets (is_first sources) sort values.now (device ∷ ds) room.new }
{
    if is_joint(sort, device, sources, values) {
        room.unite(device.drain, device.source);
        return;
    }
    if let Some((inner, source)) = lead_of(POSSIBLE, device, sources, values) {
        let drives = Drives::of_source(device, values[source as usize], values);
        room.drive(inner, drives);
    }
}

//! The pending nets of one component, and the targets of its nets, found anew.
ghost use Rattle.std.specs.Prelude.{◌≡◌, ◌≢◌, true, ◌<◌, ◌≤◌, ◌+◌, ◌*◌, ◌↔◌, ℕ, [], ◌∷◌, All, Contains, IfSome, IsTrue, length};
ghost use Rattle.std.specs.List.{sum_by};
ghost use Rattle.std.specs.List.Sorted.{IsStrictlyIncreasing};
ghost use Rattle.dom_base.specs.declared.tri.Tri.{Tri as TriData};
ghost use Rattle.switch_model.specs.ComponentLists.{AreComponentLists, list_at};
ghost use Rattle.switch_model.specs.LinksData.{is_first};
ghost use Rattle.switch_model.specs.Targets.{IsPending, IsTarget};
ghost use Rattle.deck.specs.Nets.{IsInRange};
ghost use Rattle.deck.specs.Switches.{value_of};
ghost use Rattle.switch_model.specs.Components.{IsClosedPart};
ghost use Rattle.switch_model.specs.Sweeps.{AreRooms};

use crate::components::Components;
use crate::rooms::Rooms;
use crate::single::single_target;
use crate::sweep::find_targets;
use crate::{Steps, Wires};
use dom_base::Tri;
use pending_nets::Pending;
use std::sync::ledger::Ledger;

/// Keeps the targets of the nets of a component, and puts those nets into the set that are pending
/// and takes the others out, in nine steps a device at most. Takes no memory.
pub fn refresh_component<L: Ledger>(
    wires: &Wires,
    nets: &[u32],
    places: &[u32],
    sources: u32,
    values: &[Tri],
    rooms: &mut Rooms,
    pending: &mut Pending,
    steps: &mut Steps<L>,
)
    requires rooms { AreRooms (length values.now) rooms.old }
    requires nets { All (λ net. net < length values.now) nets.now }
    requires places { All (λ place. place < length wires.now) places.now }
    requires in_range { All (IsInRange (length values.now)) wires.now }
    requires closed { IsClosedPart wires.now (is_first sources) nets.now places.now }
    requires whole { pending.old.nets ≡ length values.now }
    ensures rooms { AreRooms (length values.now) rooms.new }
    ensures whole { pending.new.nets ≡ pending.old.nets }
    ensures rising { IsStrictlyIncreasing pending.old.listed → IsStrictlyIncreasing pending.new.listed }
    ensures here { (net : ℕ) → Contains nets.now net
        → Contains pending.new.listed net ↔ ((v : TriData) × IsPending wires.now (is_first sources) values.now net v) }
    ensures others { (net : ℕ) → (Contains nets.now net → ⊥) → Contains pending.new.listed net ↔ Contains pending.old.listed net }
    ensures targets { (net : ℕ) → Contains nets.now net
        → IsTarget wires.now (is_first sources) values.now net (value_of pending.new.targets net) }
    ensures kept { (net : ℕ) → (Contains nets.now net → ⊥) → value_of pending.new.targets net ≡ value_of pending.old.targets net }
    ensures cost { steps.new ≤ steps.old + 9 * length places.now }
{
    if let Some(net) = single(nets) {
        refresh_single(wires, net, places, sources, values, pending, steps);
        return;
    }
    refresh_nets(wires, nets, places, sources, values, rooms, pending, steps);
}

/// The one net of a list, where there is one.
fn single(nets: &[u32]) -> Option<u32>
    ensures { IfSome result (λ net. nets.now ≡ net ∷ []) }
{
    if !is_single(nets) {
        return None;
    }
    Some(nets[0])
}

/// Whether there is one net.
fn is_single(nets: &[u32]) -> bool
    ensures { IsTrue result ↔ (length nets.now ≡ 1) }
{
    nets.len() == 1
}

/// Keeps the target of the one net of a component, and puts the net into the set or takes it out.
fn refresh_single<L: Ledger>(
    wires: &Wires,
    net: u32,
    places: &[u32],
    sources: u32,
    values: &[Tri],
    pending: &mut Pending,
    steps: &mut Steps<L>,
)
    requires net { net < length values.now }
    requires places { All (λ place. place < length wires.now) places.now }
    requires in_range { All (IsInRange (length values.now)) wires.now }
    requires closed { IsClosedPart wires.now (is_first sources) (net ∷ []) places.now }
    requires whole { pending.old.nets ≡ length values.now }
    ensures whole { pending.new.nets ≡ pending.old.nets }
    ensures rising { IsStrictlyIncreasing pending.new.listed }
    ensures here { Contains pending.new.listed net ↔ ((v : TriData) × IsPending wires.now (is_first sources) values.now net v) }
    ensures others { (n : ℕ) → n ≢ net → Contains pending.new.listed n ↔ Contains pending.old.listed n }
    ensures target { IsTarget wires.now (is_first sources) values.now net (value_of pending.new.targets net) }
    ensures kept { (n : ℕ) → n ≢ net → value_of pending.new.targets n ≡ value_of pending.old.targets n }
    ensures cost { steps.new ≡ steps.old + length places.now }
{
    let target = single_target(wires, net, places, sources, values, steps);
    keep(pending, net, target, values);
}

/// Keeps the targets of the nets of a component, and puts the nets into the set or takes them out.
fn refresh_nets<L: Ledger>(
    wires: &Wires,
    nets: &[u32],
    places: &[u32],
    sources: u32,
    values: &[Tri],
    rooms: &mut Rooms,
    pending: &mut Pending,
    steps: &mut Steps<L>,
)
    requires rooms { AreRooms (length values.now) rooms.old }
    requires nets { All (λ net. net < length values.now) nets.now }
    requires places { All (λ place. place < length wires.now) places.now }
    requires in_range { All (IsInRange (length values.now)) wires.now }
    requires closed { IsClosedPart wires.now (is_first sources) nets.now places.now }
    requires whole { pending.old.nets ≡ length values.now }
    ensures rooms { AreRooms (length values.now) rooms.new }
    ensures whole { pending.new.nets ≡ pending.old.nets }
    ensures rising { IsStrictlyIncreasing pending.old.listed → IsStrictlyIncreasing pending.new.listed }
    ensures here { (net : ℕ) → Contains nets.now net
        → Contains pending.new.listed net ↔ ((v : TriData) × IsPending wires.now (is_first sources) values.now net v) }
    ensures others { (net : ℕ) → (Contains nets.now net → ⊥) → Contains pending.new.listed net ↔ Contains pending.old.listed net }
    ensures targets { (net : ℕ) → Contains nets.now net
        → IsTarget wires.now (is_first sources) values.now net (value_of pending.new.targets net) }
    ensures kept { (net : ℕ) → (Contains nets.now net → ⊥) → value_of pending.new.targets net ≡ value_of pending.old.targets net }
    ensures cost { steps.new ≤ steps.old + 9 * length places.now }
{
    let plain = find_targets(wires, nets, places, sources, values, rooms, steps);
    for net in nets {
        let target = rooms.target(plain, *net);
        keep(pending, *net, target, values);
    }
}

/// Keeps the target of a net, and puts the net into the set where it is pending, else takes it out.
fn keep(pending: &mut Pending, net: u32, target: Tri, values: &[Tri])
    requires net { net < length values.now }
    requires whole { pending.old.nets ≡ length values.now }
    ensures whole { pending.new.nets ≡ pending.old.nets }
    ensures rising { IsStrictlyIncreasing pending.new.listed }
    ensures here { Contains pending.new.listed net ↔ (target ≢ value_of values.now net) }
    ensures others { (n : ℕ) → n ≢ net → Contains pending.new.listed n ↔ Contains pending.old.listed n }
    ensures target { value_of pending.new.targets net ≡ target }
    ensures kept { (n : ℕ) → n ≢ net → value_of pending.new.targets n ≡ value_of pending.old.targets n }
{
    pending.set_target(net, target);
    pending.set(net, differ(target, values[net as usize]));
}

/// Refreshes some components, by rising number, in at most nine steps a device. Takes no memory.
pub fn refresh_all<L: Ledger>(
    wires: &Wires,
    components: &Components,
    numbers: &[u32],
    sources: u32,
    values: &[Tri],
    rooms: &mut Rooms,
    pending: &mut Pending,
    steps: &mut Steps<L>,
)
    requires rooms { AreRooms (length values.now) rooms.old }
    requires in_range { All (IsInRange (length values.now)) wires.now }
    requires components { AreComponentLists wires.now (is_first sources) (length values.now) components.now }
    requires numbers { All (λ number. number < length values.now) numbers.now }
    requires whole { pending.old.nets ≡ length values.now }
    ensures rooms { AreRooms (length values.now) rooms.new }
    ensures whole { pending.new.nets ≡ pending.old.nets }
    ensures rising { IsStrictlyIncreasing pending.old.listed → IsStrictlyIncreasing pending.new.listed }
    ensures here { (net number : ℕ) → Contains numbers.now number → Contains (list_at components.now.nets number) net
        → Contains pending.new.listed net ↔ ((v : TriData) × IsPending wires.now (is_first sources) values.now net v) }
    ensures others { (net : ℕ) → ((number : ℕ) → Contains numbers.now number → Contains (list_at components.now.nets number) net → ⊥)
        → Contains pending.new.listed net ↔ Contains pending.old.listed net }
    ensures targets { (net number : ℕ) → Contains numbers.now number → Contains (list_at components.now.nets number) net
        → IsTarget wires.now (is_first sources) values.now net (value_of pending.new.targets net) }
    ensures kept { (net : ℕ) → ((number : ℕ) → Contains numbers.now number → Contains (list_at components.now.nets number) net → ⊥)
        → value_of pending.new.targets net ≡ value_of pending.old.targets net }
    ensures cost { steps.new ≤ steps.old + 9 * sum_by (λ number. length (list_at components.now.places number)) numbers.now }
{
    for number in numbers {
        refresh_component(
            wires,
            components.nets.at(*number),
            components.places.at(*number),
            sources,
            values,
            rooms,
            pending,
            steps,
        );
    }
}

/// Whether two values differ.
fn differ(a: Tri, b: Tri) -> bool
    ensures { (result ≡ true) ↔ (a ≢ b) }
{
    match (a, b) {
        (Tri::Zero, Tri::Zero) | (Tri::One, Tri::One) | (Tri::Unknown, Tri::Unknown) => false,
        _ => true,
    }
}

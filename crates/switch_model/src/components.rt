//! The components of a circuit: nets that devices join, whatever their gates, with the devices that end at them.
ghost use Rattle.std.specs.Prelude.{◌≡◌, ◌<◌, ◌≤◌, ◌^◌, ◌⊎◌, ◌↔◌, ℕ, All, Contains, IfOk, IfSome, IfNone, IsTrue, OnOk, Some, false, length, slice_get};
ghost use Rattle.std.specs.List.Sorted.{IsStrictlyIncreasing};
ghost use Rattle.deck.specs.Nets.{IsInRange};
ghost use Rattle.deck.specs.declared.device.Device.{Device as DeviceData};
ghost use Rattle.switch_model.specs.ComponentLists.{AreComponentLists, AreRisingTo, IsNumbering, IsTouchedBy, is_of, list_at, listed_below, number_in};
ghost use Rattle.switch_model.specs.Components.{IsAt};
ghost use Rattle.switch_model.specs.Joins.{IsJoinForest, above, top_of};
ghost use Rattle.switch_model.specs.LinksData.{is_first};
ghost use Rattle.switch_model.specs.Laws.{EndsAt};

use crate::groups::Groups;
use crate::joins::{flatten_all, join, top};
use crate::lists::Lists;
use deck::Device;
use dom_base::OutOfMemory;
use std::alloc::Global;

/// Of each net the one that stands above it in its component, the nets and the places of the devices
/// of each component, and the components that each net touches. The number of a component is that of
/// one of its nets, the top.
#[derive(Drop)]
pub struct Components {
    pub parents: Vec<u32>,
    pub nets: Groups,
    pub places: Groups,
    pub touched: Groups,
}

impl Components {
    /// The components of devices between so many nets, of which the first are sources. The one error
    /// is out of memory.
    pub fn new(
        alloc: Global,
        devices: &[Device],
        nets: u32,
        sources: u32,
    ) -> Result<Components, OutOfMemory>
        requires few { length devices.now ≤ 2 ^ 24 }
        requires in_range { All (IsInRange nets) devices.now }
        ensures { IfOk result (λ c. AreComponentLists devices.now (is_first sources) nets c) }
    {
        let mut parents = alone(alloc, nets)?;
        join_ends(&mut parents, devices, sources);
        let nets = list_nets(alloc, parents.as_slice(), sources)?;
        let places = list_places(alloc, parents.as_slice(), devices, sources)?;
        let touched = list_touched(alloc, devices, &nets, &places)?;
        Ok(Components {
            parents,
            nets,
            places,
            touched,
        })
    }

    /// The number of the component of a net. Takes no memory.
    pub fn number(&self, net: u32) -> u32
        requires forest { IsJoinForest self.now.parents.items }
        requires within { net < length self.now.parents.items }
        ensures { result ≡ number_in self.now net }
    {
        top(self.parents.as_slice(), net)
    }
}

/// No net joined to another.
pub fn alone(alloc: Global, nets: u32) -> Result<Vec<u32>, OutOfMemory>
    ensures long { IfOk result (λ parents. length parents.items ≡ nets) }
    ensures alone { IfOk result (λ parents. (net : ℕ) → above parents.items net ≡ net) }
{
    let mut parents = Vec::with_capacity(alloc, nets as usize)?;
    for net in 0..nets {
        parents.push(net)?;
    }
    Ok(parents)
}

/// Joins the two ends of each device, where neither is a source.
fn join_ends(parents: &mut Vec<u32>, devices: &[Device], sources: u32)
    requires few { length parents.old.items < 2 ^ 32 }
    requires in_range { All (IsInRange (length parents.old.items)) devices.now }
    requires alone { (net : ℕ) → above parents.old.items net ≡ net }
    ensures forest { IsJoinForest parents.new.items }
    ensures long { length parents.new.items ≡ length parents.old.items }
    ensures numbering { IsNumbering devices.now (is_first sources) (top_of parents.new.items) }
{
    for device in devices {
        if joins_nets(*device, sources) {
            join(parents, device.drain, device.source);
        }
    }
    flatten_all(parents);
}

/// Whether neither end of a device is a source.
pub fn joins_nets(device: Device, sources: u32) -> bool
    ensures { IsTrue result ↔ ((is_first sources device.drain ≡ false) × (is_first sources device.source ≡ false)) }
{
    device.drain >= sources && device.source >= sources
}

/// Lists the nets, no sources, below each top.
fn list_nets(alloc: Global, parents: &[u32], sources: u32) -> Result<Groups, OutOfMemory>
    requires forest { IsJoinForest parents.now }
    requires few { length parents.now < 2 ^ 32 }
    ensures long { IfOk result (λ lists. length lists ≡ length parents.now) }
    ensures nets { IfOk result (λ lists. (k n : ℕ) → Contains (list_at lists k) n
        ↔ ((n < length parents.now) × (is_first sources n ≡ false) × (top_of parents.now n ≡ k))) }
{
    let mut nets = Lists::new(alloc, parents.len())?;
    for net in sources..parents.len() as u32 {
        nets.add(top(parents, net), net)?;
    }
    let groups = Groups::new(alloc, &nets)?;
    Ok(groups)
}

/// Lists the places of the devices that end at nets, no sources, below each top.
fn list_places(
    alloc: Global,
    parents: &[u32],
    devices: &[Device],
    sources: u32,
) -> Result<Groups, OutOfMemory>
    requires forest { IsJoinForest parents.now }
    requires few { length devices.now ≤ 2 ^ 24 }
    requires in_range { All (IsInRange (length parents.now)) devices.now }
    requires numbering { IsNumbering devices.now (is_first sources) (top_of parents.now) }
    ensures long { IfOk result (λ lists. length lists ≡ length parents.now) }
    ensures places { IfOk result (λ lists. (k : ℕ) → k < length parents.now → list_at lists k
        ≡ listed_below (λ place. is_of (top_of parents.now) (is_first sources) k (slice_get devices.now place)) (length devices.now)) }
{
    let mut places = Lists::new(alloc, parents.len())?;
    for (place, device) in devices.iter().enumerate() {
        if let Some(net) = inner_end(*device, sources) {
            places.add(top(parents, net), place as u32)?;
        }
    }
    let groups = Groups::new(alloc, &places)?;
    Ok(groups)
}

/// An end of a device that is no source.
fn inner_end(device: Device, sources: u32) -> Option<u32>
    ensures some { IfSome result (λ net. EndsAt device net × (is_first sources net ≡ false)) }
    ensures none { IfNone result ((net : ℕ) → EndsAt device net → is_first sources net ≡ false → ⊥) }
{
    if device.drain >= sources {
        Some(device.drain)
    } else if device.source >= sources {
        Some(device.source)
    } else {
        None
    }
}

/// Lists for each net the components that it touches.
fn list_touched(
    alloc: Global,
    devices: &[Device],
    nets: &Groups,
    places: &Groups,
) -> Result<Groups, OutOfMemory>
    requires long { length places.now ≡ length nets.now }
    requires few { length nets.now < 2 ^ 32 }
    requires in_range { All (IsInRange (length nets.now)) devices.now }
    requires nets { (k n : ℕ) → Contains (list_at nets.now k) n → n < length nets.now }
    requires places { (k place : ℕ) → Contains (list_at places.now k) place → place < length devices.now }
    ensures long { IfOk result (λ lists. length lists ≡ length nets.now) }
    ensures rising { IfOk result (λ lists. (x : ℕ) → IsStrictlyIncreasing (list_at lists x)) }
    ensures touched { IfOk result (λ lists. (x k : ℕ) → Contains (list_at lists x) k
        ↔ ((k < length nets.now) × IsTouchedBy devices.now (list_at nets.now k) (list_at places.now k) x)) }
{
    let mut touched = Lists::new(alloc, nets.len())?;
    for number in 0..nets.len() as u32 {
        touch_nets(&mut touched, nets.at(number), number)?;
        touch_devices(&mut touched, devices, places.at(number), number)?;
    }
    let groups = Groups::new(alloc, &touched)?;
    Ok(groups)
}

/// Adds the number of a component at each of its nets.
fn touch_nets(touched: &mut Lists, nets: &[u32], number: u32) -> Result<(), OutOfMemory>
    requires within { (n : ℕ) → Contains nets.now n → n < length touched.old }
    requires rising { AreRisingTo number touched.old }
    ensures long { OnOk result (length touched.new ≡ length touched.old) }
    ensures rising { OnOk result (AreRisingTo number touched.new) }
    ensures touched { OnOk result ((x k : ℕ) → Contains (list_at touched.new x) k
        ↔ (Contains (list_at touched.old x) k ⊎ ((k ≡ number) × Contains nets.now x))) }
{
    for net in nets {
        touch(touched, *net, number)?;
    }
    Ok(())
}

/// Adds the number of a component at the gate, the drain and the source of each of its devices.
fn touch_devices(
    touched: &mut Lists,
    devices: &[Device],
    places: &[u32],
    number: u32,
) -> Result<(), OutOfMemory>
    requires within { (place : ℕ) → Contains places.now place → place < length devices.now }
    requires in_range { All (IsInRange (length touched.old)) devices.now }
    requires rising { AreRisingTo number touched.old }
    ensures long { OnOk result (length touched.new ≡ length touched.old) }
    ensures rising { OnOk result (AreRisingTo number touched.new) }
    ensures touched { OnOk result ((x k : ℕ) → Contains (list_at touched.new x) k ↔ (Contains (list_at touched.old x) k
        ⊎ ((k ≡ number) × ((place : ℕ) × (d : DeviceData) × Contains places.now place
        × (slice_get devices.now place ≡ Some d) × IsAt d x)))) }
{
    for place in places {
        touch_device(touched, devices[*place as usize], number)?;
    }
    Ok(())
}

/// Adds the number of a component at the gate, the drain and the source of a device.
fn touch_device(touched: &mut Lists, device: Device, number: u32) -> Result<(), OutOfMemory>
    requires within { IsInRange (length touched.old) device }
    requires rising { AreRisingTo number touched.old }
    ensures long { OnOk result (length touched.new ≡ length touched.old) }
    ensures rising { OnOk result (AreRisingTo number touched.new) }
    ensures touched { OnOk result ((x k : ℕ) → Contains (list_at touched.new x) k
        ↔ (Contains (list_at touched.old x) k ⊎ ((k ≡ number) × IsAt device x))) }
{
    touch(touched, device.gate, number)?;
    touch(touched, device.drain, number)?;
    touch(touched, device.source, number)?;
    Ok(())
}

/// Adds a number to the list of a net, unless it is the last there.
fn touch(touched: &mut Lists, net: u32, number: u32) -> Result<(), OutOfMemory>
    requires within { net < length touched.old }
    requires rising { AreRisingTo number touched.old }
    ensures long { OnOk result (length touched.new ≡ length touched.old) }
    ensures rising { OnOk result (AreRisingTo number touched.new) }
    ensures touched { OnOk result ((x k : ℕ) → Contains (list_at touched.new x) k
        ↔ (Contains (list_at touched.old x) k ⊎ ((k ≡ number) × (x ≡ net)))) }
{
    if touched.is_last(net, number) {
        return Ok(());
    }
    touched.add(net, number)?;
    Ok(())
}

//! Shapes of groups of devices.
ghost use Rattle.std.specs.Prelude.{◌≡◌, ◌++◌, ◌∷◌, [], OnOk};
ghost use Rattle.spice_text.specs.Cells.{same_cell_shape};
ghost use Rattle.spice_text.specs.Shapes.{device_number, shape_alike, shape_equiv, shape_per, shape_writes};

use deck::Device;
use dom_base::OutOfMemory;
use std::alloc::{AllocError, Global};
use std::hash::{Hash, Hasher};
use std::marker::Model;

/// The shape of a group: its devices, by the numbers of the nets of the group.
#[derive(Clone, Drop)]
pub struct Shape(Vec<Device>);

impl Model for Shape {
    ghost use Rattle.std.specs.Prelude.{List};
    ghost use Rattle.deck.specs.declared.device.Device.{Device};

    ghost Value = { List Device };

    ghost view = { λ s. s.0.items };
}

impl Shape {
    /// No devices.
    pub fn new(alloc: Global) -> Shape
        ensures { result ≡ [] }
    {
        Shape(Vec::new(alloc))
    }

    /// Takes all devices out.
    pub fn clear(&mut self)
        ensures { self.new ≡ [] }
    {
        self.0.clear();
    }

    /// Adds a device at the end. The one error is out of memory.
    pub fn push(&mut self, device: Device) -> Result<(), OutOfMemory>
        ensures { OnOk result (self.new ≡ self.old ++ device ∷ []) }
    {
        self.0.push(device)?;
        Ok(())
    }

    /// The devices.
    pub fn devices(&self) -> &[Device]
        ensures { result.now ≡ self.now }
    {
        self.0.as_slice()
    }
}

impl PartialEq for Shape {
    ghost eq = { same_cell_shape };

    ghost laws = { shape_per };

    fn eq(&self, other: &Shape) -> bool {
        self.0.as_slice() == other.0.as_slice()
    }
}

impl Eq for Shape {
    ghost laws = { shape_equiv };
}

/// A number of a device by its nets, which differs for other nets where they are low.
fn device_number(device: Device) -> u64
    ensures { result ≡ device_number device }
{
    u64::from(device.drain) * 0x8000_0000
        + u64::from(device.source) * 0x1_0000
        + u64::from(device.gate)
}

impl Hash for Shape {
    ghost hash_input = { shape_writes };

    ghost respects_eq = { shape_alike };

    fn hash<H: Hasher>(&self, state: &mut H) {
        for device in self.0.as_slice() {
            state.write_u64(device_number(*device));
        }
    }
}

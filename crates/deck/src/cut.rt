//! Circuits that go back to their first devices.
ghost use Rattle.std.specs.Prelude.{◌≡◌, ◌≤◌, length};
ghost use Rattle.deck.specs.Cuts.{cut_to};
ghost use Rattle.deck.specs.Nets.{ends, numbers_used};

use crate::{Circuit, Device};

impl Circuit {
    /// Keeps the first `devices` devices. The nets are then the ports, and the nets of these devices
    /// in order of first appearance; the name, the phases and the ports stay. It takes no memory.
    pub fn cut(&mut self, devices: u32)
        requires { devices ≤ length self.old.devices }
        ensures { self.new ≡ cut_to self.old devices }
    {
        self.devices.truncate(devices as usize);
        let nets = count_used(self.ports, self.devices.as_slice());
        self.nets.truncate(nets as usize);
    }
}

/// How many nets there are, where the ports are the first ones and the devices number the others in
/// order of first appearance.
#[tactic(auto, using(crate::proofs::Cuts::counting_used))]
fn count_used(ports: u32, devices: &[Device]) -> u64
    ensures { result ≡ numbers_used ports (ends devices.now) }
{
    let mut count = u64::from(ports);
    for device in devices {
        count = count
            .max(u64::from(device.drain) + 1)
            .max(u64::from(device.gate) + 1)
            .max(u64::from(device.source) + 1);
    }
    count
}

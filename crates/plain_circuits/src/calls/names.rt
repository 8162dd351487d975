//! Devices with nets by their names, and the deck of such devices.
use dom_base::{Kind, OutOfMemory};
use plain_texts::{PlainDeck, PlainDevice};
use std::alloc::Global;

/// A device between the nets of these names.
#[derive(Drop)]
pub struct NamedDevice {
    pub kind: Kind,
    pub drain: Vec<u8>,
    pub gate: Vec<u8>,
    pub source: Vec<u8>,
}

impl NamedDevice {
    /// Whether two devices are the same.
    fn is_same(&self, other: &NamedDevice) -> bool {
        self.kind == other.kind
            && self.drain.as_slice() == other.drain.as_slice()
            && self.gate.as_slice() == other.gate.as_slice()
            && self.source.as_slice() == other.source.as_slice()
    }
}

/// Whether two lists of devices are the same.
pub fn same_devices(devices: &[NamedDevice], others: &[NamedDevice]) -> bool {
    devices.len() == others.len()
        && devices
            .iter()
            .zip(others.iter())
            .all(|(device, other)| device.is_same(other))
}

/// Copies of these names.
pub fn copied(alloc: Global, names: &[Vec<u8>]) -> Result<Vec<Vec<u8>>, OutOfMemory> {
    let mut all = Vec::new(alloc);
    for name in names {
        all.push(name.to_vec(alloc)?)?;
    }
    Ok(all)
}

/// The number of a net, which is added where it is new.
fn number_of(alloc: Global, nets: &mut Vec<Vec<u8>>, name: &[u8]) -> Result<usize, OutOfMemory> {
    match nets.iter().position(|other| other.as_slice() == name) {
        Some(number) => Ok(number),
        None => {
            let number = nets.len();
            nets.push(name.to_vec(alloc)?)?;
            Ok(number)
        }
    }
}

/// The deck of this name with these ports and devices. Its other nets are numbered as they appear.
pub fn numbered(
    alloc: Global,
    name: &[u8],
    ports: &[Vec<u8>],
    devices: &[NamedDevice],
) -> Result<PlainDeck, OutOfMemory> {
    let mut nets = copied(alloc, ports)?;
    let mut all = Vec::new(alloc);
    for device in devices {
        all.push(PlainDevice {
            kind: device.kind,
            drain: number_of(alloc, &mut nets, &device.drain)?,
            gate: number_of(alloc, &mut nets, &device.gate)?,
            source: number_of(alloc, &mut nets, &device.source)?,
        })?;
    }
    Ok(PlainDeck {
        name: name.to_vec(alloc)?,
        phases: Vec::new(alloc),
        ports: ports.len(),
        nets,
        devices: all,
    })
}

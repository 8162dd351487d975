//! The devices of a text by a stack of open calls, from the last subcircuit on.
use crate::calls::names::{NamedDevice, copied};
use crate::calls::subckts::{CallCard, Subckt, subckt_called};
use dom_base::OutOfMemory;
use std::alloc::Global;

/// An open call: the number of its subcircuit, its next card, what stands before the names of its inner nets, and
/// the nets of its ports.
#[derive(Drop)]
struct Frame {
    subckt: usize,
    next: usize,
    path: Vec<u8>,
    nets: Vec<Vec<u8>>,
}

/// A text's subcircuits, and which port of each call is taken for an inner net, in a wrong expansion.
#[derive(Clone, Copy)]
struct Expansion<'a> {
    subckts: &'a [Subckt],
    lost: Option<usize>,
}

impl<'a> Expansion<'a> {
    /// The whole name of a net of an open call.
    fn whole_name(self, alloc: Global, frame: &Frame, name: &[u8]) -> Result<Vec<u8>, OutOfMemory> {
        let port = self
            .subckts
            .get(frame.subckt)
            .and_then(|subckt| subckt.port(name));
        let is_lost = port.is_some() && port == self.lost && !frame.path.is_empty();
        match port.and_then(|port| frame.nets.get(port)) {
            Some(net) if !is_lost => Ok(net.to_vec(alloc)?),
            _ => {
                let mut whole = frame.path.to_vec(alloc)?;
                whole.extend_from_slice(name)?;
                Ok(whole)
            }
        }
    }

    /// The whole name of a net at a place of a card.
    fn name_at(
        self,
        alloc: Global,
        frame: &Frame,
        nets: &[Vec<u8>],
        place: usize,
    ) -> Result<Vec<u8>, OutOfMemory> {
        let name = nets.get(place).map_or(b"".as_slice(), |net| net.as_slice());
        self.whole_name(alloc, frame, name)
    }

    /// The open call of a card.
    fn opened(
        self,
        alloc: Global,
        frame: &Frame,
        name: &[u8],
        nets: &[Vec<u8>],
        subckt: usize,
    ) -> Result<Frame, OutOfMemory> {
        let mut path = frame.path.to_vec(alloc)?;
        path.extend_from_slice(name)?;
        path.push(b'.')?;
        let mut handed = Vec::new(alloc);
        for net in nets {
            handed.push(self.whole_name(alloc, frame, net)?)?;
        }
        Ok(Frame {
            subckt,
            next: 0,
            path,
            nets: handed,
        })
    }

    /// Goes on by one card of the last open call, and gives the call that it opens.
    fn step(
        self,
        alloc: Global,
        frame: &Frame,
        card: &CallCard,
        devices: &mut Vec<NamedDevice>,
    ) -> Result<Option<Frame>, OutOfMemory> {
        match card {
            CallCard::Device(kind, nets) => {
                devices.push(NamedDevice {
                    kind: *kind,
                    drain: self.name_at(alloc, frame, nets, 0)?,
                    gate: self.name_at(alloc, frame, nets, 1)?,
                    source: self.name_at(alloc, frame, nets, 2)?,
                })?;
                Ok(None)
            }
            CallCard::Call(name, nets, called) => match subckt_called(self.subckts, called) {
                Some(subckt) => Ok(Some(self.opened(alloc, frame, name, nets, subckt)?)),
                None => Ok(None),
            },
        }
    }
}

/// The devices of the last subcircuit, if they are found in so many steps. In a wrong expansion the port at this
/// place of each call is taken for an inner net.
pub fn by_stack(
    alloc: Global,
    subckts: &[Subckt],
    lost: Option<usize>,
    most: usize,
) -> Result<Option<Vec<NamedDevice>>, OutOfMemory> {
    let expansion = Expansion { subckts, lost };
    let mut devices = Vec::new(alloc);
    let mut stack = Vec::new(alloc);
    if let Some(last) = subckts.last() {
        stack.push(Frame {
            subckt: subckts.len().saturating_sub(1),
            next: 0,
            path: Vec::new(alloc),
            nets: copied(alloc, &last.ports)?,
        })?;
    }
    for _ in 0..most {
        let Some(frame) = stack.last_mut() else {
            return Ok(Some(devices));
        };
        let card = subckts
            .get(frame.subckt)
            .and_then(|subckt| subckt.cards.get(frame.next));
        frame.next = frame.next.saturating_add(1);
        match card {
            Some(card) => {
                if let Some(opened) = expansion.step(alloc, frame, card, &mut devices)? {
                    stack.push(opened)?;
                }
            }
            None => {
                stack.pop();
            }
        }
    }
    Ok(None)
}

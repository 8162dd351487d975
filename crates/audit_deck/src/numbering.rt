//! Nets that are met, by number.
ghost use Rattle.std.specs.Prelude.{◌≡◌, ◌<◌, ◌≤◌, ◌^◌, [], All, IfNone, IfOk, IfSome, OnOk, Some, length, slice_get};
ghost use Rattle.link_reduce.specs.Parts.{IsOnce};
ghost use Rattle.audit_deck.specs.Numberings.{AddsOne, IsMet};

use dom_base::OutOfMemory;
use std::alloc::Global;
use std::marker::Model;

/// Nets that are met, numbered from 0 in the order in which they are. Of nets that aren't, `numbers` has
/// anything, so all can be forgotten at once.
#[derive(Drop)]
pub struct Numbering {
    numbers: Vec<u32>,
    nets: Vec<u32>,
}

impl Model for Numbering {
    ghost use Rattle.std.specs.Prelude.{length};
    ghost use Rattle.link_reduce.specs.Parts.{IsOnce};
    ghost use Rattle.audit_deck.specs.Numberings.{IsNumbering, NumberingData};

    ghost Value = { NumberingData };

    ghost view = { λ n. record { room = length n.numbers.items; nets = n.nets.items } };

    ghost invariant = { λ n. IsNumbering n.numbers.items n.nets.items };
}

impl Numbering {
    /// None of so many nets is met. The one error is out of memory.
    pub fn new(alloc: Global, room: u32) -> Result<Numbering, OutOfMemory>
        ensures room { IfOk result (λ n. n.room ≡ room) }
        ensures none { IfOk result (λ n. n.nets ≡ []) }
    {
        let numbers = vec![in alloc; 0u32; room as usize]?;
        Ok(Numbering {
            numbers,
            nets: Vec::new(alloc),
        })
    }

    /// Forgets all nets. Takes no memory.
    pub fn clear(&mut self)
        ensures room { self.new.room ≡ self.old.room }
        ensures none { self.new.nets ≡ [] }
    {
        self.nets.clear();
    }

    /// The nets that are met, in order.
    pub fn nets(&self) -> &[u32]
        ensures nets { result.now ≡ self.now.nets }
        ensures once { IsOnce self.now.nets }
        ensures within { All (λ net. net < self.now.room) self.now.nets }
        ensures short { length self.now.nets ≤ self.now.room }
        ensures few { self.now.room < 2 ^ 32 }
    {
        self.nets.as_slice()
    }

    /// The number of a net that is met.
    pub fn number(&self, net: u32) -> Option<u32>
        requires { net < self.now.room }
        ensures some { IfSome result (λ number. slice_get self.now.nets number ≡ Some net) }
        ensures none { IfNone result (IsMet self.now.nets net → ⊥) }
    {
        let number = self.numbers[net as usize];
        let place = number as usize;
        if place < self.nets.len() && self.nets[place] == net {
            Some(number)
        } else {
            None
        }
    }

    /// Meets a net. The one error is out of memory.
    pub fn add(&mut self, net: u32) -> Result<(), OutOfMemory>
        requires { net < self.old.room }
        ensures room { self.new.room ≡ self.old.room }
        ensures added { OnOk result (AddsOne self.old.nets net self.new.nets) }
    {
        if self.number(net).is_some() {
            return Ok(());
        }
        let number = self.nets.len() as u32;
        self.nets.push(net)?;
        self.numbers[net as usize] = number;
        Ok(())
    }
}

//! A sink in memory that never fails.
ghost use Rattle.std.specs.Prelude.{◌≡◌, ◌-◌, ◌++◌, [], Some, IfOk, IsErr, length};
ghost use Rattle.std.specs.Io.KnownBytes.{WriteAppends};
ghost use Rattle.std.proofs.Common.{arith};
ghost use Rattle.dom_io.specs.Pieces.{TakesSome};
ghost use Rattle.dom_io.specs.Sure.{HasRoom};

use crate::{Sink, SinkFault};
use dom_base::OutOfMemory;
use std::alloc::Global;
use std::marker::Model;

/// A sink in memory for `size` bytes, where a piece may be written only if it fits. So no write fails.
///
/// `taken` has the bytes taken.
#[derive(Drop)]
pub struct SureSink {
    pub taken: Vec<u8>,
    pub size: usize,
}

impl Model for SureSink {
    ghost use Rattle.std.specs.Prelude.{length, vec_capacity};
    ghost use Rattle.dom_io.specs.Sure.{SureSinkData, IsSureSink};

    ghost Value = { SureSinkData };

    ghost view = { λ s. record {
      taken = s.taken.items;
      size = s.size;
    } };

    ghost invariant = { λ s. IsSureSink (length s.taken.items) s.size (vec_capacity s.taken) };
}

impl SureSink {
    /// A sink that has taken nothing. It takes memory for `room` bytes here, and none later.
    pub fn new(alloc: Global, room: usize) -> Result<SureSink, OutOfMemory>
        ensures { IfOk result (λ s. s ≡ record { taken = []; size = room }) }
    {
        Ok(SureSink {
            taken: Vec::with_capacity(alloc, room)?,
            size: room,
        })
    }
}

impl Sink for SureSink {
    ghost taken = { λ s. Some s.taken };

    ghost faults = { λ _. 0 };

    ghost has_room = { λ s n. HasRoom s n };

    ghost room_below = { λ s m n le room. Prim.omega arith };

    /// Takes the whole piece, and no memory. It never fails.
    fn write(&mut self, piece: &[u8]) -> Result<usize, SinkFault>
        requires fits { HasRoom self.old (length piece.now) }
        ensures count { IfOk result (TakesSome piece.now) }
        ensures bytes { WriteAppends (Some self.old.taken) (Some self.new.taken) result piece.now }
        ensures whole { self.new ≡ record self.old { taken = self.old.taken ++ piece.now } }
        ensures amount { IfOk result (λ n. n ≡ length piece.now) }
        ensures never { IsErr result → ⊥ }
    {
        self.taken.extend_from_slice(piece).unwrap();
        Ok(piece.len())
    }
}

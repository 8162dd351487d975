//! A sink in memory.
ghost use Rattle.std.specs.Prelude.{◌≡◌, ◌≢◌, ◌≤◌, ◌<◌, ◌-◌, ◌⊎◌, [], Some, IfOk, OnOk, OnErr, IsErr, Contains, length, min};
ghost use Rattle.std.specs.Io.KnownBytes.{WriteAppends};
ghost use Rattle.dom_io.specs.Faults.{next_count};
ghost use Rattle.dom_io.specs.Memory.{IsFullFor};
ghost use Rattle.dom_io.specs.Pieces.{TakesSome};

use crate::{Sink, SinkFault};
use dom_base::OutOfMemory;
use std::alloc::Global;
use std::marker::Model;

/// A sink in memory for `size` bytes, which takes at most `most` of them in a call. A write of some bytes fails too
/// where it is full.
///
/// `taken` has the bytes taken, and `fails` the numbers of the calls that are to fail. `calls` is
/// how many calls of `write` there were, the first having the number 1, and `faults` how many of
/// them failed. Both counts stop at the last `u64`.
#[derive(Drop)]
pub struct MemorySink {
    pub taken: Vec<u8>,
    pub most: usize,
    pub size: usize,
    pub fails: Vec<u64>,
    pub calls: u64,
    pub faults: u64,
}

impl Model for MemorySink {
    ghost use Rattle.std.specs.Prelude.{◌≤◌, length, vec_capacity};
    ghost use Rattle.dom_io.specs.Memory.{SinkData, IsSink};

    ghost Value = { SinkData };

    ghost view = { λ s. record {
      taken = s.taken.items;
      most = s.most;
      size = s.size;
      fails = s.fails.items;
      calls = s.calls;
      faults = s.faults;
    } };

    ghost invariant = { λ s. IsSink s.most (length s.taken.items) s.size (vec_capacity s.taken) };
}

impl MemorySink {
    /// A sink that has taken nothing. It takes memory for `size` bytes here, and none later.
    pub fn new(
        alloc: Global,
        most: usize,
        size: usize,
        fails: Vec<u64>,
    ) -> Result<MemorySink, OutOfMemory>
        requires { 1 ≤ most }
        ensures { IfOk result (λ s. s ≡ record { taken = []; most = most; size = size; fails = fails.items; calls = 0; faults = 0 }) }
    {
        Ok(MemorySink {
            taken: Vec::with_capacity(alloc, size)?,
            most,
            size,
            fails,
            calls: 0,
            faults: 0,
        })
    }
}

impl Sink for MemorySink {
    ghost taken = { λ s. Some s.taken };

    ghost faults = { λ s. s.faults };

    ghost has_room = { λ _ _. Unit {0} };

    ghost room_below = { λ s m n le room. tt };

    /// Fails exactly where the number of the call is in `fails`, or the piece is not empty and
    /// `size` bytes were taken before. Else it takes as many bytes as `most` and `size` allow.
    fn write(&mut self, piece: &[u8]) -> Result<usize, SinkFault>
        ensures count { IfOk result (TakesSome piece.now) }
        ensures bytes { WriteAppends (Some self.old.taken) (Some self.new.taken) result piece.now }
        ensures amount { IfOk result (λ n. n ≡ min (min (length piece.now) (self.old.size - length self.old.taken)) self.old.most) }
        ensures refused { Contains self.old.fails self.new.calls → IsErr result }
        ensures full { piece.now ≢ [] → length self.old.taken ≡ self.old.size → IsErr result }
        ensures failed_only { OnErr result (Contains self.old.fails self.new.calls ⊎ IsFullFor piece.now self.old) }
        ensures same_most { self.new.most ≡ self.old.most }
        ensures same_size { self.new.size ≡ self.old.size }
        ensures same_fails { self.new.fails ≡ self.old.fails }
        ensures calls { self.new.calls ≡ next_count self.old.calls }
        ensures later { self.old.faults ≤ self.new.faults }
        ensures failed { OnErr result (self.new.faults ≡ next_count self.old.faults) }
        ensures ok { OnOk result (self.new.faults ≡ self.old.faults) }
    {
        self.calls = self.calls.saturating_add(1);
        if self.fails.contains(&self.calls) {
            self.faults = self.faults.saturating_add(1);
            return Err(SinkFault::Failed);
        }
        let room = self.size - self.taken.len();
        if !piece.is_empty() && room == 0 {
            self.faults = self.faults.saturating_add(1);
            return Err(SinkFault::Failed);
        }
        let count = piece.len().min(room).min(self.most);
        self.taken.extend_from_slice(&piece[..count]).unwrap();
        Ok(count)
    }
}

//! Sinks: output streams.
ghost use Rattle.std.specs.Prelude.{◌≤◌, ◌-◌, ◌↔◌, ℕ, List, Option, IfOk, OnErr, length};
ghost use Rattle.std.specs.Io.KnownBytes.{WriteAppends};
ghost use Rattle.dom_io.specs.Faults.{Rose};
ghost use Rattle.dom_io.specs.Pieces.{TakesSome};

/// The sink failed and took nothing.
#[derive(Clone, Copy, Debug, PartialEq, Eq)]
pub enum SinkFault {
    Failed,
}

/// An output stream: what takes bytes.
pub trait Sink {
    /// The bytes that were taken, where they are known.
    ghost taken: { Self → Option (List ℕ) };

    /// How often the sink has failed. The count stops at the last `u64`.
    ghost faults: { Self → ℕ };

    /// The lengths for which there is room.
    ghost has_room: { Self → ℕ → Type 0 };

    /// How many of the first bytes of the piece were taken: at least one where there is one. At an
    /// error, which the sink counts, nothing was taken.
    fn write(&mut self, piece: &[u8]) -> Result<usize, SinkFault>
        requires { has_room self.old (length piece.now) }
        ensures count { IfOk result (TakesSome piece.now) }
        ensures bytes { WriteAppends (taken self.old) (taken self.new) result piece.now }
        ensures room { IfOk result (λ n. (m : ℕ) → n ≤ m → has_room self.old m → has_room self.new (m - n)) }
        ensures room_kept { OnErr result ((m : ℕ) → has_room self.old m ↔ has_room self.new m) }
        ensures later { faults self.old ≤ faults self.new }
        ensures failed { OnErr result (Rose (faults self.old) (faults self.new)) };

    /// Room for a length is room for each smaller one.
    ghost room_below: { (s : Self) (m n : ℕ) → m ≤ n → has_room s n → has_room s m };
}

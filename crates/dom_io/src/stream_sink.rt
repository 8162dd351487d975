//! The streams of the system.
ghost use Rattle.std.specs.Prelude.{◌≡◌, ◌≤◌, ◌-◌, IfOk, OnOk, OnErr};
ghost use Rattle.std.specs.Io.KnownBytes.{WriteAppends};
ghost use Rattle.dom_io.specs.Faults.{next_count};
ghost use Rattle.dom_io.specs.Pieces.{TakesSome};

use crate::{Sink, SinkFault};
use std::io::Write;

/// A stream, with a count of the writes that failed.
#[derive(Drop)]
pub struct StreamSink<W: Write> {
    pub stream: W,
    pub faults: u64,
}

impl<W: Write> Sink for StreamSink<W> {
    ghost taken = { λ s. W.contents s.stream };

    ghost faults = { λ s. s.faults };

    ghost has_room = { λ _ _. Unit {0} };

    ghost room_below = { λ s m n le room. tt };

    /// Passes the piece on to one `write` of the stream. An error, and nothing taken of a piece
    /// that is not empty, are faults.
    fn write(&mut self, piece: &[u8]) -> Result<usize, SinkFault>
        ensures count { IfOk result (TakesSome piece.now) }
        ensures bytes { WriteAppends (W.contents self.old.stream) (W.contents self.new.stream) result piece.now }
        ensures later { self.old.faults ≤ self.new.faults }
        ensures failed { OnErr result (self.new.faults ≡ next_count self.old.faults) }
        ensures ok { OnOk result (self.new.faults ≡ self.old.faults) }
    {
        match self.stream.write(piece) {
            Ok(n) if n > 0 || piece.is_empty() => Ok(n),
            _ => {
                self.faults = self.faults.saturating_add(1);
                Err(SinkFault::Failed)
            }
        }
    }
}

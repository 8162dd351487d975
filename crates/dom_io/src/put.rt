//! Putting whole texts into sinks.
ghost use Rattle.std.specs.Prelude.{◌≡◌, ◌≤◌, ◌-◌, ℕ, [], OnOk, OnErr, length};
ghost use Rattle.std.specs.Io.KnownBytes.{Appends};
ghost use Rattle.dom_io.specs.Faults.{Rose};
ghost use Rattle.dom_io.specs.Pieces.{AppendsPrefix};

use crate::{Sink, SinkFault};

/// Writes all the bytes in order, and takes no memory. At an error the sink took the first of
/// them, but not all. Where there are no bytes, the sink is not called.
pub fn put_all<K: Sink>(sink: &mut K, bytes: &[u8]) -> Result<(), SinkFault>
    requires { K.has_room sink.old (length bytes.now) }
    ensures ok { OnOk result (Appends (K.taken sink.old) (K.taken sink.new) bytes.now) }
    ensures err { OnErr result (AppendsPrefix (K.taken sink.old) (K.taken sink.new) bytes.now) }
    ensures nothing { bytes.now ≡ [] → sink.new ≡ sink.old }
    ensures room { (m : ℕ) → length bytes.now ≤ m → K.has_room sink.old m → K.has_room sink.new (m - length bytes.now) }
    ensures later { K.faults sink.old ≤ K.faults sink.new }
    ensures failed { OnErr result (Rose (K.faults sink.old) (K.faults sink.new)) }
{
    let mut done = 0;
    'pieces: while done < bytes.len() {
        done += sink.write(&bytes[done..])?;
    }
    Ok(())
}

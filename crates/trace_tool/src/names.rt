//! Copies of the names of nets.
ghost use Rattle.std.specs.Prelude.{◌≡◌, IfOk};

use dom_base::{NetName, OutOfMemory};

/// A copy of a name.
pub fn copied(name: &NetName) -> Result<NetName, OutOfMemory>
    ensures { IfOk result (λ copy. copy ≡ name.now) }
{
    Ok(name.clone()?)
}

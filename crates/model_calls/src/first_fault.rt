//! Reports of faults.
ghost use Rattle.std.specs.Prelude.{◌≡◌, IfOk};

use dom_base::{Name, OutOfMemory};

/// The first fault of a kind: the line of its card, from 1, and its name.
#[derive(Drop)]
pub struct FirstFault {
    pub line: u64,
    pub name: Name,
}

impl FirstFault {
    /// A report of this line and name. It fails only for want of memory.
    pub fn new(line: u64, name: &Name) -> Result<FirstFault, OutOfMemory>
        ensures { IfOk result (λ report. (report.line ≡ line) × (report.name ≡ name.now)) }
    {
        Ok(FirstFault {
            line,
            name: name.clone()?,
        })
    }
}

//! A mark for each net.
ghost use Rattle.std.specs.Prelude.{◌≡◌, ◌++◌, ◌<◌, ◌∷◌, All, IfOk, OnOk, Some, [], false, length, replicate, slice_get};
ghost use Rattle.audit_deck.specs.Marks.{AddsMarks};
ghost use Rattle.audit_deck.specs.Numberings.{IsMet};

use dom_base::OutOfMemory;
use std::alloc::Global;
use std::marker::Model;

/// Which nets are marked.
#[derive(Drop)]
pub struct NetMarks(Vec<bool>);

impl Model for NetMarks {
    ghost use Rattle.std.specs.Prelude.{Bool, List};

    ghost Value = { List Bool };

    ghost view = { λ m. m.0.items };
}

impl NetMarks {
    /// No net has a mark yet. Takes no memory.
    pub fn new(alloc: Global) -> NetMarks
        ensures { result ≡ [] }
    {
        NetMarks(Vec::new(alloc))
    }

    /// Of so many nets none is marked. The one error is out of memory.
    pub fn none_of(alloc: Global, count: u32) -> Result<NetMarks, OutOfMemory>
        ensures { IfOk result (λ marks. marks ≡ replicate count false) }
    {
        let marks = vec![in alloc; false; count as usize]?;
        Ok(NetMarks(marks))
    }

    /// Adds the mark of the next net. The one error is out of memory.
    pub fn add(&mut self, mark: bool) -> Result<(), OutOfMemory>
        ensures { OnOk result (self.new ≡ self.old ++ mark ∷ []) }
    {
        self.0.push(mark)?;
        Ok(())
    }

    /// Whether a net is marked.
    pub fn has(&self, net: u32) -> bool
        requires { net < length self.now }
        ensures { slice_get self.now net ≡ Some result }
    {
        self.0[net as usize]
    }

    /// Marks a net.
    pub fn mark(&mut self, net: u32)
        requires { net < length self.old }
        ensures { AddsMarks (λ n. n ≡ net) self.old self.new }
    {
        self.0[net as usize] = true;
    }

    /// Marks some nets.
    pub fn mark_all(&mut self, nets: &[u32])
        requires { All (λ net. net < length self.old) nets.now }
        ensures { AddsMarks (IsMet nets.now) self.old self.new }
    {
        for net in nets {
            self.mark(*net);
        }
    }
}

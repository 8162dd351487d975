//! The pending nets, and the targets of all nets.
ghost use Rattle.std.specs.Prelude.{◌≡◌, ◌≢◌, ◌<◌, ◌≤◌, ◌↔◌, ◌^◌, ℕ, [], true, IfOk, Contains, Some, length, replicate, slice_get, slice_index_or, slice_set};
ghost use Rattle.std.specs.List.Sorted.{IsStrictlyIncreasing};
ghost use Rattle.dom_base.specs.declared.tri.Tri.TheVariants.{Unknown};

use crate::tree::{leaf_at, set_leaf};
use dom_base::{OutOfMemory, Tri};
use std::alloc::Global;
use std::marker::Model;

/// Some of a number of nets, in rising order, and a target of each net.
#[derive(Drop)]
pub struct Pending {
    nets: u32,
    size: usize,
    levels: u32,
    counts: Vec<u32>,
    targets: Vec<Tri>,
}

impl Model for Pending {
    ghost use Rattle.pending_nets.specs.PendingData.{PendingData};
    ghost use Rattle.pending_nets.specs.Tree.{IsPendingTree, listed_at};

    ghost Value = { PendingData };

    ghost view = { λ p. record { nets = p.nets; listed = listed_at p.counts.items p.levels 1 0; targets = p.targets.items } };

    ghost invariant = { λ p. IsPendingTree p.nets p.size p.levels p.counts.items p.targets.items };
}

impl Pending {
    /// None of so many nets, with `Unknown` as the target of each. The one error is out of memory.
    pub fn new(alloc: Global, nets: u32) -> Result<Pending, OutOfMemory>
        requires { nets ≤ 2 ^ 26 }
        ensures { IfOk result (λ p. p ≡ record { nets = nets; listed = []; targets = replicate nets Unknown }) }
    {
        let mut size = 1;
        let mut levels = 0;
        'grow: while size < nets as usize {
            size *= 2;
            levels += 1;
        }
        let counts = zeros(alloc, 2 * size)?;
        let targets = unknowns(alloc, nets)?;
        Ok(Pending {
            nets,
            size,
            levels,
            counts,
            targets,
        })
    }

    /// How many nets there are. Takes no memory.
    pub fn count(&self) -> u64
        ensures { result ≡ length self.now.listed }
    {
        self.counts[1] as u64
    }

    /// The net at a place. Takes no memory.
    pub fn nth(&self, place: u64) -> u32
        requires { place < length self.now.listed }
        ensures net { slice_get self.now.listed place ≡ Some result }
    {
        leaf_at(self.counts.as_slice(), self.size, self.levels, place as u32) as u32
    }

    /// Puts a net in, or takes it out. Takes no memory.
    pub fn set(&mut self, net: u32, on: bool)
        requires { net < self.old.nets }
        ensures nets { self.new.nets ≡ self.old.nets }
        ensures rising { IsStrictlyIncreasing self.new.listed }
        ensures here { Contains self.new.listed net ↔ (on ≡ true) }
        ensures others { (n : ℕ) → n ≢ net → Contains self.new.listed n ↔ Contains self.old.listed n }
        ensures targets { self.new.targets ≡ self.old.targets }
    {
        let leaf = self.size + net as usize;
        set_leaf(&mut self.counts, self.size, leaf, on as u32);
    }

    /// The target that is kept of a net. Takes no memory.
    pub fn target(&self, net: u32) -> Tri
        requires { net < self.now.nets }
        ensures { result ≡ slice_index_or self.now.targets net Unknown }
    {
        self.targets[net as usize]
    }

    /// Keeps a target of a net. Takes no memory.
    pub fn set_target(&mut self, net: u32, target: Tri)
        requires { net < self.old.nets }
        ensures nets { self.new.nets ≡ self.old.nets }
        ensures listed { self.new.listed ≡ self.old.listed }
        ensures targets { self.new.targets ≡ slice_set self.old.targets net target }
        ensures here { slice_index_or self.new.targets net Unknown ≡ target }
    {
        self.targets[net as usize] = target;
    }
}

fn zeros(alloc: Global, len: usize) -> Result<Vec<u32>, OutOfMemory>
    ensures { IfOk result (λ v. v.items ≡ replicate len 0) }
{
    let mut counts = Vec::with_capacity(alloc, len)?;
    for _ in 0..len {
        counts.push(0)?;
    }
    Ok(counts)
}

fn unknowns(alloc: Global, len: u32) -> Result<Vec<Tri>, OutOfMemory>
    ensures { IfOk result (λ v. v.items ≡ replicate len Unknown) }
{
    let mut targets = Vec::new(alloc);
    targets.resize(len as usize, Tri::Unknown)?;
    Ok(targets)
}

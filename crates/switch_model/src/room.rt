//! Room for the classes of nets that paths of one sort join.
ghost use Rattle.std.specs.Prelude.{◌≡◌, ◌≢◌, ◌<◌, ◌↔◌, ◌⊎◌, ℕ, All, Contains, IfOk, length};
ghost use Rattle.deck.specs.Switches.{value_of};
ghost use Rattle.switch_model.specs.Found.{IsUnited, IsWith, class_at, class_of};
ghost use Rattle.switch_model.specs.FourDrives.{no_drives};
ghost use Rattle.switch_model.specs.Joins.{AreJoined, top_of};
ghost use Rattle.switch_model.specs.Sweeps.{IsRoom};

use crate::class::Class;
use crate::components::alone;
use crate::drives::Drives;
use crate::joins::{flatten, join, lift, top};
use dom_base::{OutOfMemory, Tri};
use std::alloc::Global;

/// Room for the classes of nets by one sort of paths: the forest of the nets, and what is known of the
/// class of each top.
#[derive(Drop)]
pub struct Room {
    pub parents: Vec<u32>,
    pub classes: Vec<Class>,
}

impl Room {
    /// Room for so many nets. The one error is out of memory.
    pub fn new(alloc: Global, nets: u32) -> Result<Room, OutOfMemory>
        ensures { IfOk result (λ room. IsRoom nets room) }
    {
        let parents = alone(alloc, nets)?;
        let classes = no_classes(alloc, nets)?;
        Ok(Room { parents, classes })
    }

    /// What is known of the class of a net.
    pub fn class(&self, net: u32) -> Class
        requires room { (n : ℕ) × IsRoom n self.now × (net < n) }
        ensures { result ≡ class_of self.now net }
    {
        self.classes[top(self.parents.as_slice(), net) as usize]
    }

    /// Takes some nets out of all joins: each is a class of its own, with its value.
    pub fn start(&mut self, nets: &[u32], values: &[Tri])
        requires room { IsRoom (length values.now) self.old }
        requires nets { All (λ net. net < length values.now) nets.now }
        ensures room { IsRoom (length values.now) self.new }
        ensures alone { (net : ℕ) → Contains nets.now net → top_of self.new.parents.items net ≡ net }
        ensures drives { (net : ℕ) → Contains nets.now net → (class_at self.new.classes.items net).drives ≡ no_drives }
        ensures charge { (net : ℕ) → Contains nets.now net → (class_at self.new.classes.items net).charge ≡ value_of values.now net }
    {
        for net in nets {
            self.parents[*net as usize] = *net;
            self.classes[*net as usize] = Class::alone(values[*net as usize]);
        }
    }

    /// Joins two nets, and what is known of them.
    pub fn unite(&mut self, a: u32, b: u32)
        requires room { (n : ℕ) × IsRoom n self.old × (a < n) × (b < n) }
        ensures room { (n : ℕ) → IsRoom n self.old → IsRoom n self.new }
        ensures joined { (x y : ℕ) → AreJoined self.new.parents.items x y ↔ AreJoined self.old.parents.items x y
            ⊎ ((AreJoined self.old.parents.items x a × AreJoined self.old.parents.items b y)
            ⊎ (AreJoined self.old.parents.items x b × AreJoined self.old.parents.items a y)) }
        ensures united { (keep gone : ℕ) × IsUnited self.old self.new a b keep gone }
    {
        let (keep, gone) = join(&mut self.parents, a, b);
        let class = self.classes[keep as usize].joined(self.classes[gone as usize]);
        self.classes[keep as usize] = class;
    }

    /// Adds sources to what drives the class of a net.
    pub fn drive(&mut self, net: u32, drives: Drives)
        requires room { (n : ℕ) × IsRoom n self.old × (net < n) }
        ensures room { (n : ℕ) → IsRoom n self.old → IsRoom n self.new }
        ensures tops { (n : ℕ) → top_of self.new.parents.items n ≡ top_of self.old.parents.items n }
        ensures driven { (t : ℕ) → t ≡ top_of self.old.parents.items net → IsWith (class_at self.old.classes.items t).drives drives
            (class_at self.new.classes.items t).drives }
        ensures charge { (t : ℕ) → (class_at self.new.classes.items t).charge ≡ (class_at self.old.classes.items t).charge }
        ensures others { (t : ℕ) → t ≢ top_of self.old.parents.items net
            → class_at self.new.classes.items t ≡ class_at self.old.classes.items t }
    {
        let above = lift(&mut self.parents, net) as usize;
        let class = self.classes[above].driven(drives);
        self.classes[above] = class;
    }

    /// Nets, by rising number, come to stand right below their tops.
    pub fn flatten(&mut self, nets: &[u32])
        requires { (n : ℕ) × IsRoom n self.old × All (λ net. net < n) nets.now }
        ensures room { (n : ℕ) → IsRoom n self.old → IsRoom n self.new }
        ensures tops { (n : ℕ) → top_of self.new.parents.items n ≡ top_of self.old.parents.items n }
        ensures classes { self.new.classes.items ≡ self.old.classes.items }
    {
        flatten(&mut self.parents, nets);
    }
}

/// So many classes, of nothing yet.
fn no_classes(alloc: Global, nets: u32) -> Result<Vec<Class>, OutOfMemory>
    ensures { IfOk result (λ classes. length classes.items ≡ nets) }
{
    let mut classes = Vec::with_capacity(alloc, nets as usize)?;
    for _ in 0..nets {
        classes.push(Class::alone(Tri::Unknown))?;
    }
    Ok(classes)
}

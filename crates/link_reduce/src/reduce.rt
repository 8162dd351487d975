//! Whether links are a series-parallel network, and how wide and how high it is.
ghost use Rattle.std.specs.Prelude.{◌<◌, ◌≤◌, ◌^◌, All, IfNone, IfOk, IfSome, length, ℕ};
ghost use Rattle.link_reduce.specs.Parts.{IsSpelled, links_of};
ghost use Rattle.sp_reduction.specs.Reduction.{IsNetwork};

use crate::part::Ends;
use crate::reduction::Reduction;
use dom_base::OutOfMemory;
use std::alloc::Global;
use std::marker::Model;

/// How wide and how high a network is: the most links side by side, and the most on a way from one end to
/// the other.
#[derive(Clone, Copy, Debug, PartialEq, Eq)]
pub struct Shape {
    pub width: u32,
    pub height: u32,
}

/// A network as a tree spells it: how wide and how high it is, and the numbers of its links, which are
/// their places, in order.
#[derive(Drop)]
pub struct Spelled {
    pub width: u32,
    pub height: u32,
    pub order: Vec<u32>,
}

impl Model for Spelled {
    ghost use Rattle.link_reduce.specs.Spellings.{SpelledData};

    ghost Value = { SpelledData };

    ghost view = { λ s. record { width = s.width; height = s.height; order = s.order.items } };
}

/// The width and the height of the network of some links, at most 16,777,216, each of width and height 1,
/// between two of so many nets. It is `None` exactly where the links are no series-parallel network between
/// the two. Each step joins two links, and a net is looked at again only where one of its links was joined,
/// so the time is linear in links and nets. The one error is out of memory.
pub fn shape_of(
    alloc: Global,
    ends: &[Ends],
    nets: u32,
    top: u32,
    bottom: u32,
) -> Result<Option<Shape>, OutOfMemory>
    requires few { length ends.now ≤ 2 ^ 24 }
    requires inside { All (λ e. (e.from < nets) × (e.to < nets)) ends.now }
    ensures some { IfOk result (λ s. IfSome s (λ shape. IsNetwork (links_of ends.now) top bottom shape.width shape.height)) }
    ensures none { IfOk result (λ s. IfNone s ((w h : ℕ) → IsNetwork (links_of ends.now) top bottom w h → ⊥)) }
{
    let mut reduction = Reduction::new(alloc, nets)?;
    if reduction.begin(ends)? {
        reduction.run(top, bottom)?;
        Ok(reduction.shape(top, bottom))
    } else {
        Ok(None)
    }
}

/// The network of some links, as by `shape_of`, with its links in the order in which a tree between the two
/// nets spells them. The one error is out of memory.
pub fn spelled_of(
    alloc: Global,
    ends: &[Ends],
    nets: u32,
    top: u32,
    bottom: u32,
) -> Result<Option<Spelled>, OutOfMemory>
    requires few { length ends.now ≤ 2 ^ 24 }
    requires inside { All (λ e. (e.from < nets) × (e.to < nets)) ends.now }
    ensures some { IfOk result (λ s. IfSome s (λ t. IsSpelled (links_of ends.now) top bottom t.width t.height t.order)) }
    ensures none { IfOk result (λ s. IfNone s ((w h : ℕ) → IsNetwork (links_of ends.now) top bottom w h → ⊥)) }
{
    let mut reduction = Reduction::new(alloc, nets)?;
    if reduction.begin(ends)? {
        reduction.run(top, bottom)?;
        reduction.spelled(alloc, top, bottom, ends.len())
    } else {
        Ok(None)
    }
}

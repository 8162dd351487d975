//! The least sums of the parts below the pairs of a forest, joined up pair by pair (Zhao, Sapatnekar 1998).
ghost use Rattle.std.specs.Prelude.{◌≡◌, ◌≤◌, ◌<◌, ◌*◌, ◌^◌, [], IfOk, OnOk, drop, length, take};
ghost use Rattle.tree_map.specs.CoverSums.{cut_at, sum_at, with_cut, with_row};

use crate::Bounds;
use crate::cost::Costs;
use dom_base::OutOfMemory;
use std::alloc::Global;
use std::marker::Model;

/// The least sum of each pair and shape: the leaves of the tree of the pair in this shape, and the
/// whole costs of the trees that are cut off below it. For each pair `width * height` numbers, by
/// rising height and then by rising width, 0 where the pair can't have the shape. And for each pair what
/// it adds to the tree above it where it is cut: a leaf and its least cost as a root, 0 where it can't be one.
#[derive(Drop)]
pub(crate) struct Sums {
    width: u32,
    height: u32,
    costs: Costs,
    sums: Vec<u32>,
    cuts: Vec<u32>,
}

impl Model for Sums {
    ghost use Rattle.tree_map.specs.CoverSums.{SumsData};

    ghost Value = { SumsData };

    ghost view = { λ t. record { w = t.width; h = t.height; costs = t.costs; sums = t.sums.items; cuts = t.cuts.items } };
}

impl Sums {
    /// Those of no pair, with room for so many pairs.
    pub(crate) fn none(
        alloc: Global,
        bounds: Bounds,
        costs: Costs,
        pairs: usize,
    ) -> Result<Sums, OutOfMemory>
        requires pairs { pairs < 2 ^ 32 }
        requires width { bounds.w ≤ 8 }
        requires height { bounds.h ≤ 6 }
        ensures { IfOk result (λ t. t ≡ record { w = bounds.w; h = bounds.h; costs = costs; sums = []; cuts = [] }) }
    {
        let shapes = (bounds.w * bounds.h) as usize;
        Ok(Sums {
            width: bounds.w,
            height: bounds.h,
            costs,
            sums: Vec::with_capacity(alloc, pairs * shapes)?,
            cuts: Vec::with_capacity(alloc, pairs)?,
        })
    }

    /// What trees cost.
    pub(crate) fn costs(&self) -> Costs
        ensures { result ≡ self.now.costs }
    {
        self.costs
    }

    /// The bounds of the shapes.
    pub(crate) fn bounds(&self) -> Bounds
        ensures width { result.w ≡ self.now.w }
        ensures height { result.h ≡ self.now.h }
    {
        Bounds {
            w: self.width,
            h: self.height,
        }
    }

    /// The least sum of a pair in this shape, where it can have it.
    pub(crate) fn sum(&self, place: usize, height: u32, width: u32) -> Option<u32>
        ensures { result ≡ sum_at self.now place (record { height = height; width = width }) }
    {
        if height == 0 || height > self.height || width == 0 || width > self.width {
            return None;
        }
        let row = self.width as usize * self.height as usize;
        let inner = (height - 1) as usize * self.width as usize + (width - 1) as usize;
        let index = place.saturating_mul(row).saturating_add(inner);
        let sum = *self.sums.get(index)?;
        if sum == 0 { None } else { Some(sum) }
    }

    /// The numbers of a pair, by rising height and then by rising width.
    pub(crate) fn row(&self, place: usize) -> &[u32]
        ensures { result.now ≡ take (self.now.w * self.now.h) (drop (place * (self.now.w * self.now.h)) self.now.sums) }
    {
        let count = self.width as usize * self.height as usize;
        let start = place.saturating_mul(count).min(self.sums.len());
        let rest = &self.sums[start..];
        &rest[..count.min(rest.len())]
    }

    /// What a pair adds to the tree above it where it is cut, where it can be.
    pub(crate) fn cut(&self, place: usize) -> Option<u32>
        ensures { result ≡ cut_at self.now place }
    {
        let cut = *self.cuts.get(place)?;
        if cut == 0 { None } else { Some(cut) }
    }

    /// How many pairs have their sums.
    pub(crate) fn count(&self) -> usize
        ensures { result ≡ length self.now.cuts }
    {
        self.cuts.len()
    }

    /// Appends the sums of one more pair.
    pub(crate) fn push_row(&mut self, row: &[u32]) -> Result<(), OutOfMemory>
        ensures { OnOk result (self.new ≡ with_row self.old row.now) }
    {
        self.sums.extend_from_slice(row)?;
        Ok(())
    }

    /// Appends what one more pair adds where it is cut.
    pub(crate) fn push_cut(&mut self, cut: u32) -> Result<(), OutOfMemory>
        ensures { OnOk result (self.new ≡ with_cut self.old cut) }
    {
        self.cuts.push(cut)?;
        Ok(())
    }
}

//! The reduction of links, step by step.
ghost use Rattle.std.specs.Prelude.{◌≡◌, ◌<◌, ◌≤◌, ◌+◌, ◌^◌, ◌∷◌, ◌≢◌, All, IfNone, IfOk, IfSome, List, OnOk, Some, [], length, slice_get, slice_set, true, false, ℕ, ◌++◌};
ghost use Rattle.link_reduce.specs.Parts.{IsSpelled, PartEndsAt, links_of, listed};
ghost use Rattle.link_reduce.specs.Reductions.{Holds, IsBegun, IsListed, IsOnlyLive, LeadsTo, IsSound, Settles, nothing, with_at, with_listed, with_part, with_work, without};
ghost use Rattle.link_reduce.specs.declared.part.Ends.{Ends as EndsData};
ghost use Rattle.sp_reduction.specs.Reduction.{IsNetwork};
ghost use Rattle.link_reduce.specs.declared.part.Part.{Part as PartData};

use crate::part::{Ends, Made, Part};
use crate::reduce::{Shape, Spelled};
use crate::spelling::{Step, spell};
use crate::stacks::Stacks;
use dom_base::OutOfMemory;
use std::alloc::Global;
use std::marker::Model;

/// All parts that were made, which of them are left, the numbers of parts by net, and the nets to
/// look at.
#[derive(Drop)]
pub struct Reduction {
    parts: Vec<Part>,
    live: Vec<bool>,
    at: Stacks,
    work: Vec<u32>,
}

impl Model for Reduction {
    ghost use Rattle.link_reduce.specs.Reductions.{ReductionData};

    ghost Value = { ReductionData };

    ghost view = { λ r. record { parts = r.parts.items; live = r.live.items; at = r.at; work = r.work.items } };
}

impl Reduction {
    /// Adds a part, and looks at its ends again.
    fn add(&mut self, part: Part) -> Result<(), OutOfMemory>
        requires from { part.from < length self.old.at }
        requires to { part.to < length self.old.at }
        requires few { length self.old.parts < 2 ^ 32 }
        ensures { OnOk result (self.new ≡ with_part self.old part) }
    {
        let number = self.parts.len() as u32;
        self.parts.push(part)?;
        self.live.push(true)?;
        self.at.add(part.from, number)?;
        self.at.add(part.to, number)?;
        self.work.push(part.from)?;
        self.work.push(part.to)?;
        Ok(())
    }

    /// A part is joined to another.
    fn remove(&mut self, part: u32)
        requires { part < length self.old.live }
        ensures { self.new ≡ without self.old part }
    {
        self.live[part as usize] = false;
    }

    /// The part with a number.
    fn part(&self, number: u32) -> Part
        requires { number < length self.now.parts }
        ensures { slice_get self.now.parts number ≡ Some result }
    {
        self.parts[number as usize]
    }

    /// The net to which a part leads from another.
    fn far_end(&self, number: u32, net: u32) -> u32
        requires { (p : PartData) × (slice_get self.now.parts number ≡ Some p) × PartEndsAt p net }
        ensures { LeadsTo self.now number net result }
    {
        self.part(number).other_end(net)
    }

    /// Whether the part with a number is left.
    fn is_live(&self, number: u32) -> bool
        requires { number < length self.now.live }
        ensures { slice_get self.now.live number ≡ Some result }
    {
        self.live[number as usize]
    }

    /// Takes the last part from the list of a net.
    fn take_listed(&mut self, net: u32) -> Option<u32>
        requires { net < length self.old.at }
        ensures same { self.new ≡ with_at self.old (slice_set self.old.at net (listed self.new.at net)) }
        ensures some { IfSome result (λ part. listed self.old.at net ≡ listed self.new.at net ++ part ∷ []) }
        ensures none { IfNone result ((listed self.old.at net ≡ []) × (listed self.new.at net ≡ [])) }
    {
        self.at.take(net)
    }

    /// Takes the last part that is left from the list of a net.
    fn take_live(&mut self, net: u32) -> Option<u32>
        requires within { net < length self.old.at }
        requires long { length self.old.live ≡ length self.old.parts }
        requires listed { (held : List ℕ) × IsListed held net self.old }
        ensures same { self.new ≡ with_at self.old self.new.at }
        ensures room { length self.new.at ≡ length self.old.at }
        ensures some { IfSome result (λ part. (held : List ℕ) → IsListed held net self.old → IsListed (part ∷ held) net self.new) }
        ensures empty { IfNone result (listed self.new.at net ≡ []) }
        ensures none { IfNone result ((held : List ℕ) → IsListed held net self.old → IsListed held net self.new) }
    {
        'listed: while let Some(part) = self.take_listed(net) {
            if self.is_live(part) {
                return Some(part);
            }
        }
        None
    }

    /// Puts a part back that was taken from the list of a net.
    fn put(&mut self, net: u32, part: u32) -> Result<(), OutOfMemory>
        requires { net < length self.old.at }
        ensures { OnOk result (self.new ≡ with_listed self.old net part) }
    {
        self.at.add(net, part)
    }

    /// Joins two parts that were taken from the list of a net, and lead to one net, in parallel.
    fn join_parallel(
        &mut self,
        net: u32,
        first: u32,
        second: u32,
        end: u32,
    ) -> Result<(), OutOfMemory>
        requires holding { (a : ℕ) × (b : ℕ) × Holds a b (second ∷ first ∷ []) net self.old }
        requires first { LeadsTo self.old first net end }
        requires second { LeadsTo self.old second net end }
        ensures { OnOk result ((a b : ℕ) → Settles a b (second ∷ first ∷ []) net self.old self.new) }
    {
        let (p, q) = (self.part(first), self.part(second));
        self.remove(first);
        self.remove(second);
        self.add(Part {
            from: net,
            to: end,
            width: p.width + q.width,
            height: p.height.max(q.height),
            made: Made::Parallel(first, second),
        })
    }

    /// Joins two parts that were taken from the list of a net, at which no other ends, in series.
    fn join_series(
        &mut self,
        net: u32,
        first: u32,
        second: u32,
        start: u32,
        end: u32,
    ) -> Result<(), OutOfMemory>
        requires holding { (a : ℕ) × (b : ℕ) × Holds a b (second ∷ first ∷ []) net self.old }
        requires first { LeadsTo self.old first net start }
        requires second { LeadsTo self.old second net end }
        requires differ { start ≢ end }
        requires alone { listed self.old.at net ≡ [] }
        ensures { OnOk result ((a b : ℕ) → net ≢ a → net ≢ b → Settles a b (second ∷ first ∷ []) net self.old self.new) }
    {
        let (p, q) = (self.part(first), self.part(second));
        self.remove(first);
        self.remove(second);
        self.add(Part {
            from: start,
            to: end,
            width: p.width.max(q.width),
            height: p.height + q.height,
            made: Made::Series(first, second),
        })
    }

    /// Looks at a net: joins two parts that lead from it to one net, or, where two parts alone end at
    /// it and it is no end of the network, those in series. Where it does neither no step is left there.
    fn examine(&mut self, net: u32, top: u32, bottom: u32) -> Result<(), OutOfMemory>
        requires holding { Holds top bottom [] net self.old }
        requires within { net < length self.old.at }
        ensures { OnOk result (Settles top bottom [] net self.old self.new) }
    {
        let Some(first) = self.take_live(net) else {
            return Ok(());
        };
        self.examine_one(net, top, bottom, first)
    }

    /// Goes on at a net from which one part was taken.
    fn examine_one(
        &mut self,
        net: u32,
        top: u32,
        bottom: u32,
        first: u32,
    ) -> Result<(), OutOfMemory>
        requires holding { Holds top bottom (first ∷ []) net self.old }
        requires within { net < length self.old.at }
        ensures { OnOk result (Settles top bottom (first ∷ []) net self.old self.new) }
    {
        let Some(second) = self.take_live(net) else {
            return self.put(net, first);
        };
        let start = self.far_end(first, net);
        let end = self.far_end(second, net);
        if start == end {
            return self.join_parallel(net, first, second, start);
        }
        if net == top || net == bottom {
            self.put(net, second)?;
            return self.put(net, first);
        }
        self.examine_two(net, first, second, start, end)
    }

    /// Goes on at a net, no end of the network, from which two parts were taken that lead to two nets.
    fn examine_two(
        &mut self,
        net: u32,
        first: u32,
        second: u32,
        start: u32,
        end: u32,
    ) -> Result<(), OutOfMemory>
        requires holding { (a : ℕ) × (b : ℕ) × Holds a b (second ∷ first ∷ []) net self.old }
        requires within { net < length self.old.at }
        requires first { LeadsTo self.old first net start }
        requires second { LeadsTo self.old second net end }
        requires differ { start ≢ end }
        ensures { OnOk result ((a b : ℕ) → net ≢ a → net ≢ b → Settles a b (second ∷ first ∷ []) net self.old self.new) }
    {
        let Some(third) = self.take_live(net) else {
            return self.join_series(net, first, second, start, end);
        };
        let other = self.far_end(third, net);
        if other == start {
            self.put(net, second)?;
            return self.join_parallel(net, first, third, start);
        }
        if other == end {
            self.put(net, first)?;
            return self.join_parallel(net, second, third, end);
        }
        self.put(net, third)?;
        self.put(net, second)?;
        self.put(net, first)
    }

    /// Takes a net to look at.
    fn take_net(&mut self) -> Option<u32>
        ensures some { IfSome result (λ net. self.old ≡ with_work self.new net) }
        ensures none { IfNone result (self.old.work ≡ []) }
        ensures same { IfNone result (self.new ≡ self.old) }
    {
        self.work.pop()
    }

    /// Takes steps until none is left.
    pub fn run(&mut self, top: u32, bottom: u32) -> Result<(), OutOfMemory>
        requires sound { (ends : List EndsData) × (length ends ≤ 2 ^ 24) × IsSound ends top bottom self.old }
        ensures sound { OnOk result ((ends : List EndsData) → IsSound ends top bottom self.old → IsSound ends top bottom self.new) }
        ensures done { OnOk result (self.new.work ≡ []) }
    {
        'nets: while let Some(net) = self.take_net() {
            self.examine(net, top, bottom)?;
        }
        Ok(())
    }

    /// A reduction of no links between so many nets. The one error is out of memory.
    pub fn new(alloc: Global, nets: u32) -> Result<Reduction, OutOfMemory>
        ensures { IfOk result (λ r. r ≡ nothing nets) }
    {
        let at = Stacks::new(alloc, nets)?;
        Ok(Reduction {
            parts: Vec::new(alloc),
            live: Vec::new(alloc),
            at,
            work: Vec::new(alloc),
        })
    }

    /// Adds all links, and answers whether none of them joins a net to itself; where one does it stops.
    pub fn begin(&mut self, ends: &[Ends]) -> Result<bool, OutOfMemory>
        requires few { length ends.now ≤ 2 ^ 24 }
        requires inside { All (λ e. (e.from < length self.old.at) × (e.to < length self.old.at)) ends.now }
        requires nothing { IsBegun [] self.old }
        ensures begun { IfOk result (λ all. all ≡ true → IsBegun ends.now self.new) }
        ensures room { OnOk result (length self.new.at ≡ length self.old.at) }
        ensures self_loop { IfOk result (λ all. all ≡ false → (a b w h : ℕ) → IsNetwork (links_of ends.now) a b w h → ⊥) }
    {
        for link in ends {
            if link.from == link.to {
                return Ok(false);
            }
            self.add(Part {
                from: link.from,
                to: link.to,
                width: 1,
                height: 1,
                made: Made::Given,
            })?;
        }
        Ok(true)
    }

    /// The number of the part that is left, where it is the only one.
    fn only_live(&self) -> Option<u32>
        requires few { length self.now.live < 2 ^ 32 }
        ensures some { IfSome result (IsOnlyLive self.now.live) }
        ensures none { IfNone result ((number : ℕ) → IsOnlyLive self.now.live number → ⊥) }
    {
        let mut only = None;
        for number in 0..self.live.len() {
            if self.live[number] {
                if only.is_some() {
                    return None;
                }
                only = Some(number as u32);
            }
        }
        only
    }

    /// The shape of the one part that is left, where it joins these two nets.
    pub fn shape(&self, top: u32, bottom: u32) -> Option<Shape>
        requires sound { (ends : List EndsData) × (length ends ≤ 2 ^ 24) × IsSound ends top bottom self.now }
        requires done { self.now.work ≡ [] }
        ensures some { IfSome result (λ shape. (ends : List EndsData) → IsSound ends top bottom self.now
            → IsNetwork (links_of ends) top bottom shape.width shape.height) }
        ensures none { IfNone result ((ends : List EndsData) → IsSound ends top bottom self.now
            → (w h : ℕ) → IsNetwork (links_of ends) top bottom w h → ⊥) }
    {
        let Some(last) = self.only_live() else {
            return None;
        };
        let part = self.part(last);
        if part.joins(top, bottom) {
            Some(Shape {
                width: part.width,
                height: part.height,
            })
        } else {
            None
        }
    }

    /// The shape of the one part that is left, where it joins these two nets, with its links in order. There
    /// are so many links. The one error is out of memory.
    pub fn spelled(
        &self,
        alloc: Global,
        top: u32,
        bottom: u32,
        count: usize,
    ) -> Result<Option<Spelled>, OutOfMemory>
        requires sound { (ends : List EndsData) × (length ends ≤ 2 ^ 24) × (length ends ≡ count) × IsSound ends top bottom self.now }
        requires done { self.now.work ≡ [] }
        ensures some { IfOk result (λ spelled. IfSome spelled (λ s. (ends : List EndsData) → IsSound ends top bottom self.now
            → IsSpelled (links_of ends) top bottom s.width s.height s.order)) }
        ensures none { IfOk result (λ spelled. IfNone spelled ((ends : List EndsData) → IsSound ends top bottom self.now
            → (w h : ℕ) → IsNetwork (links_of ends) top bottom w h → ⊥)) }
    {
        let Some(last) = self.only_live() else {
            return Ok(None);
        };
        let part = self.part(last);
        if !part.joins(top, bottom) {
            return Ok(None);
        }
        let whole = Step {
            part: last,
            from: top,
        };
        let order = spell(alloc, self.parts.as_slice(), whole, count)?;
        Ok(Some(Spelled {
            width: part.width,
            height: part.height,
            order,
        }))
    }
}

//! A walk over all paths of a file, by numbers and with its own stack.
ghost use Rattle.std.specs.Prelude.{◌≡◌, ◌<◌, ◌+◌, ◌^◌, IfOk, OnOk, OnSome, length, slice_get};
ghost use Rattle.part_numbers.specs.declared.numbered.PartCard.TheVariants.{Latch, Table};
ghost use Rattle.part_numbers.specs.Expansions.{HasExpansion, AreFramesRanked, entered, met, stepped, pushed_frame};
ghost use Rattle.model_calls.specs.Plans.{HasMainPlan, plan_at};

use crate::numbered::PartCard;
use dom_base::OutOfMemory;
use model_calls::{CardAt, Plan};
use std::alloc::Global;
use std::marker::Model;

/// A scope, which is a model at a path of instances: the number of the model in the file, the scope
/// above it, and the index in that scope's model of the instance that leads to it. Scope 0 is the main
/// model's own.
#[derive(Clone, Copy)]
pub struct Scope {
    pub model: u32,
    pub above: usize,
    pub instance: u32,
}

/// A table or a latch in a scope of this model.
#[derive(Clone, Copy)]
pub struct ScopedPart {
    pub scope: usize,
    pub model: u32,
    pub card: PartCard,
}

/// A scope on the way: how many of its cards were met, and how deep its instances may still go.
#[derive(Clone, Copy)]
pub struct Frame {
    pub scope: usize,
    pub model: u32,
    pub next: usize,
    pub depth: usize,
}

/// All scopes, each after the one above it, and all tables and latches in them in expanded order.
/// While it is made, the frames are the scopes on the way, the deepest last.
#[derive(Drop)]
pub struct Expansion {
    pub scopes: Vec<Scope>,
    pub parts: Vec<ScopedPart>,
    pub frames: Vec<Frame>,
}

impl Model for Expansion {
    ghost use Rattle.part_numbers.specs.Expansions.{ExpansionData};

    ghost Value = { ExpansionData };

    ghost view = { λ e. record { scopes = e.scopes.items; parts = e.parts.items; frames = e.frames.items } };
}

/// All scopes and parts of a file of these plans, where `depth` is at least the rank of model 0. It
/// fails only for want of memory.
pub fn expand(alloc: Global, plans: &[Plan], depth: usize) -> Result<Expansion, OutOfMemory>
    requires ready { HasMainPlan plans.now depth }
    ensures { IfOk result (HasExpansion plans.now depth) }
{
    let main = &plans[0];
    let parts = Vec::with_capacity(alloc, main.cards.len())?;
    let mut made = Expansion {
        scopes: Vec::new(alloc),
        parts,
        frames: Vec::new(alloc),
    };
    made.enter(0, 0, 0, depth)?;
    'frames: while let Some(frame) = made.frames.pop() {
        made.step(plans, frame)?;
    }
    Ok(made)
}

impl Expansion {
    /// Comes to a new scope.
    fn enter(
        &mut self,
        model: u32,
        above: usize,
        instance: u32,
        depth: usize,
    ) -> Result<(), OutOfMemory>
        ensures { OnOk result (self.new ≡ entered self.old model above instance depth) }
    {
        let scope = self.scopes.len();
        self.scopes.push(Scope {
            model,
            above,
            instance,
        })?;
        self.frames.push(Frame {
            scope,
            model,
            next: 0,
            depth,
        })?;
        Ok(())
    }

    /// Meets the next card of a frame that was taken from the stack, or leaves its scope.
    fn step(&mut self, plans: &[Plan], frame: Frame) -> Result<(), OutOfMemory>
        requires under_way { AreFramesRanked plans.now (pushed_frame self.old frame) }
        ensures { OnOk result (self.new ≡ stepped plans.now self.old frame) }
    {
        let Some(card) = card_at(plans, frame) else {
            return Ok(());
        };
        self.go_on(frame)?;
        match card {
            CardAt::Table(index) => self.meet(frame, PartCard::Table(index)),
            CardAt::Latch(index) => self.meet(frame, PartCard::Latch(index)),
            CardAt::Instance(index, unit) => self.enter(unit, frame.scope, index, frame.depth - 1),
        }
    }

    /// Puts a frame back that met one card more.
    fn go_on(&mut self, frame: Frame) -> Result<(), OutOfMemory>
        requires few { frame.next + 1 < 2 ^ 64 }
        ensures { OnOk result (self.new
            ≡ pushed_frame self.old (record { scope = frame.scope; model = frame.model; next = frame.next + 1; depth = frame.depth })) }
    {
        self.frames.push(Frame {
            scope: frame.scope,
            model: frame.model,
            next: frame.next + 1,
            depth: frame.depth,
        })?;
        Ok(())
    }

    /// Meets a table or a latch.
    fn meet(&mut self, frame: Frame, card: PartCard) -> Result<(), OutOfMemory>
        ensures { OnOk result (self.new ≡ met self.old frame card) }
    {
        self.parts.push(ScopedPart {
            scope: frame.scope,
            model: frame.model,
            card,
        })?;
        Ok(())
    }
}

/// The next card of a frame.
fn card_at(plans: &[Plan], frame: Frame) -> Option<CardAt>
    requires within { frame.model < length plans.now }
    ensures card { result ≡ slice_get (plan_at plans.now frame.model) frame.next }
    ensures few { OnSome result (frame.next + 1 < 2 ^ 64) }
{
    let plan = &plans[frame.model as usize];
    plan.cards.get(frame.next).copied()
}

//! The order in which a tree spells its links.
ghost use Rattle.std.specs.Prelude.{◌≡◌, ◌+◌, ◌++◌, ◌∷◌, ◌<◌, [], IfNone, IfOk, IfSome, OnOk, Some, length, slice_get, ℕ};
ghost use Rattle.link_reduce.specs.Parts.{PartEndsAt, numbers_of};
ghost use Rattle.link_reduce.specs.Reductions.{Unfolds};
ghost use Rattle.link_reduce.specs.Spellings.{AreProper, HasShortTree, HasTree, IsTakenApart, JoinsFrom};
ghost use Rattle.link_reduce.specs.declared.part.Part.{Part as PartData};
ghost use Rattle.sp_network.specs.Tree.{Tree};
ghost use Rattle.sp_reduction.specs.Networks.{Link};

use crate::part::{Made, Part};
use dom_base::OutOfMemory;
use std::alloc::Global;

/// A part that is to be spelled from one of its ends.
#[derive(Clone, Copy)]
pub struct Step {
    pub part: u32,
    pub from: u32,
}

/// The part with a number.
fn part_at(parts: &[Part], number: u32) -> Part
    requires { number < length parts.now }
    ensures { slice_get parts.now number ≡ Some result }
{
    parts[number as usize]
}

/// The end of a part other than this one.
fn far_end(parts: &[Part], part: u32, net: u32) -> u32
    requires within { part < length parts.now }
    requires ends { (p : PartData) → slice_get parts.now part ≡ Some p → PartEndsAt p net }
    ensures { JoinsFrom parts.now part net result }
{
    part_at(parts, part).other_end(net)
}

/// Two steps are to be spelled next, the first before the second. The one error is out of memory.
fn put_two(steps: &mut Vec<Step>, first: Step, second: Step) -> Result<(), OutOfMemory>
    ensures { OnOk result (steps.new.items ≡ (steps.old.items ++ second ∷ []) ++ first ∷ []) }
{
    steps.push(second)?;
    steps.push(first)?;
    Ok(())
}

/// Two parts in series are to be spelled next, from this end. The one error is out of memory.
fn put_series(
    parts: &[Part],
    from: u32,
    first: u32,
    second: u32,
    steps: &mut Vec<Step>,
) -> Result<(), OutOfMemory>
    requires within { first < length parts.now }
    requires ends { (p : PartData) → slice_get parts.now first ≡ Some p → PartEndsAt p from }
    ensures { OnOk result ((mid : ℕ) × JoinsFrom parts.now first from mid
        × (steps.new.items ≡ (steps.old.items ++ record { part = second; from = mid } ∷ []) ++ record { part = first; from = from } ∷ [])) }
{
    let mid = far_end(parts, first, from);
    put_two(
        steps,
        Step { part: first, from },
        Step {
            part: second,
            from: mid,
        },
    )
}

/// Takes a part apart: the number of a link is put into the order, and of two parts the first is to be
/// spelled next, and then the second. The one error is out of memory.
fn take_apart(
    parts: &[Part],
    step: Step,
    steps: &mut Vec<Step>,
    order: &mut Vec<u32>,
) -> Result<(), OutOfMemory>
    requires tree { HasTree parts.now step }
    requires proper { AreProper parts.now }
    ensures { OnOk result (IsTakenApart parts.now step order.old.items order.new.items steps.old.items steps.new.items) }
{
    let part = part_at(parts, step.part);
    match part.made {
        Made::Given => {
            order.push(step.part)?;
            Ok(())
        }
        Made::Series(one, other) => {
            if part.from == step.from {
                return put_series(parts, step.from, one, other, steps);
            }
            put_series(parts, step.from, other, one, steps)
        }
        Made::Parallel(one, other) => put_two(
            steps,
            Step {
                part: one,
                from: step.from,
            },
            Step {
                part: other,
                from: step.from,
            },
        ),
    }
}

/// Takes the step that is to be spelled next.
fn take_step(steps: &mut Vec<Step>) -> Option<Step>
    ensures some { IfSome result (λ step. steps.old.items ≡ steps.new.items ++ step ∷ []) }
    ensures none { IfNone result (steps.old.items ≡ []) }
    ensures same { IfNone result (steps.new.items ≡ []) }
{
    steps.pop()
}

/// The numbers of the links of a part, in the order in which a tree spells them from one of its ends. It
/// has at most so many. The time is linear in that number, and the one error is out of memory.
pub fn spell(
    alloc: Global,
    parts: &[Part],
    whole: Step,
    count: usize,
) -> Result<Vec<u32>, OutOfMemory>
    requires tree { HasShortTree parts.now whole count }
    requires proper { AreProper parts.now }
    ensures { IfOk result (λ order. (to : ℕ) (t : Tree Link) → Unfolds parts.now whole.part whole.from to t → numbers_of t ≡ order.items) }
{
    let mut order = Vec::with_capacity(alloc, count)?;
    let mut steps = Vec::new(alloc);
    steps.push(whole)?;
    'steps: while let Some(step) = take_step(&mut steps) {
        take_apart(parts, step, &mut steps, &mut order)?;
    }
    Ok(order)
}

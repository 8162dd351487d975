//! The cards of models by numbers, in order of their lines.
ghost use Rattle.std.specs.Prelude.{◌≡◌, ◌<◌, ◌+◌, ◌^◌, IfOk, IfSome, IsTrue, Some, length, map, slice_index_or};
ghost use Rattle.blif_ast.specs.BlifModelData.{BlifModelData};
ghost use Rattle.numbered_file.specs.Numbered.{between, models_in, parts_of};
ghost use Rattle.card_places.specs.PartCards.{HasModelParts, RisesFrom, card_by, part_card, counted};
ghost use Rattle.model_calls.specs.CallNumbers.{AreCalls, names_of_models};
ghost use Rattle.model_calls.specs.LinedCards.{AreNumberedCards};
ghost use Rattle.model_calls.specs.ModelCalls.{HavePlans};

use crate::places::{model_at, part_at};
use dom_base::OutOfMemory;
use file_copies::to_file;
use graph_order::Node;
use model_calls::{CardAt, Plan, plan_all};
use numbered_file::{NumberedFile, PartAt, PartKind, between};
use std::alloc::Global;

/// The plans of the models of a file by their calls. The one error is out of memory. Where the lines of a model's parts don't
/// rise, which they do where the parts were read, the file is copied and its cards are sorted by their lines.
pub fn plans(
    alloc: Global,
    file: &NumberedFile<'_>,
    nodes: &[Node<'_>],
) -> Result<Vec<Plan>, OutOfMemory>
    requires calls { AreCalls (names_of_models (models_in file.now)) (models_in file.now) nodes.now }
    ensures { IfOk result (λ plans. HavePlans (models_in file.now) nodes.now plans.items) }
{
    match plans_by_parts(alloc, file, nodes)? {
        Some(plans) => Ok(plans),
        None => plans_by_lines(alloc, file, nodes),
    }
}

/// The same by the lines of the cards.
fn plans_by_lines(
    alloc: Global,
    file: &NumberedFile<'_>,
    nodes: &[Node<'_>],
) -> Result<Vec<Plan>, OutOfMemory>
    requires calls { AreCalls (names_of_models (models_in file.now)) (models_in file.now) nodes.now }
    ensures { IfOk result (λ plans. HavePlans (models_in file.now) nodes.now plans.items) }
{
    let copy = to_file(alloc, file)?;
    plan_all(alloc, &copy.models, nodes)
}

/// The same in the order of the parts; `None` where the lines of a model's parts don't rise.
fn plans_by_parts(
    alloc: Global,
    file: &NumberedFile<'_>,
    nodes: &[Node<'_>],
) -> Result<Option<Vec<Plan>>, OutOfMemory>
    requires calls { AreCalls (names_of_models (models_in file.now)) (models_in file.now) nodes.now }
    ensures { IfOk result (λ plans. IfSome plans (λ v. HavePlans (models_in file.now) nodes.now v.items)) }
{
    let models = file.models();
    let mut plans = Vec::with_capacity(alloc, models.len())?;
    let mut start = 0;
    for index in 0..models.len() {
        let end = model_at(models, index).parts_end;
        let parts = between(file.parts(), start, end);
        if !do_lines_rise(parts) {
            return Ok(None);
        }
        plans.push(plan_model(alloc, file, start, end, &nodes[index])?)?;
        start = end;
    }
    Ok(Some(plans))
}

/// Whether the lines of parts rise.
fn do_lines_rise(parts: &[PartAt]) -> bool
    ensures { IsTrue result → RisesFrom 0 (map (λ p. p.line) parts.now) }
{
    let mut low = 0;
    for index in 0..parts.len() {
        let line = u64::from(part_at(parts, index).line);
        if line < low {
            return false;
        }
        low = line + 1;
    }
    true
}

/// How many cards of each kind a model has.
#[derive(Clone, Copy)]
pub struct Counts {
    pub tables: u32,
    pub latches: u32,
    pub instances: u32,
}

/// The cards of a model whose parts stand from one place up to another, in the order of the parts.
fn plan_model(
    alloc: Global,
    file: &NumberedFile<'_>,
    start: u32,
    end: u32,
    node: &Node<'_>,
) -> Result<Plan, OutOfMemory>
    ensures { IfOk result (λ plan. (m : BlifModelData) → HasModelParts m (between start end (parts_of file.now))
        → length node.now ≡ length m.instances → AreNumberedCards m node.now plan (map part_card (between start end (parts_of file.now)))) }
{
    let parts = between(file.parts(), start, end);
    let mut cards = Vec::with_capacity(alloc, parts.len())?;
    let mut counts = Counts {
        tables: 0,
        latches: 0,
        instances: 0,
    };
    for index in 0..parts.len() {
        let kind = part_at(parts, index).kind;
        cards.push(card_by(kind, counts, node))?;
        counts = counted(kind, counts);
    }
    Ok(Plan { cards })
}

/// A part of this kind as a card, behind so many cards.
fn card_by(kind: PartKind, before: Counts, node: &Node<'_>) -> CardAt
    ensures { result ≡ card_by kind before node.now }
{
    match kind {
        PartKind::Table { .. } => CardAt::Table(before.tables),
        PartKind::Latch { .. } => CardAt::Latch(before.latches),
        PartKind::Instance => {
            CardAt::Instance(before.instances, number_at(node.next(), before.instances))
        }
    }
}

/// The number at an index, or 0.
fn number_at(numbers: &[u32], index: u32) -> u32
    ensures { result ≡ slice_index_or numbers.now index 0 }
{
    match numbers.get(index as usize) {
        Some(number) => *number,
        None => 0,
    }
}

/// So many cards and one of this kind.
fn counted(kind: PartKind, before: Counts) -> Counts
    requires tables { before.tables + 1 < 2 ^ 32 }
    requires latches { before.latches + 1 < 2 ^ 32 }
    requires instances { before.instances + 1 < 2 ^ 32 }
    ensures { result ≡ counted kind before }
{
    match kind {
        PartKind::Table { .. } => Counts {
            tables: before.tables + 1,
            ..before
        },
        PartKind::Latch { .. } => Counts {
            latches: before.latches + 1,
            ..before
        },
        PartKind::Instance => Counts {
            instances: before.instances + 1,
            ..before
        },
    }
}

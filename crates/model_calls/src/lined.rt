//! The cards of a model in order of their lines.
ghost use Rattle.std.specs.Prelude.{◌≡◌, ◌<◌, ◌≤◌, ◌++◌, ◌^◌, ℕ, List, Some, IfOk, OnOk, length, map, slice_get};
ghost use Rattle.blif_ast.specs.BlifModelData.{BlifModelData};
ghost use Rattle.model_calls.specs.Expanded.{BodyCard, InstanceCard, LatchCard, TableCard, ordered_cards};
ghost use Rattle.model_calls.specs.LinedCards.{AreLinedCards, AreNumberedCards};
ghost use Rattle.model_calls.specs.Ordered.{in_order};

use crate::plan::{CardAt, Plan};
use blif_ast::{BlifModel, Instance, Latch, Table};
use dom_base::OutOfMemory;
use graph_order::Node;
use std::alloc::Global;

/// A card of a model, and its line.
#[derive(Clone, Copy)]
pub struct LinedCard {
    pub line: u64,
    pub card: CardAt,
}

/// The cards of a model in order of their lines, where its instances name the models of these numbers.
/// It fails only for want of memory.
pub fn plan_model(alloc: Global, model: &BlifModel, node: &Node<'_>) -> Result<Plan, OutOfMemory>
    requires tables { length model.now.tables ≤ 2 ^ 32 }
    requires latches { length model.now.latches ≤ 2 ^ 32 }
    requires instances { length model.now.instances ≤ 2 ^ 32 }
    requires callees { length node.now ≡ length model.now.instances }
    ensures { IfOk result (λ plan. AreNumberedCards model.now node.now plan (ordered_cards model.now)) }
{
    let count = model.tables.len() + model.latches.len() + model.instances.len();
    let mut lined = Vec::with_capacity(alloc, count)?;
    add_tables(&mut lined, &model.tables)?;
    add_latches(&mut lined, &model.latches)?;
    add_instances(&mut lined, &model.instances, node)?;
    sort_by_line(&mut lined)?;
    without_lines(alloc, &lined)
}

fn add_tables(lined: &mut Vec<LinedCard>, tables: &[Table]) -> Result<(), OutOfMemory>
    requires few { length tables.now ≤ 2 ^ 32 }
    ensures { OnOk result ((m : BlifModelData) (callees : List ℕ) (cards : List BodyCard) → m.tables ≡ tables.now
        → AreLinedCards m callees lined.old.items cards → AreLinedCards m callees lined.new.items (cards ++ map TableCard tables.now)) }
{
    for index in 0..tables.len() {
        let table = &tables[index];
        let card = CardAt::Table(index as u32);
        let line = table.line;
        lined.push(LinedCard { line, card })?;
    }
    Ok(())
}

fn add_latches(lined: &mut Vec<LinedCard>, latches: &[Latch]) -> Result<(), OutOfMemory>
    requires few { length latches.now ≤ 2 ^ 32 }
    ensures { OnOk result ((m : BlifModelData) (callees : List ℕ) (cards : List BodyCard) → m.latches ≡ latches.now
        → AreLinedCards m callees lined.old.items cards → AreLinedCards m callees lined.new.items (cards ++ map LatchCard latches.now)) }
{
    for index in 0..latches.len() {
        let latch = &latches[index];
        let card = CardAt::Latch(index as u32);
        let line = latch.line;
        lined.push(LinedCard { line, card })?;
    }
    Ok(())
}

fn add_instances(
    lined: &mut Vec<LinedCard>,
    instances: &[Instance],
    node: &Node<'_>,
) -> Result<(), OutOfMemory>
    requires few { length instances.now ≤ 2 ^ 32 }
    requires callees { length node.now ≡ length instances.now }
    ensures { OnOk result ((m : BlifModelData) (cards : List BodyCard) → m.instances ≡ instances.now
        → AreLinedCards m node.now lined.old.items cards
        → AreLinedCards m node.now lined.new.items (cards ++ map InstanceCard instances.now)) }
{
    for index in 0..instances.len() {
        let instance = &instances[index];
        let card = CardAt::Instance(index as u32, unit_at(node, index));
        let line = instance.line;
        lined.push(LinedCard { line, card })?;
    }
    Ok(())
}

fn unit_at(node: &Node<'_>, index: usize) -> u32
    requires within { index < length node.now }
    ensures { slice_get node.now index ≡ Some result }
{
    node.next()[index]
}

/// Sorts cards by their lines; those of one line stay in order.
fn sort_by_line(lined: &mut Vec<LinedCard>) -> Result<(), OutOfMemory>
    ensures { OnOk result (lined.new.items ≡ in_order (λ p. p.line) lined.old.items) }
{
    lined.sort_by_key(
        |p: &LinedCard| -> u64
            ensures { result ≡ p.now.line }
        { p.line },
    )?;
    Ok(())
}

fn without_lines(alloc: Global, lined: &[LinedCard]) -> Result<Plan, OutOfMemory>
    ensures { IfOk result (λ plan. plan ≡ map (λ p. p.card) lined.now) }
{
    let mut cards = Vec::with_capacity(alloc, lined.len())?;
    for p in lined {
        cards.push(p.card)?;
    }
    Ok(Plan { cards })
}

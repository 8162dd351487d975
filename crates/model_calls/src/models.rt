//! The calls of the models of a file, or what is wrong with its models.
ghost use Rattle.std.specs.Prelude.{◌≤◌, ◌<◌, ◌^◌, ℕ, List, IfOk, IsErrOf, IsTrue, length};
ghost use Rattle.blif_ast.specs.Good.{IsGoodFile};
ghost use Rattle.graph_order.specs.Orders.{IsGraph};
ghost use Rattle.model_calls.specs.CallNumbers.{AreCalls, names_of_models};
ghost use Rattle.model_calls.specs.ModelFaults.{IsDuplicateModel};
ghost use Rattle.model_calls.specs.ModelCalls.{AreModelCalls, HasCircle, HavePlans, AreFoundCalls, NothingRefuses};
ghost use Rattle.model_calls.specs.declared.fault.FlatKind.{FlatKind};
ghost use Rattle.model_calls.specs.declared.fault.Limit.{Limit};
ghost use Rattle.model_calls.specs.Refusal.{At};
ghost use Rattle.model_calls.specs.Refusals.{IsRefusal};
ghost use Rattle.model_calls.specs.FirstFaults.{NoneHolds};

use crate::calls::{CallGraph, call_graph, name_models};
use crate::fault::{FlatFault, FlatKind};
use crate::first_fault::FirstFault;
use crate::formals::bad_formal;
use crate::lined::plan_model;
use crate::name_hashes::hash_of_models;
use crate::names::Names;
use crate::plan::Plan;
use crate::ports::duplicate_port;
use crate::recursion::recursion;
use blif_ast::{BlifFile, BlifModel};
use dom_base::OutOfMemory;
use graph_order::{Node, Order, put_in_order};
use std::alloc::Global;
use std::marker::Model;

/// More than the cards of a kind in a model, and than the models of a file, that are numbered.
const MOST: usize = 1 << 32;

/// Of each model of a file the numbers of the models that its instances name, and an order of all
/// models, each behind those.
#[derive(Drop)]
pub struct ModelCalls {
    pub nodes: Vec<Node<'static>>,
    pub order: Vec<u32>,
}

impl Model for ModelCalls {
    ghost use Rattle.model_calls.specs.ModelCallsData.{ModelCallsData};

    ghost Value = { ModelCallsData };

    ghost view = { λ p. record { nodes = p.nodes.items; order = p.order.items } };
}

/// The calls of a file, or what is wrong with its models.
#[derive(Drop)]
pub enum FoundCalls {
    Known(ModelCalls),
    Refused(FlatKind, FirstFault),
}

/// The calls of the models of a file, which it is refused for nothing in its models; or its refusal
/// for what is wrong with them.
pub fn file_calls(alloc: Global, file: &BlifFile) -> Result<ModelCalls, FlatFault>
    requires good { IsGoodFile file.now }
    ensures planned { IfOk result (AreModelCalls file.now) }
    ensures refused { (line : ℕ) (kind : FlatKind) (name : List ℕ) → IsErrOf result (FlatFault.At line kind name)
        → IsRefusal file.now (At kind line name) }
    ensures no_count { (limit : Limit) (count : ℕ) → IsErrOf result (FlatFault.TooMany limit count) → ⊥ }
{
    let found = match find_calls(alloc, &file.models) {
        Ok(found) => found,
        Err(OutOfMemory) => return Err(FlatFault::Memory),
    };
    match found {
        FoundCalls::Known(calls) => Ok(calls),
        FoundCalls::Refused(kind, report) => Err(FlatFault::At {
            line: report.line,
            kind,
            name: report.name,
        }),
    }
}

/// The calls of the models of a file, or the first thing that is wrong with its models: a name or a
/// port that is there twice, an instance of no model, a formal that is wrong, or a model that reaches
/// itself. It fails only for want of memory.
fn find_calls(alloc: Global, models: &[BlifModel]) -> Result<FoundCalls, OutOfMemory>
    requires good { IsGoodFile (record { models = models.now }) }
    ensures { IfOk result (AreFoundCalls (record { models = models.now })) }
{
    if MOST <= models.len() {
        return Err(OutOfMemory);
    }
    let hash = hash_of_models(alloc, models)?;
    let mut names = Names::with_room(alloc, hash, models.len())?;
    if let Some(report) = name_models(&mut names, models)? {
        return Ok(FoundCalls::Refused(FlatKind::DuplicateModel, report));
    }
    if let Some(report) = duplicate_port(alloc, models)? {
        return Ok(FoundCalls::Refused(FlatKind::DuplicatePort, report));
    }
    match call_graph(alloc, &names, models)? {
        CallGraph::Unknown(report) => Ok(FoundCalls::Refused(FlatKind::UnknownModel, report)),
        CallGraph::Known(nodes) => {
            drop(names);
            order_calls(alloc, models, nodes)
        }
    }
}

/// The same, where instances name models of the file.
fn order_calls(
    alloc: Global,
    models: &[BlifModel],
    nodes: Vec<Node<'static>>,
) -> Result<FoundCalls, OutOfMemory>
    requires good { IsGoodFile (record { models = models.now }) }
    requires few { length models.now < 2 ^ 32 }
    requires apart { NoneHolds IsDuplicateModel models.now }
    requires calls { AreCalls (names_of_models models.now) models.now nodes.items }
    requires accepted { NothingRefuses (record { models = models.now }) 3 }
    ensures { IfOk result (AreFoundCalls (record { models = models.now })) }
{
    if let Some(report) = bad_formal(alloc, models, &nodes)? {
        return Ok(FoundCalls::Refused(FlatKind::BadFormal, report));
    }
    let order = match put_in_order(alloc, &nodes)? {
        Order::Of(order) => order,
        Order::Circular => return find_recursion(alloc, models, &nodes),
    };
    if MOST <= order.len() {
        return Err(OutOfMemory);
    }
    Ok(FoundCalls::Known(ModelCalls { nodes, order }))
}

/// The refusal of a file in which some model reaches itself.
fn find_recursion(
    alloc: Global,
    models: &[BlifModel],
    nodes: &[Node<'_>],
) -> Result<FoundCalls, OutOfMemory>
    requires circle { HasCircle nodes.now }
    requires graph { IsGraph nodes.now }
    requires few { length nodes.now < 2 ^ 32 }
    requires apart { NoneHolds IsDuplicateModel models.now }
    requires calls { AreCalls (names_of_models models.now) models.now nodes.now }
    requires accepted { NothingRefuses (record { models = models.now }) 4 }
    ensures { IfOk result (AreFoundCalls (record { models = models.now })) }
{
    match recursion(alloc, models, nodes)? {
        Some(report) => Ok(FoundCalls::Refused(FlatKind::Recursion, report)),
        None => unreachable!(),
    }
}

/// The plans of the models of a file by their calls. It fails only for want of memory.
pub fn plan_all(
    alloc: Global,
    models: &[BlifModel],
    nodes: &[Node<'_>],
) -> Result<Vec<Plan>, OutOfMemory>
    requires calls { AreCalls (names_of_models models.now) models.now nodes.now }
    ensures { IfOk result (λ plans. HavePlans models.now nodes.now plans.items) }
{
    let mut plans = Vec::with_capacity(alloc, models.len())?;
    for index in 0..models.len() {
        let model = &models[index];
        if !is_numbered(model) {
            return Err(OutOfMemory);
        }
        plans.push(plan_model(alloc, model, &nodes[index])?)?;
    }
    Ok(plans)
}

/// Whether the cards of each kind are few enough for numbers of 32 bits.
fn is_numbered(model: &BlifModel) -> bool
    ensures tables { IsTrue result → length model.now.tables ≤ 2 ^ 32 }
    ensures latches { IsTrue result → length model.now.latches ≤ 2 ^ 32 }
    ensures instances { IsTrue result → length model.now.instances ≤ 2 ^ 32 }
{
    model.tables.len() <= MOST && model.latches.len() <= MOST && model.instances.len() <= MOST
}

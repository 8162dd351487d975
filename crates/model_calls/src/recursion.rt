//! Models that reach themselves through instances.
ghost use Rattle.std.specs.Prelude.{◌≡◌, ◌<◌, ◌+◌, ◌^◌, IfOk, OnSome, length, slice_get};
ghost use Rattle.std.specs.List.{flat_map};
ghost use Rattle.graph_order.specs.Components.{AreComponents};
ghost use Rattle.graph_order.specs.Orders.{IsGraph, successors};
ghost use Rattle.model_calls.specs.CallNumbers.{AreCalls, names_of_models};
ghost use Rattle.model_calls.specs.ModelFaults.{IsDuplicateModel, IsRecursion, uses_in};
ghost use Rattle.model_calls.specs.Recursions.{IsFirstBack, IsReportOf};
ghost use Rattle.model_calls.specs.FirstFaults.{IsFirstFaultIn, NoneHolds};

use crate::first_fault::FirstFault;
use blif_ast::{BlifModel, Instance};
use dom_base::OutOfMemory;
use graph_order::{Node, component_numbers};
use std::alloc::Global;

/// The first instance, over all models, whose model is the one that it stands in or reaches it through
/// instances. It takes a time that is linear in the models and instances, and fails only for want of
/// memory.
pub fn recursion(
    alloc: Global,
    models: &[BlifModel],
    nodes: &[Node<'_>],
) -> Result<Option<FirstFault>, OutOfMemory>
    requires apart { NoneHolds IsDuplicateModel models.now }
    requires calls { AreCalls (names_of_models models.now) models.now nodes.now }
    requires graph { IsGraph nodes.now }
    requires few { length nodes.now < 2 ^ 32 }
    ensures { IfOk result (IsFirstFaultIn (IsRecursion (record { models = models.now })) (flat_map uses_in models.now)
        (λ u. u.instance.line) (λ u. u.instance.unit)) }
{
    let numbers = component_numbers(alloc, nodes)?;
    for index in 0..models.len() {
        let model = &models[index];
        if let Some(at) = first_back(&numbers, nodes, index as u32) {
            let report = report_instance(&model.instances, at)?;
            return Ok(Some(report));
        }
    }
    Ok(None)
}

/// A report of the instance of this index.
fn report_instance(instances: &[Instance], at: usize) -> Result<FirstFault, OutOfMemory>
    requires within { at < length instances.now }
    ensures { IfOk result (IsReportOf instances.now at) }
{
    let instance = &instances[at];
    FirstFault::new(instance.line, &instance.unit)
}

/// The index of the first instance of a model that leads back to it, if there is one, by the numbers of
/// the components.
fn first_back(numbers: &[usize], nodes: &[Node<'_>], model: u32) -> Option<usize>
    requires graph { IsGraph nodes.now }
    requires components { AreComponents nodes.now numbers.now }
    requires within { model < length nodes.now }
    ensures { IsFirstBack nodes.now model result }
{
    let number = numbers[model as usize];
    let mut index = 0;
    'instances: while let Some(unit) = callee(nodes, model, index) {
        if numbers[unit as usize] == number {
            return Some(index);
        }
        index += 1;
    }
    None
}

/// The number of the model that an instance of a model names, by its index.
fn callee(nodes: &[Node<'_>], model: u32, index: usize) -> Option<u32>
    requires within { model < length nodes.now }
    ensures unit { result ≡ slice_get (successors nodes.now model) index }
    ensures few { OnSome result (index + 1 < 2 ^ 64) }
{
    let node = &nodes[model as usize];
    node.next().get(index).copied()
}

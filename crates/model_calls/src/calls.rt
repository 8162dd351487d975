//! The models of a file by their names, and the models that instances name.
ghost use Rattle.std.specs.Prelude.{◌≡◌, ◌≤◌, ◌^◌, [], IfOk, length};
ghost use Rattle.model_calls.specs.CallNumbers.{AreNamed, IsCallGraph, IsCallees};

use crate::first_fault::FirstFault;
use crate::names::Names;
use blif_ast::{BlifModel, Instance};
use dom_base::OutOfMemory;
use graph_order::Node;
use std::alloc::Global;

/// The numbers of the models that some instances name, or the first instance that names no model.
#[derive(Drop)]
pub enum Callees {
    Known(Node<'static>),
    Unknown(FirstFault),
}

/// For each model the numbers of the models that its instances name, or the first instance that names
/// no model.
#[derive(Drop)]
pub enum CallGraph {
    Known(Vec<Node<'static>>),
    Unknown(FirstFault),
}

/// Numbers the models by their names, up to the first that has an earlier one's name, which is
/// reported. It fails only for want of memory.
pub fn name_models<'a>(
    names: &mut Names<'a>,
    models: &'a [BlifModel],
) -> Result<Option<FirstFault>, OutOfMemory>
    requires none { names.old ≡ [] }
    ensures { IfOk result (AreNamed models.now names.new) }
{
    for model in models {
        let (_, new) = names.add(&model.name)?;
        if !new {
            return Ok(Some(FirstFault::new(model.line, &model.name)?));
        }
    }
    Ok(None)
}

/// The numbers of the models that the instances of each model name, or the first instance that names
/// no model. It fails only for want of memory.
pub fn call_graph(
    alloc: Global,
    names: &Names<'_>,
    models: &[BlifModel],
) -> Result<CallGraph, OutOfMemory>
    requires few { length names.now ≤ 2 ^ 32 }
    ensures { IfOk result (IsCallGraph names.now models.now) }
{
    let mut nodes = Vec::new(alloc);
    for model in models {
        match find_callees(alloc, names, &model.instances)? {
            Callees::Known(node) => nodes.push(node)?,
            Callees::Unknown(report) => return Ok(CallGraph::Unknown(report)),
        }
    }
    Ok(CallGraph::Known(nodes))
}

fn find_callees(
    alloc: Global,
    names: &Names<'_>,
    instances: &[Instance],
) -> Result<Callees, OutOfMemory>
    requires few { length names.now ≤ 2 ^ 32 }
    ensures { IfOk result (IsCallees names.now instances.now) }
{
    let mut next = Vec::with_capacity(alloc, instances.len())?;
    for instance in instances {
        let Some(number) = names.number(&instance.unit) else {
            return Ok(Callees::Unknown(FirstFault::new(instance.line, &instance.unit)?));
        };
        next.push(number as u32)?;
    }
    Ok(Callees::Known(Node::owning(alloc, next)?))
}

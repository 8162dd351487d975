//! Ports that a model lists twice.
ghost use Rattle.std.specs.Prelude.{IfOk};
ghost use Rattle.std.specs.List.{flat_map};
ghost use Rattle.model_calls.specs.ModelFaults.{IsDuplicatePort, ports_in, ports_of_model};
ghost use Rattle.model_calls.specs.FirstFaults.{IsFirstFaultIn};

use crate::first_fault::FirstFault;
use crate::name_hashes::hash_of_lists;
use crate::scan::Scan;
use blif_ast::BlifModel;
use dom_base::{Name, OutOfMemory};
use std::alloc::Global;

/// The first port, over all models, that its list has twice. It fails only for want of memory.
pub fn duplicate_port(
    alloc: Global,
    models: &[BlifModel],
) -> Result<Option<FirstFault>, OutOfMemory>
    ensures { IfOk result (IsFirstFaultIn IsDuplicatePort (flat_map ports_of_model models.now) (λ p. p.line) (λ p. p.name)) }
{
    for model in models {
        if let Some(report) = duplicate_in_model(alloc, model)? {
            return Ok(Some(report));
        }
    }
    Ok(None)
}

fn duplicate_in_model(alloc: Global, model: &BlifModel) -> Result<Option<FirstFault>, OutOfMemory>
    ensures { IfOk result (IsFirstFaultIn IsDuplicatePort (ports_of_model model.now) (λ p. p.line) (λ p. p.name)) }
{
    if let Some(report) = duplicate_in_list(alloc, model.line, &model.inputs)? {
        return Ok(Some(report));
    }
    duplicate_in_list(alloc, model.line, &model.outputs)
}

fn duplicate_in_list(
    alloc: Global,
    line: u64,
    names: &[Name],
) -> Result<Option<FirstFault>, OutOfMemory>
    ensures { IfOk result (IsFirstFaultIn IsDuplicatePort (ports_in line names.now) (λ p. p.line) (λ p. p.name)) }
{
    if names.len() < 2 {
        return Ok(None);
    }
    let hash = hash_of_lists(alloc, names, &[])?;
    let mut scan = Scan::with_room(alloc, hash, names.len())?;
    for name in names {
        scan.look(name, true)?;
    }
    scan.report(line)
}

//! Formals that instances get wrong.
ghost use Rattle.std.specs.Prelude.{◌≡◌, ◌<◌, ◌++◌, ◌^◌, ◌↔◌, ℕ, List, length, slice_get, Some, [], None, Contains, IfOk, IsTrue, OnOk, option_copied};
ghost use Rattle.std.specs.List.{flat_map, list_any};
ghost use Rattle.blif_ast.specs.BlifModelData.{BlifModelData};
ghost use Rattle.blif_ast.specs.Cards.{same};
ghost use Rattle.model_calls.specs.CallNumbers.{AreCallees, AreCalls, names_of_models};
ghost use Rattle.model_calls.specs.Formals.{HavePorts, IsPortTable, IsUnbound, bound_formals, formals_in, formals_in_model, names_of_ports};
ghost use Rattle.model_calls.specs.ModelFaults.{IsBadFormal, IsDuplicateModel, formals_with, line_of_formal, name_of_formal};
ghost use Rattle.model_calls.specs.FirstFaults.{IsFirstFaultIn, NoneHolds};
ghost use Rattle.model_calls.specs.Scans.{AreFirsts, IsScan};

use crate::first_fault::FirstFault;
use crate::name_hashes::{hash_of_formals, hash_of_lists};
use crate::names::Names;
use crate::scan::Scan;
use blif_ast::{Binding, BlifModel, Instance};
use dom_base::{Name, OutOfMemory};
use graph_order::Node;
use indexmap::IndexMap;
use std::alloc::Global;

/// Of a model with at most so many inputs and so many outputs the ports are looked through one by one.
const FEW: usize = 8;

/// The first formal that an instance gets wrong, over all instances: one that it binds and that is no
/// port of its model or is bound twice, or an input of its model that it doesn't bind. It fails only
/// for want of memory.
pub fn bad_formal(
    alloc: Global,
    models: &[BlifModel],
    nodes: &[Node<'_>],
) -> Result<Option<FirstFault>, OutOfMemory>
    requires apart { NoneHolds IsDuplicateModel models.now }
    requires calls { AreCalls (names_of_models models.now) models.now nodes.now }
    ensures { IfOk result (IsFirstFaultIn IsBadFormal (flat_map (formals_in_model models.now) models.now) line_of_formal name_of_formal) }
{
    let mut tables = IndexMap::new(alloc);
    for index in 0..models.len() {
        let model = &models[index];
        if let Some(report) = bad_in_model(
            alloc,
            models,
            &mut tables,
            &model.instances,
            &nodes[index],
        )? {
            return Ok(Some(report));
        }
    }
    Ok(None)
}

/// Makes a table of the ports of the model of an instance that binds any, if they are many and have none yet.
fn add_ports<'a>(
    alloc: Global,
    tables: &mut IndexMap<usize, Names<'a>>,
    number: usize,
    unit: &'a BlifModel,
    bindings: &[Binding],
) -> Result<(), OutOfMemory>
    ensures { OnOk result ((models : List BlifModelData) → slice_get models number ≡ Some unit.now
        → HavePorts models tables.old → HavePorts models tables.new) }
{
    if bindings.is_empty() || has_few_ports(unit) || tables.contains_key(&number) {
        return Ok(());
    }
    tables.insert(number, ports(alloc, unit)?)?;
    Ok(())
}

fn has_few_ports(unit: &BlifModel) -> bool {
    unit.inputs.len() <= FEW && unit.outputs.len() <= FEW
}

fn ports<'a>(alloc: Global, model: &'a BlifModel) -> Result<Names<'a>, OutOfMemory>
    ensures { IfOk result (AreFirsts (names_of_ports model.now)) }
{
    let hash = hash_of_lists(alloc, model.inputs.as_slice(), model.outputs.as_slice())?;
    let mut names = Names::new(alloc, hash);
    add_all(&mut names, &model.inputs)?;
    add_all(&mut names, &model.outputs)?;
    Ok(names)
}

fn add_all<'a>(names: &mut Names<'a>, list: &'a [Name]) -> Result<(), OutOfMemory>
    ensures { OnOk result ((seen : List (List ℕ)) → AreFirsts seen names.old → AreFirsts (seen ++ list.now) names.new) }
{
    for name in list {
        names.add(name)?;
    }
    Ok(())
}

fn bad_in_model<'a>(
    alloc: Global,
    models: &'a [BlifModel],
    tables: &mut IndexMap<usize, Names<'a>>,
    instances: &[Instance],
    node: &Node<'_>,
) -> Result<Option<FirstFault>, OutOfMemory>
    requires apart { NoneHolds IsDuplicateModel models.now }
    requires callees { AreCallees (names_of_models models.now) instances.now node.now }
    requires ports { HavePorts models.now tables.old }
    ensures report { IfOk result (IsFirstFaultIn IsBadFormal (formals_in models.now instances.now) line_of_formal name_of_formal) }
    ensures ports { OnOk result (HavePorts models.now tables.new) }
{
    for index in 0..instances.len() {
        let unit = callee(node, index);
        let instance = &instances[index];
        let model = &models[unit];
        add_ports(alloc, tables, unit, model, &instance.bindings)?;
        if let Some(report) = bad_in_instance(alloc, instance, model, tables.get(&unit))? {
            return Ok(Some(report));
        }
    }
    Ok(None)
}

fn callee(node: &Node<'_>, index: usize) -> usize
    requires within { index < length node.now }
    ensures there { slice_get node.now index ≡ Some result }
    ensures small { result < 2 ^ 32 }
{
    node.next()[index] as usize
}

fn bad_in_instance(
    alloc: Global,
    instance: &Instance,
    unit: &BlifModel,
    table: Option<&Names<'_>>,
) -> Result<Option<FirstFault>, OutOfMemory>
    requires ports { IsPortTable unit.now (option_copied table) }
    ensures { IfOk result (IsFirstFaultIn IsBadFormal (formals_with instance.now unit.now) line_of_formal name_of_formal) }
{
    let hash = hash_of_formals(alloc, instance.bindings.as_slice())?;
    let mut scan = Scan::with_room(alloc, hash, instance.bindings.len())?;
    scan_bindings(&mut scan, &instance.bindings, unit, table)?;
    if let Some(report) = scan.report(instance.line)? {
        return Ok(Some(report));
    }
    unbound_input(&scan.names, instance.line, &unit.inputs)
}

fn scan_bindings<'a>(
    scan: &mut Scan<'a>,
    bindings: &'a [Binding],
    unit: &BlifModel,
    table: Option<&Names<'_>>,
) -> Result<(), OutOfMemory>
    requires names { scan.old.names ≡ [] }
    requires least { scan.old.least ≡ None }
    requires ports { IsPortTable unit.now (option_copied table) }
    ensures { OnOk result (IsScan (Contains (names_of_ports unit.now)) (bound_formals bindings.now) (bound_formals bindings.now) scan.new) }
{
    for binding in bindings {
        scan.look(&binding.formal, is_port(unit, table, &binding.formal))?;
    }
    Ok(())
}

/// Whether a name is a port of a model, by a table of its ports where there is one.
fn is_port(unit: &BlifModel, table: Option<&Names<'_>>, name: &Name) -> bool
    requires ports { IsPortTable unit.now (option_copied table) }
    ensures { IsTrue result ↔ Contains (names_of_ports unit.now) name.now }
{
    match table {
        Some(names) => names.has(name),
        None => is_listed(unit, name),
    }
}

fn is_listed(unit: &BlifModel, name: &Name) -> bool
    ensures { result ≡ list_any (λ port. same port name.now) (names_of_ports unit.now) }
{
    let is_input = unit.inputs.contains(name);
    let is_output = unit.outputs.contains(name);
    is_input || is_output
}

fn unbound_input(
    formals: &Names<'_>,
    line: u64,
    inputs: &[Name],
) -> Result<Option<FirstFault>, OutOfMemory>
    ensures { IfOk result (IsFirstFaultIn (IsUnbound formals.now) inputs.now (λ input. line) (λ input. input)) }
{
    for input in inputs {
        if !formals.has(input) {
            return Ok(Some(FirstFault::new(line, input)?));
        }
    }
    Ok(None)
}

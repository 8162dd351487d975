//! The calls of the models of a file, where nothing is wrong with the models.
ghost use Rattle.std.specs.Prelude.{◌≡◌, ◌<◌, IfNone, IfOk, IfSome, map, slice_index_or};
ghost use Rattle.blif_ast.specs.Good.{IsGoodFile};
ghost use Rattle.numbered_file.specs.Numbered.{file_of, models_in};
ghost use Rattle.card_places.specs.CardPlaces.{AreCardPlaces};
ghost use Rattle.local_names.specs.LocalNames.{AreLocalNames};
ghost use Rattle.local_names.specs.Units.{AreUnits};
ghost use Rattle.model_calls.specs.CallNumbers.{AreCalls, names_of_models};
ghost use Rattle.model_calls.specs.FirstFaults.{NoneHolds};
ghost use Rattle.model_calls.specs.ModelCalls.{AreModelCalls, NothingRefuses};
ghost use Rattle.model_calls.specs.ModelFaults.{IsDuplicateModel};
ghost use Rattle.numbered_calls.specs.Refused.{IsRefusedForModels};

use crate::formals::{are_bound, marks_of_ports};
use card_places::CardPlaces;
use dom_base::OutOfMemory;
use graph_order::{Node, Order, put_in_order};
use local_names::LocalNames;
use model_calls::ModelCalls;
use numbered_file::NumberedFile;
use std::alloc::Global;

/// More than the models of a file that are numbered.
const MOST: usize = 1 << 32;

/// The calls of the models of a file, by the places of its cards, the numbers of the models of its instances, and the places of its
/// names. `None` where the file is refused for something that is wrong with its models: a port that is there twice, a formal that
/// is wrong, or a model that reaches itself. It takes a time that is linear in the file, and fails only for want of memory.
pub fn calls(
    alloc: Global,
    file: &NumberedFile<'_>,
    places: &CardPlaces,
    units: &[u32],
    names: &LocalNames,
) -> Result<Option<ModelCalls>, OutOfMemory>
    requires good { IsGoodFile (file_of file.now) }
    requires places { AreCardPlaces file.now places.now }
    requires units { AreUnits file.now units.now }
    requires names { AreLocalNames file.now names.now }
    ensures calls { IfOk result (λ found. IfSome found (λ calls. AreModelCalls (file_of file.now) calls)) }
    ensures refused { IfOk result (λ found. IfNone found (IsRefusedForModels file.now)) }
{
    let Some(mut marks) = marks_of_ports(alloc, file, names)? else {
        return Ok(None);
    };
    let all_bound = are_bound(file, names, units, &mut marks)?;
    if !all_bound {
        return Ok(None);
    }
    drop(marks);
    let nodes = call_graph(alloc, file, places, units)?;
    order_calls(alloc, file, nodes)
}

/// Of each model the numbers of the models that its instances name.
fn call_graph(
    alloc: Global,
    file: &NumberedFile<'_>,
    places: &CardPlaces,
    units: &[u32],
) -> Result<Vec<Node<'static>>, OutOfMemory>
    requires places { AreCardPlaces file.now places.now }
    requires units { AreUnits file.now units.now }
    ensures { IfOk result (λ nodes. AreCalls (names_of_models (models_in file.now)) (models_in file.now) nodes.items) }
{
    let count = file.models().len();
    let mut nodes = Vec::with_capacity(alloc, count)?;
    for model in 0..count {
        let Ok(number) = u32::try_from(model) else {
            return Err(OutOfMemory);
        };
        nodes.push(callees(alloc, units, places.instances(number))?)?;
    }
    Ok(nodes)
}

/// The numbers of the models that the instances at these places name.
fn callees(alloc: Global, units: &[u32], places: &[u32]) -> Result<Node<'static>, OutOfMemory>
    ensures { IfOk result (λ node. node ≡ map (λ k. slice_index_or units.now k 0) places.now) }
{
    if let [place] = places {
        return Ok(Node::leading_to(unit_at(units, *place)));
    }
    let mut next = Vec::with_capacity(alloc, places.len())?;
    for place in places {
        next.push(unit_at(units, *place))?;
    }
    Node::owning(alloc, next)
}

fn unit_at(units: &[u32], place: u32) -> u32
    ensures { result ≡ slice_index_or units.now place 0 }
{
    units.get(place as usize).copied().unwrap_or(0)
}

/// The calls with an order of the models, unless one reaches itself.
fn order_calls(
    alloc: Global,
    file: &NumberedFile<'_>,
    nodes: Vec<Node<'static>>,
) -> Result<Option<ModelCalls>, OutOfMemory>
    requires good { IsGoodFile (file_of file.now) }
    requires apart { NoneHolds IsDuplicateModel (models_in file.now) }
    requires calls { AreCalls (names_of_models (models_in file.now)) (models_in file.now) nodes.items }
    requires accepted { NothingRefuses (file_of file.now) 4 }
    ensures calls { IfOk result (λ found. IfSome found (λ calls. AreModelCalls (file_of file.now) calls)) }
    ensures refused { IfOk result (λ found. IfNone found (IsRefusedForModels file.now)) }
{
    if MOST <= file.models().len() {
        return Err(OutOfMemory);
    }
    let order = match put_in_order(alloc, &nodes)? {
        Order::Of(order) => order,
        Order::Circular => return Ok(None),
    };
    if MOST <= order.len() {
        return Err(OutOfMemory);
    }
    Ok(Some(ModelCalls { nodes, order }))
}

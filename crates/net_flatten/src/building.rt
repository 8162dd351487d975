//! The network of a file that has nothing to be refused for.
ghost use Rattle.std.specs.Prelude.{◌≡◌, ◌≢◌, [], IfOk, Option};
ghost use Rattle.std.specs.Option.{option_map};
ghost use Rattle.blif_ast.specs.Good.{IsGoodFile};
ghost use Rattle.net_flatten.specs.declared.clocking.ControlAt.{ControlAt};
ghost use Rattle.net_flatten.specs.ClockSearches.{IsControlFound};
ghost use Rattle.net_flatten.specs.Dependences.{AreTableLevels};
ghost use Rattle.net_flatten.specs.Flattening.{IsNetworkOf};
ghost use Rattle.part_numbers.specs.NumberedFiles.{HasNumbers};
ghost use Rattle.model_calls.specs.Occurrences.{main_model};
ghost use Rattle.model_calls.specs.Refusal.{Refusal};
ghost use Rattle.model_calls.specs.Refusals.{HasRefusal};

use crate::clocking::find_control;
use crate::network_names::names_of_network;
use crate::network_parts::{net_latches, net_tables, places_of};
use crate::numbering::{add_outputs, add_pins, add_states, renumber};
use crate::table_order::tables_by_level;
use dom_base::{Name, OutOfMemory};
use network::Network;
use part_numbers::{CardFile, NumberedFile, NumberedPart};
use std::alloc::Global;

/// The number of the signal that controls latches, if one does.
fn control_of(parts: &[NumberedPart]) -> Option<u32>
    ensures { (found : Option ControlAt) × IsControlFound parts.now found × (result ≡ option_map (λ at. at.number) found) }
{
    let at = find_control(parts)?;
    Some(at.number)
}

/// The name of the main model. The one error is want of memory.
fn main_name(alloc: Global, file: &CardFile<'_>) -> Result<Name, OutOfMemory>
    requires some { file.now.models ≢ [] }
    ensures { IfOk result (λ name. name ≡ (main_model file.now).name) }
{
    Name::from_bytes(alloc, file.main_name())
}

/// The network of a good file that has nothing to be refused for, from its numbers and the levels of
/// its signals, which it lets go of. The one error is want of memory.
pub fn network_of(
    alloc: Global,
    file: &CardFile<'_>,
    numbered: &NumberedFile<'_>,
    levels: Vec<usize>,
) -> Result<Network, OutOfMemory>
    requires good { IsGoodFile file.now }
    requires numbers { HasNumbers file.now numbered.now }
    requires accepted { (r : Refusal) → HasRefusal file.now r → ⊥ }
    requires levels { AreTableLevels numbered.now.signals numbered.now.parts levels.items }
    ensures { IfOk result (IsNetworkOf file.now) }
{
    let parts = numbered.parts();
    let ordered = tables_by_level(alloc, parts, levels)?;
    let mut numbers = Vec::with_capacity(alloc, numbered.signals as usize)?;
    add_pins(&mut numbers, numbered.inputs(), control_of(parts))?;
    let inputs = numbers.len() as u32;
    add_states(&mut numbers, parts)?;
    add_outputs(&mut numbers, parts, &ordered)?;
    let places = renumber(alloc, numbered.signals, &numbers)?;
    let names = names_of_network(alloc, numbered.names(), &numbers)?;
    drop(numbers);
    Ok(Network {
        name: main_name(alloc, file)?,
        names,
        inputs,
        outputs: places_of(alloc, &places, numbered.outputs())?,
        latches: net_latches(alloc, file, parts, &places)?,
        tables: net_tables(alloc, file, parts, &ordered, &places)?,
    })
}

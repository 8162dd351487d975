//! The tables and latches of a network, from those of a file by numbers.
ghost use Rattle.std.specs.Prelude.{◌≡◌, ◌<◌, ◌++◌, ◌∷◌, [], All, IfOk, IsSome, OnOk, Some, length, map};
ghost use Rattle.net_flatten.specs.NetworkNumbers.{latches_among};
ghost use Rattle.net_flatten.specs.NetworkParts.{latch_in_network, levelled_in_network, network_place, table_in_network};
ghost use Rattle.part_numbers.specs.NumberedFaults.{IsPartWithin};

use crate::table_order::LevelledTable;
use dom_base::OutOfMemory;
use network::{NetLatch, NetTables};
use part_numbers::{CardFile, NumberedPart, PartCard, card_of};
use std::alloc::Global;

/// The places of some numbers. The one error is want of memory.
pub fn places_of(alloc: Global, places: &[u32], numbers: &[u32]) -> Result<Vec<u32>, OutOfMemory>
    requires within { All (λ number. number < length places.now) numbers.now }
    ensures { IfOk result (λ found. found.items ≡ map (network_place places.now) numbers.now) }
{
    let mut found = Vec::with_capacity(alloc, numbers.len())?;
    for number in numbers {
        found.push(places[*number as usize])?;
    }
    Ok(found)
}

/// Makes `found` the places of the numbers that a table reads. The one error is want of memory.
fn find_places(found: &mut Vec<u32>, places: &[u32], numbers: &[u32]) -> Result<(), OutOfMemory>
    requires within { All (λ number. number < length places.now) numbers.now }
    ensures { OnOk result (found.new.items ≡ map (network_place places.now) numbers.now) }
{
    found.clear();
    for number in numbers {
        found.push(places[*number as usize])?;
    }
    Ok(())
}

/// Appends a table in the network, whose inputs are put together in `inputs`. The one error is want of memory.
fn push_table(
    tables: &mut NetTables,
    inputs: &mut Vec<u32>,
    file: &CardFile<'_>,
    part: &NumberedPart,
    places: &[u32],
) -> Result<(), OutOfMemory>
    requires there { IsSome (table_in_network file.now places.now part.now) }
    requires within { IsPartWithin (length places.now) part.now }
    ensures { OnOk result (map Some tables.new ≡ map Some tables.old ++ table_in_network file.now places.now part.now ∷ []) }
{
    let card = card_of(file, part);
    find_places(inputs, places, part.reads.as_slice())?;
    tables.push_in_text(inputs, card.on(), &card.rows())
}

/// Appends the table of a part in the network. The one error is want of memory.
fn push_levelled(
    tables: &mut NetTables,
    inputs: &mut Vec<u32>,
    file: &CardFile<'_>,
    parts: &[NumberedPart],
    table: LevelledTable,
    places: &[u32],
) -> Result<(), OutOfMemory>
    requires within { All (IsPartWithin (length places.now)) parts.now }
    requires there { IsSome (levelled_in_network file.now places.now parts.now table) }
    ensures { OnOk result (map Some tables.new ≡ map Some tables.old ++ levelled_in_network file.now places.now parts.now table ∷ []) }
{
    let part = &parts[table.part];
    push_table(tables, inputs, file, part, places)
}

/// How many signals the tables of some parts read, if no more than there are bytes.
fn count_reads(parts: &[NumberedPart]) -> usize {
    let mut reads: usize = 0;
    for part in parts {
        reads = reads.saturating_add(part.reads.len());
    }
    reads
}

/// A latch in the network.
fn net_latch(file: &CardFile<'_>, part: &NumberedPart, places: &[u32]) -> NetLatch
    requires there { IsSome (latch_in_network file.now places.now part.now) }
    requires within { IsPartWithin (length places.now) part.now }
    ensures { latch_in_network file.now places.now part.now ≡ Some result }
{
    let card = card_of(file, part);
    NetLatch {
        input: places[part.reads.as_slice()[0] as usize],
        init: card.init() == 1,
    }
}

/// The tables of a network in an order of theirs, by their indices among the parts. The one error is
/// want of memory.
pub fn net_tables(
    alloc: Global,
    file: &CardFile<'_>,
    parts: &[NumberedPart],
    ordered: &[LevelledTable],
    places: &[u32],
) -> Result<NetTables, OutOfMemory>
    requires within { All (IsPartWithin (length places.now)) parts.now }
    requires there { All (λ t. IsSome (levelled_in_network file.now places.now parts.now t)) ordered.now }
    ensures { IfOk result (λ tables. map Some tables
        ≡ map (levelled_in_network file.now places.now parts.now) ordered.now) }
{
    let mut tables = NetTables::with_capacity(alloc, ordered.len(), count_reads(parts), 0, 0)?;
    let mut inputs = Vec::new(alloc);
    for index in 0..ordered.len() {
        push_levelled(
            &mut tables,
            &mut inputs,
            file,
            parts,
            ordered[index],
            places,
        )?;
    }
    Ok(tables)
}

/// The latches of a network in the order of the parts. The one error is want of memory.
pub fn net_latches(
    alloc: Global,
    file: &CardFile<'_>,
    parts: &[NumberedPart],
    places: &[u32],
) -> Result<Vec<NetLatch>, OutOfMemory>
    requires within { All (IsPartWithin (length places.now)) parts.now }
    requires there { All (λ p. IsSome (latch_in_network file.now places.now p)) (latches_among parts.now) }
    ensures { IfOk result (λ latches. map Some latches.items
        ≡ map (latch_in_network file.now places.now) (latches_among parts.now)) }
{
    let mut latches = Vec::new(alloc);
    for index in 0..parts.len() {
        let part = &parts[index];
        if let PartCard::Latch(_) = part.card {
            latches.push(net_latch(file, part, places))?;
        }
    }
    Ok(latches)
}

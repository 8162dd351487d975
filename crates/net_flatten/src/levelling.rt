//! The levels of the signals of a file.
ghost use Rattle.std.specs.Prelude.{◌≡◌, ◌<◌, All, IfOk, length, map, max, replicate};
ghost use Rattle.std.specs.List.{fold};
ghost use Rattle.graph_order.specs.Orders.{IsGraph, IsOrder};
ghost use Rattle.net_flatten.specs.Dependences.{AreDependences, AreTableLevels, level_at};
ghost use Rattle.net_flatten.specs.LevelSteps.{AreLevelsSoFar};
ghost use Rattle.part_numbers.specs.NumberedFaults.{IsPartWithin};
ghost use Rattle.model_calls.specs.NumberSets.{IsSetOf};
ghost use Rattle.net_flatten.specs.TableNumbers.{driven_by_tables};

use dom_base::OutOfMemory;
use graph_order::Node;
use model_calls::NumberSet;
use part_numbers::{NumberedPart, PartCard};
use std::alloc::Global;

/// The greatest level of some signals, and 0 where there are none.
fn greatest(levels: &[usize], numbers: &[u32]) -> usize
    requires within { All (λ number. number < length levels.now) numbers.now }
    ensures { result ≡ fold max 0 (map (level_at levels.now) numbers.now) }
{
    let mut most = 0;
    for number in numbers {
        most = most.max(levels[*number as usize]);
    }
    most
}

/// Level 0 for each number below a bound. The one error is want of memory.
fn no_levels(alloc: Global, bound: u32) -> Result<Vec<usize>, OutOfMemory>
    ensures { IfOk result (λ levels. levels.items ≡ replicate bound 0) }
{
    let mut levels = Vec::with_capacity(alloc, bound as usize)?;
    for _ in 0..bound {
        levels.push(0)?;
    }
    Ok(levels)
}

/// The set of what tables drive. The one error is want of memory.
fn find_tables(
    alloc: Global,
    signals: u32,
    parts: &[NumberedPart],
) -> Result<NumberSet, OutOfMemory>
    requires parts { All (IsPartWithin signals) parts.now }
    ensures { IfOk result (IsSetOf signals (driven_by_tables parts.now)) }
{
    let mut tables = NumberSet::new(alloc, signals)?;
    for index in 0..parts.len() {
        let part = &parts[index];
        if let PartCard::Table(_) = part.card {
            tables.insert(part.drives);
        }
    }
    Ok(tables)
}

/// Sets the levels of what tables drive, in an order in which each signal stands behind those that it
/// depends on.
fn set_levels(levels: &mut Vec<usize>, tables: &NumberSet, nodes: &[Node<'_>], order: &[u32])
    requires start { AreLevelsSoFar nodes.now order.now tables.now (length nodes.now) 0 levels.old.items }
    requires order { IsOrder nodes.now order.now }
    requires graph { IsGraph nodes.now }
    requires tables { length tables.now ≡ length nodes.now }
    ensures { AreLevelsSoFar nodes.now order.now tables.now (length nodes.now) (length order.now) levels.new.items }
{
    for index in 0..order.len() {
        let number = order[index];
        if number as usize >= nodes.len() {
            continue;
        }
        if tables.contains(number) {
            let node = &nodes[number as usize];
            let level = 1 + greatest(levels.as_slice(), node.next());
            levels[number as usize] = level;
        }
    }
}

/// The levels of all signals, from an order in which each stands behind those that it depends on. The
/// one error is want of memory.
pub fn find_levels(
    alloc: Global,
    signals: u32,
    parts: &[NumberedPart],
    nodes: &[Node<'_>],
    order: &[u32],
) -> Result<Vec<usize>, OutOfMemory>
    requires parts { All (IsPartWithin signals) parts.now }
    requires nodes { AreDependences signals parts.now nodes.now }
    requires graph { IsGraph nodes.now }
    requires order { IsOrder nodes.now order.now }
    ensures { IfOk result (λ levels. AreTableLevels signals parts.now levels.items) }
{
    let tables = find_tables(alloc, signals, parts)?;
    let mut levels = no_levels(alloc, signals)?;
    set_levels(&mut levels, &tables, nodes, order);
    Ok(levels)
}

//! The tables of a file in order of their levels.
ghost use Rattle.std.specs.Prelude.{◌≡◌, All, IfOk, OnOk, Some, length, map, slice_get};
ghost use Rattle.net_flatten.specs.declared.table_order.LevelledTable.{LevelledTable};
ghost use Rattle.net_flatten.specs.Dependences.{level_at};
ghost use Rattle.net_flatten.specs.LevelledTables.{AreLevelledTables};
ghost use Rattle.part_numbers.specs.NumberedFaults.{IsPartWithin};
ghost use Rattle.model_calls.specs.Ordered.{in_order};
ghost use Rattle.net_flatten.specs.TableNumbers.{tables_among};

use dom_base::OutOfMemory;
use part_numbers::{NumberedPart, PartCard};
use std::alloc::Global;

/// A table by its index among the parts, with its level.
#[derive(Clone, Copy)]
pub struct LevelledTable {
    pub level: usize,
    pub part: usize,
}

/// The tables among the parts with their levels. The one error is want of memory.
fn levelled_tables(
    alloc: Global,
    parts: &[NumberedPart],
    levels: &[usize],
) -> Result<Vec<LevelledTable>, OutOfMemory>
    requires within { All (IsPartWithin (length levels.now)) parts.now }
    ensures { IfOk result (λ tables. AreLevelledTables levels.now parts.now (tables_among parts.now) tables.items) }
{
    let mut tables = Vec::with_capacity(alloc, parts.len())?;
    for index in 0..parts.len() {
        let part = &parts[index];
        if let PartCard::Table(_) = part.card {
            let level = levels[part.drives as usize];
            tables.push(LevelledTable { level, part: index })?;
        }
    }
    Ok(tables)
}

/// Sorts tables by their levels; those of one level stay in order.
fn sort_by_level(tables: &mut Vec<LevelledTable>) -> Result<(), OutOfMemory>
    ensures { OnOk result (tables.new.items ≡ in_order (λ t. t.level) tables.old.items) }
{
    tables.sort_by_key(
        |table: &LevelledTable| -> usize
            ensures { result ≡ table.now.level }
        { table.level },
    )?;
    Ok(())
}

/// The tables among the parts in order of their levels, and within a level in the order of the parts. It lets go of
/// the levels. The one error is want of memory.
pub fn tables_by_level(
    alloc: Global,
    parts: &[NumberedPart],
    levels: Vec<usize>,
) -> Result<Vec<LevelledTable>, OutOfMemory>
    requires within { All (IsPartWithin (length levels.items)) parts.now }
    ensures { IfOk result (λ tables. map (λ (t : LevelledTable). slice_get parts.now t.part) tables.items
        ≡ map Some (in_order (λ p. level_at levels.items p.drives) (tables_among parts.now))) }
{
    let mut tables = levelled_tables(alloc, parts, levels.as_slice())?;
    sort_by_level(&mut tables)?;
    Ok(tables)
}

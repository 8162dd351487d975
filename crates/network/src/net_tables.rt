//! The tables of a network.
ghost use Rattle.std.specs.Prelude.{◌≡◌, ◌≤◌, ◌<◌, ◌++◌, ◌∷◌, [], IfOk, OnOk, Some, drop, length, slice_get, take};
ghost use Rattle.network.specs.TablePools.{rows_in_text};

use crate::list_pool::{LentLists, ListAt, ListPool};
use blif_ast::{Letter, Row};
use dom_base::OutOfMemory;
use std::alloc::Global;
use std::marker::Model;

/// The rows of a table that is lent, one list of letters each.
pub type TableRows<'a> = LentLists<'a, Letter>;

/// A table of a network: the numbers of the signals at its inputs, and its rows, one letter per input
/// in each. Where `on` is true its output is 1 exactly where some row matches the inputs; where it is
/// false it is 0 exactly there. A table without rows has a true `on`, and its output is 0.
#[derive(Drop)]
pub struct NetTable<'a> {
    pub inputs: &'a [u32],
    pub on: bool,
    pub rows: TableRows<'a>,
}

impl<'a> Model for NetTable<'a> {
    ghost use Rattle.network.specs.NetworkData.{NetTableData};

    ghost Value = { NetTableData };

    ghost view = { λ t. record { inputs = t.inputs.now; on = t.on; rows = t.rows } };
}

/// The rows of a table that stand in a text, each of so many letters at its place, or of those that are left there.
#[derive(Debug, Drop)]
pub struct RowsInText<'a> {
    text: &'a [u8],
    width: usize,
    places: &'a [u32],
}

impl<'a> Model for RowsInText<'a> {
    ghost use Rattle.std.specs.Prelude.{List};
    ghost use Rattle.blif_ast.specs.declared.letter.Letter.{Letter};
    ghost use Rattle.network.specs.TablePools.{rows_in_text};

    ghost Value = { List (List Letter) };

    ghost view = { λ r. rows_in_text r.text.now r.width r.places.now };
}

impl<'a> RowsInText<'a> {
    /// The rows of so many letters that begin at these places of a text.
    pub fn new(text: &'a [u8], width: usize, places: &'a [u32]) -> RowsInText<'a>
        ensures { result ≡ rows_in_text text.now width places.now }
    {
        RowsInText {
            text,
            width,
            places,
        }
    }
}

/// Where a table stands: its inputs among all that tables read, and its rows among all rows.
#[derive(Clone, Copy)]
pub struct TableAt {
    pub reads: ListAt,
    pub rows: ListAt,
    pub on: bool,
}

/// Tables in order, with all that they read in one vector, and all letters of their rows in another.
#[derive(Drop)]
pub struct NetTables {
    reads: Vec<u32>,
    rows: ListPool<Letter>,
    tables: Vec<TableAt>,
}

impl Model for NetTables {
    ghost use Rattle.std.specs.Prelude.{List, length};
    ghost use Rattle.network.specs.NetworkData.{NetTableData};
    ghost use Rattle.network.specs.TablePools.{AreTablesWithin, tables_in};

    ghost Value = { List NetTableData };

    ghost view = { λ t. tables_in t.reads.items t.rows t.tables.items };

    ghost invariant = { λ t. AreTablesWithin (length t.reads.items) (length t.rows) t.tables.items };
}

impl NetTables {
    /// No tables.
    pub fn new(alloc: Global) -> NetTables
        ensures { result ≡ [] }
    {
        NetTables {
            reads: Vec::new(alloc),
            rows: ListPool::new(alloc),
            tables: Vec::new(alloc),
        }
    }

    /// No tables, with room for so many tables, reads, rows and letters. The one error is out of memory.
    pub fn with_capacity(
        alloc: Global,
        tables: usize,
        reads: usize,
        rows: usize,
        letters: usize,
    ) -> Result<NetTables, OutOfMemory>
        ensures { IfOk result (λ all. all ≡ []) }
    {
        Ok(NetTables {
            reads: Vec::with_capacity(alloc, reads)?,
            rows: ListPool::with_capacity(alloc, rows, letters)?,
            tables: Vec::with_capacity(alloc, tables)?,
        })
    }

    /// A copy. The one error is out of memory.
    pub fn copy(&self, alloc: Global) -> Result<NetTables, OutOfMemory>
        ensures { IfOk result (λ all. all ≡ self.now) }
    {
        Ok(NetTables {
            reads: self.reads.as_slice().to_vec(alloc)?,
            rows: self.rows.copy(alloc)?,
            tables: self.tables.as_slice().to_vec(alloc)?,
        })
    }

    /// How many tables there are.
    pub fn len(&self) -> usize
        ensures { result ≡ length self.now }
    {
        self.tables.len()
    }

    /// The table of an index.
    pub fn table(&self, index: usize) -> NetTable<'_>
        requires { index < length self.now }
        ensures { slice_get self.now index ≡ Some result }
    {
        let at = self.tables[index];
        NetTable {
            inputs: at.reads.of(self.reads.as_slice()),
            on: at.on,
            rows: self.rows.lists(at.rows),
        }
    }

    /// Appends a table whose rows stand in a text. The one error is out of memory.
    pub fn push_in_text(
        &mut self,
        inputs: &[u32],
        on: bool,
        rows: &RowsInText<'_>,
    ) -> Result<(), OutOfMemory>
        ensures { OnOk result (self.new ≡ self.old
            ++ record { inputs = inputs.now; on = on; rows = rows.now } ∷ []) }
    {
        let reads = ListAt::behind(self.reads.len(), inputs.len())?;
        let rows_at = ListAt::behind(self.rows.len(), rows.places.len())?;
        self.reads.extend_from_slice(inputs)?;
        push_rows_in_text(&mut self.rows, rows)?;
        self.tables.push(TableAt {
            reads,
            rows: rows_at,
            on,
        })?;
        Ok(())
    }

    /// Appends a table. The one error is out of memory.
    pub fn push(&mut self, inputs: &[u32], on: bool, rows: &[Row]) -> Result<(), OutOfMemory>
        ensures { OnOk result (self.new ≡ self.old ++ record { inputs = inputs.now; on = on; rows = rows.now } ∷ []) }
    {
        let reads = ListAt::behind(self.reads.len(), inputs.len())?;
        let rows_at = ListAt::behind(self.rows.len(), rows.len())?;
        self.reads.extend_from_slice(inputs)?;
        push_rows(&mut self.rows, rows)?;
        self.tables.push(TableAt {
            reads,
            rows: rows_at,
            on,
        })?;
        Ok(())
    }
}

/// Appends the rows that stand at these places of a text. The one error is out of memory.
fn push_rows_in_text(pool: &mut ListPool<Letter>, rows: &RowsInText<'_>) -> Result<(), OutOfMemory>
    ensures rows { OnOk result (pool.new ≡ pool.old ++ rows.now) }
    ensures longer { length pool.old ≤ length pool.new }
{
    for place in rows.places {
        pool.push_row(row_in_text(rows.text, rows.width, *place))?;
    }
    Ok(())
}

/// The bytes of the row at this place of a text.
fn row_in_text(text: &[u8], width: usize, place: u32) -> &[u8]
    ensures { result.now ≡ take width (drop place text.now) }
{
    let rest = &text[text.len().min(place as usize)..];
    &rest[..rest.len().min(width)]
}

/// Appends rows. The one error is out of memory.
fn push_rows(pool: &mut ListPool<Letter>, rows: &[Row]) -> Result<(), OutOfMemory>
    ensures rows { OnOk result (pool.new ≡ pool.old ++ rows.now) }
    ensures longer { length pool.old ≤ length pool.new }
{
    for row in rows {
        pool.push(&row.letters)?;
    }
    Ok(())
}

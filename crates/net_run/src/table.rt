//! The value of a table.
ghost use Rattle.std.specs.Prelude.{◌≡◌, ◌<◌, ◌≤◌, ◌↔◌, All, length, map, true};
ghost use Rattle.blif_ast.specs.TableValue.{IsOneAt, Matches};
ghost use Rattle.net_run.specs.RunnerData.{StandBetween, StandsFor};
ghost use Rattle.net_run.specs.Runs.{value_at};

use blif_ast::Letter;
use network::{NetTable, TableRows};

/// How many letters are compared at once.
const BLOCK: usize = 8;

/// The value of a table at these values of signals.
pub fn is_one(table: &NetTable<'_>, values: &[bool]) -> bool
    requires inputs { All (λ signal. signal < length values.now) table.now.inputs }
    requires rows { All (λ row. length row ≡ length table.now.inputs) table.now.rows }
    ensures { (result ≡ true) ↔ IsOneAt table.now.on table.now.rows (map (value_at values.now) table.now.inputs) }
{
    any_matches(&table.rows, table.inputs, values) == table.on
}

/// Whether some row matches the signals of these numbers.
fn any_matches(rows: &TableRows<'_>, inputs: &[u32], values: &[bool]) -> bool
    requires inputs { All (λ signal. signal < length values.now) inputs.now }
    requires rows { All (λ row. length row ≡ length inputs.now) rows.now }
    ensures { (result ≡ true) ↔ IsOneAt true rows.now (map (value_at values.now) inputs.now) }
{
    for k in 0..rows.len() {
        if matches(rows.list(k), inputs, values) {
            return true;
        }
    }
    false
}

/// Whether a row matches the signals of these numbers. Letters are compared in blocks, without a branch for each.
fn matches(letters: &[Letter], inputs: &[u32], values: &[bool]) -> bool
    requires inputs { All (λ signal. signal < length values.now) inputs.now }
    requires letters { length letters.now ≡ length inputs.now }
    ensures { (result ≡ true) ↔ Matches letters.now (map (value_at values.now) inputs.now) }
{
    let mut start = 0;
    'compare: while start < letters.len() {
        let end = letters.len().min(start + BLOCK);
        if !stand_between(letters, inputs, values, start, end) {
            return false;
        }
        start = end;
    }
    true
}

/// Whether the letters of a row from one place up to another stand for the values of their signals.
fn stand_between(
    letters: &[Letter],
    inputs: &[u32],
    values: &[bool],
    start: usize,
    end: usize,
) -> bool
    requires inputs { All (λ signal. signal < length values.now) inputs.now }
    requires letters { length letters.now ≡ length inputs.now }
    requires within { end ≤ length letters.now }
    requires order { start ≤ end }
    ensures { (result ≡ true) ↔ StandBetween letters.now inputs.now values.now start end }
{
    let mut all = true;
    for k in start..end {
        all &= stands_for(letters[k], values[inputs[k] as usize]);
    }
    all
}

/// Whether a letter stands for this value.
fn stands_for(letter: Letter, value: bool) -> bool
    ensures { (result ≡ true) ↔ StandsFor letter value }
{
    // `Zero` and `One` are 0 and 1, and `Any` differs from a value by more than the last bit.
    (letter as u8) ^ (value as u8) != 1
}

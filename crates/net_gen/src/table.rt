//! Tables of a network that is generated.
ghost use Rattle.std.specs.Prelude.{◌≡◌, ◌≤◌, ◌%◌, ◌++◌, ◌∷◌, [], IfOk, OnOk, map};
ghost use Rattle.net_gen.specs.Draws.{next_draw_state, draw_state_after};
ghost use Rattle.net_gen.specs.Generated.{drawn_letter, input_behind, input_of, reach, row_at, table_behind, three_from};

use crate::draws::Draws;
use blif_ast::{Letter, Letters, Row};
use dom_base::OutOfMemory;
use net_flatten::NetTables;
use std::alloc::Global;

/// How many of the last signals an input is drawn from.
const LAST: u32 = 60;

/// Input k, of three, of a table behind so many signals, by one draw.
fn input(draws: &mut Draws, signals: u32, k: u32) -> u32
    requires some { 16 ≤ signals }
    requires few { k ≤ 2 }
    ensures state { draws.new ≡ next_draw_state draws.old }
    ensures input { result ≡ input_of signals (draws.new % reach signals) k }
{
    signals - 1 - (3 * draws.draw(signals.min(LAST) / 3) + k)
}

/// The inputs of a table behind so many signals, by three draws.
fn inputs_behind(draws: &mut Draws, signals: u32) -> [u32; 3]
    requires some { 16 ≤ signals }
    ensures state { draws.new ≡ draw_state_after 3 draws.old }
    ensures inputs { result ≡ map (input_behind signals draws.old) (three_from 0) }
{
    let first = input(draws, signals, 0);
    let second = input(draws, signals, 1);
    let third = input(draws, signals, 2);
    [first, second, third]
}

/// The letter of a draw.
fn letter(draws: &mut Draws) -> Letter
    ensures state { draws.new ≡ next_draw_state draws.old }
    ensures letter { result ≡ drawn_letter (draws.new % 3) }
{
    match draws.draw(3) {
        0 => Letter::Zero,
        1 => Letter::One,
        _ => Letter::Any,
    }
}

/// A row of three letters, by three draws.
fn row(alloc: Global, draws: &mut Draws) -> Result<Row, OutOfMemory>
    ensures state { OnOk result (draws.new ≡ draw_state_after 3 draws.old) }
    ensures row { IfOk result (λ row. row ≡ row_at draws.old 0) }
{
    let first = letter(draws);
    let second = letter(draws);
    let third = letter(draws);
    Ok(Row {
        letters: Letters::from_array(alloc, [first, second, third])?,
    })
}

/// Appends a table behind so many signals, by ten draws: three for its inputs, one for what its rows end in, and
/// three for the letters of each of its two rows.
pub fn push_table(
    tables: &mut NetTables,
    alloc: Global,
    draws: &mut Draws,
    signals: u32,
) -> Result<(), OutOfMemory>
    requires some { 16 ≤ signals }
    ensures state { OnOk result (draws.new ≡ draw_state_after 10 draws.old) }
    ensures table { OnOk result (tables.new ≡ tables.old ++ table_behind signals draws.old ∷ []) }
{
    let inputs = inputs_behind(draws, signals);
    let on = draws.draw(4) != 0;
    let first = row(alloc, draws)?;
    let second = row(alloc, draws)?;
    tables.push(&inputs, on, &[first, second])
}

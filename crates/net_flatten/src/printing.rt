//! The text of a network as a file of one model.
ghost use Rattle.std.specs.Prelude.{◌≡◌, ◌<◌, ◌++◌, ◌∷◌, [], All, IfOk, OnOk, Some, codes, length, map, slice_get};
ghost use Rattle.std.specs.List.{flat_map};
ghost use Rattle.blif_ast.specs.Printed.{letter_byte, printed, printed_line, row_words, table_lines};
ghost use Rattle.network.specs.NetworkData.{NetTableData};
ghost use Rattle.net_flatten.specs.OneModel.{file_of, name_at, table_at};
ghost use Rattle.net_flatten.specs.OneModelParts.{tables_here};

use crate::one_model::{latches_of, names_of, names_of_inputs};
use blif_ast::{Letter, end_line, put_head, put_latches, put_ports};
use dom_base::{OutOfMemory, append, append_word};
use network::{ListPool, Network, TableRows};
use std::alloc::Global;

/// The most bytes of a text besides those of its names and rows.
const AROUND: usize = 64;

/// The most bytes of the line of a signal besides those of its name and of what it reads.
const AROUND_NAME: usize = 12;

/// The most bytes of a row besides its letters.
const AROUND_ROW: usize = 3;

/// The text of the file of one model that `to_file` makes of a network, in room that is asked for once. It fails only
/// for want of memory.
pub fn print_network(alloc: Global, network: &Network) -> Result<Vec<u8>, OutOfMemory>
    ensures { IfOk result (λ text. text.items ≡ printed (file_of network.now)) }
{
    let mut text = Vec::with_capacity(alloc, room_of(network))?;
    put_head(&mut text, network.name.as_bytes())?;
    put_ports(&mut text, b".inputs", &names_of_inputs(alloc, network)?)?;
    put_ports(
        &mut text,
        b".outputs",
        &names_of(alloc, network, &network.outputs)?,
    )?;
    put_tables(&mut text, network)?;
    put_latches(&mut text, &latches_of(alloc, network)?)?;
    append(&mut text, b".end\n")?;
    Ok(text)
}

/// Appends the lines of all tables.
fn put_tables(text: &mut Vec<u8>, network: &Network) -> Result<(), OutOfMemory>
    ensures { OnOk result (text.new.items
        ≡ text.old.items ++ flat_map (λ table. flat_map printed_line (table_lines table)) (tables_here network.now)) }
{
    for k in 0..network.tables.len() {
        put_table(text, network, k)?;
    }
    Ok(())
}

/// Appends the lines of the table at this place.
fn put_table(text: &mut Vec<u8>, network: &Network, k: usize) -> Result<(), OutOfMemory>
    requires { k < length network.now.tables }
    ensures { OnOk result ((t : NetTableData) → slice_get network.now.tables k ≡ Some t
        → text.new.items ≡ text.old.items ++ flat_map printed_line (table_lines (table_at network.now k t))) }
{
    let table = network.tables.table(k);
    let first = network.inputs as usize + network.latches.len();
    put_card(text, network, table.inputs, first + k)?;
    put_rows(text, table.on, &table.rows)
}

/// Appends a line for each row: its letters, if there are any, and `1` where `on` is true, else `0`.
fn put_rows(text: &mut Vec<u8>, on: bool, rows: &TableRows<'_>) -> Result<(), OutOfMemory>
    ensures { OnOk result (text.new.items ≡ text.old.items ++ flat_map (λ row. printed_line (row_words on row)) rows.now) }
{
    for k in 0..rows.len() {
        put_row(text, on, rows.list(k))?;
    }
    Ok(())
}

/// Appends the line of a row.
fn put_row(text: &mut Vec<u8>, on: bool, letters: &[Letter]) -> Result<(), OutOfMemory>
    ensures { OnOk result (text.new.items ≡ text.old.items ++ printed_line (row_words on letters.now)) }
{
    put_letters(text, letters)?;
    if !letters.is_empty() {
        append(text, b" ")?;
    }
    append(text, if on { b"1\n" } else { b"0\n" })
}

fn put_letters(text: &mut Vec<u8>, letters: &[Letter]) -> Result<(), OutOfMemory>
    ensures { OnOk result (text.new.items ≡ text.old.items ++ map letter_byte letters.now) }
{
    for letter in letters {
        text.push(byte_of(*letter))?;
    }
    Ok(())
}

fn byte_of(letter: Letter) -> u8
    ensures { result ≡ letter_byte letter }
{
    match letter {
        Letter::Zero => b'0',
        Letter::One => b'1',
        Letter::Any => b'-',
    }
}

/// Appends the card of a table that reads these signals and drives this one.
fn put_card(
    text: &mut Vec<u8>,
    network: &Network,
    inputs: &[u32],
    output: usize,
) -> Result<(), OutOfMemory>
    requires inputs { All (λ signal. signal < length network.now.names) inputs.now }
    requires output { output < length network.now.names }
    ensures { OnOk result (text.new.items ≡ text.old.items
        ++ printed_line (codes ".names" ∷ map (name_at network.now) inputs.now ++ name_at network.now output ∷ [])) }
{
    append(text, b".names")?;
    put_names(text, network, inputs)?;
    let name = name_in(network, output);
    append_word(text, name)?;
    end_line(text, name)
}

/// Appends a blank before the name of each of these signals, and the name.
fn put_names(text: &mut Vec<u8>, network: &Network, signals: &[u32]) -> Result<(), OutOfMemory>
    requires { All (λ signal. signal < length network.now.names) signals.now }
    ensures { OnOk result (text.new.items
        ≡ text.old.items ++ flat_map (λ word. 32 ∷ word) (map (name_at network.now) signals.now)) }
{
    for signal in signals {
        append_word(text, name_in(network, *signal as usize))?;
    }
    Ok(())
}

/// The bytes of the name of the signal of a number.
fn name_in(network: &Network, signal: usize) -> &[u8]
    requires { signal < length network.now.names }
    ensures { result.now ≡ name_at network.now signal }
{
    network.names.list(signal)
}

/// How many bytes of room the text wants.
fn room_of(network: &Network) -> usize {
    let mut room = room_of_names(&network.names);
    room = room.saturating_add(room_of_reads(&network.names, &network.outputs));
    for latch in &network.latches {
        room = room.saturating_add(room_of_read(&network.names, latch.input));
    }
    for k in 0..network.tables.len() {
        let table = network.tables.table(k);
        let row = AROUND_ROW.saturating_add(table.inputs.len());
        room = room.saturating_add(room_of_reads(&network.names, table.inputs));
        room = room.saturating_add(row.saturating_mul(table.rows.len()));
    }
    room.saturating_add(AROUND + network.name.as_bytes().len())
}

/// How many bytes of room the names want where they are ports or stand behind the word of a card.
fn room_of_names(names: &ListPool<u8>) -> usize {
    let mut room: usize = 0;
    for k in 0..names.len() {
        room = room
            .saturating_add(AROUND_NAME)
            .saturating_add(names.list(k).len());
    }
    room
}

/// How many bytes of room the names of these signals want.
fn room_of_reads(names: &ListPool<u8>, signals: &[u32]) -> usize {
    let mut room: usize = 0;
    for signal in signals {
        room = room.saturating_add(room_of_read(names, *signal));
    }
    room
}

fn room_of_read(names: &ListPool<u8>, signal: u32) -> usize {
    let signal = signal as usize;
    if signal < names.len() {
        names.list(signal).len().saturating_add(1)
    } else {
        0
    }
}

//! The lines of cards and rows.
ghost use Rattle.std.specs.Prelude.{◌≡◌, ◌++◌, ◌∷◌, ◌≤◌, OnOk, map};
ghost use Rattle.std.specs.List.{flat_map};
ghost use Rattle.blif_ast.specs.Printed.{printed_line, letter_byte, row_words, names_words, table_lines, edge_word, signal_word, control_words, latch_words, binding_word, instance_words, ports_card};

use crate::line::{end_line, put_words};
use crate::{Binding, Control, Edge2, Instance, Latch, Letter, Row, Table};
use dom_base::{Name, OutOfMemory, append, append_word};

/// Appends a line of a card and the names of ports, if there are any.
pub fn put_ports(text: &mut Vec<u8>, card: &[u8], names: &[Name]) -> Result<(), OutOfMemory>
    ensures { OnOk result (text.new.items ≡ text.old.items ++ flat_map printed_line (ports_card card.now names.now)) }
{
    match names.split_last() {
        None => Ok(()),
        Some((last, others)) => {
            append(text, card)?;
            put_words(text, others)?;
            append_word(text, last.as_bytes())?;
            end_line(text, last.as_bytes())
        }
    }
}

/// Appends the lines of a table: its card and its rows.
pub fn put_table(text: &mut Vec<u8>, table: &Table) -> Result<(), OutOfMemory>
    ensures { OnOk result (text.new.items ≡ text.old.items ++ flat_map printed_line (table_lines table.now)) }
{
    put_names(text, table)?;
    put_rows(text, table.on, &table.rows)
}

fn put_names(text: &mut Vec<u8>, table: &Table) -> Result<(), OutOfMemory>
    ensures { OnOk result (text.new.items ≡ text.old.items ++ printed_line (names_words table.now)) }
{
    append(text, b".names")?;
    put_words(text, &table.inputs)?;
    append_word(text, table.output.as_bytes())?;
    end_line(text, table.output.as_bytes())
}

/// Appends a line for each row: its letters, if there are any, and `1` where `on` is true, else `0`.
pub fn put_rows(text: &mut Vec<u8>, on: bool, rows: &[Row]) -> Result<(), OutOfMemory>
    ensures { OnOk result (text.new.items ≡ text.old.items ++ flat_map (λ row. printed_line (row_words on row)) rows.now) }
{
    for row in rows {
        put_row(text, on, row)?;
    }
    Ok(())
}

fn put_row(text: &mut Vec<u8>, on: bool, row: &Row) -> Result<(), OutOfMemory>
    ensures { OnOk result (text.new.items ≡ text.old.items ++ printed_line (row_words on row.now)) }
{
    put_letters(text, &row.letters)?;
    if !row.letters.is_empty() {
        append(text, b" ")?;
    }
    append(text, if on { b"1\n" } else { b"0\n" })
}

fn put_letters(text: &mut Vec<u8>, letters: &[Letter]) -> Result<(), OutOfMemory>
    ensures { OnOk result (text.new.items ≡ text.old.items ++ map letter_byte letters.now) }
{
    for letter in letters {
        text.push(byte_of(*letter))?;
    }
    Ok(())
}

fn byte_of(letter: Letter) -> u8
    ensures { result ≡ letter_byte letter }
{
    match letter {
        Letter::Zero => b'0',
        Letter::One => b'1',
        Letter::Any => b'-',
    }
}

/// Appends the card of a latch.
pub fn put_latch(text: &mut Vec<u8>, latch: &Latch) -> Result<(), OutOfMemory>
    requires { latch.now.init ≤ 3 }
    ensures { OnOk result (text.new.items ≡ text.old.items ++ printed_line (latch_words latch.now)) }
{
    append(text, b".latch")?;
    append_word(text, latch.input.as_bytes())?;
    append_word(text, latch.output.as_bytes())?;
    put_control(text, &latch.control)?;
    append(text, &[b' ', b'0' + latch.init, b'\n'])
}

fn put_control(text: &mut Vec<u8>, control: &Option<Control>) -> Result<(), OutOfMemory>
    ensures { OnOk result (text.new.items ≡ text.old.items ++ flat_map (λ word. 32 ∷ word) (control_words control.now)) }
{
    match control {
        None => Ok(()),
        Some(control) => {
            append_word(text, edge(control.edge))?;
            append_word(text, signal(control))
        }
    }
}

fn edge(edge: Edge2) -> &'static [u8]
    ensures { result.now ≡ edge_word edge }
{
    match edge {
        Edge2::Rising => b"re",
        Edge2::Falling => b"fe",
    }
}

fn signal(control: &Control) -> &[u8]
    ensures { result.now ≡ signal_word control.now.signal }
{
    match &control.signal {
        None => b"NIL",
        Some(name) => name.as_bytes(),
    }
}

/// Appends the card of an instance.
pub fn put_instance(text: &mut Vec<u8>, instance: &Instance) -> Result<(), OutOfMemory>
    ensures { OnOk result (text.new.items ≡ text.old.items ++ printed_line (instance_words instance.now)) }
{
    append(text, b".subckt")?;
    append_word(text, instance.unit.as_bytes())?;
    match instance.bindings.split_last() {
        None => end_line(text, instance.unit.as_bytes()),
        Some((last, others)) => {
            put_bindings(text, others)?;
            put_binding(text, last)?;
            end_line(text, last.actual.as_bytes())
        }
    }
}

fn put_bindings(text: &mut Vec<u8>, bindings: &[Binding]) -> Result<(), OutOfMemory>
    ensures { OnOk result (text.new.items ≡ text.old.items ++ flat_map (λ binding. 32 ∷ binding_word binding) bindings.now) }
{
    for binding in bindings {
        put_binding(text, binding)?;
    }
    Ok(())
}

fn put_binding(text: &mut Vec<u8>, binding: &Binding) -> Result<(), OutOfMemory>
    ensures { OnOk result (text.new.items ≡ text.old.items ++ 32 ∷ binding_word binding.now) }
{
    append_word(text, binding.formal.as_bytes())?;
    append(text, b"=")?;
    append(text, binding.actual.as_bytes())
}

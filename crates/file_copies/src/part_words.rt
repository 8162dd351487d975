//! Tables, latches and instances with names of their own, appended to the lists of a file by numbers.
ghost use Rattle.std.specs.Prelude.{◌≡◌, ◌<◌, ◌∷◌, ◌++◌, ◌-◌, [], All, IfOk, OnOk, Some, length, slice_get};
ghost use Rattle.std.specs.Option.{option_map, option_to_list};
ghost use Rattle.blif_ast.specs.Good.{IsGoodTable};
ghost use Rattle.numbered_file.specs.declared.parts.PartKind.TheVariants as at;
ghost use Rattle.numbered_file.specs.OpenLists.{with_parts, open_lists, with_inputs, with_outputs, with_row, with_words};
ghost use Rattle.file_copies.specs.FileLetters.{rows_letters};
ghost use Rattle.numbered_file.specs.Numbered.{InstancePart, LatchPart, TablePart};
ghost use Rattle.blif_lines.specs.TextPlaces.{IsFrontOf, IsRestOf};
ghost use Rattle.file_copies.specs.Pushing.{HasRows, edge_of, pair_words, signal_words};

use blif_ast::{Binding, Control, Edge2, Instance, Latch, Row, Table};
use dom_base::{Name, OutOfMemory};
use numbered_file::{OpenFile, PartKind, as_u32, from_place};

fn name_at(names: &[Name], index: usize) -> &[u8]
    requires { index < length names.now }
    ensures { slice_get names.now index ≡ Some result.now }
{
    names[index].as_bytes()
}

/// Appends inputs of the model that comes. The one error is out of memory.
pub fn push_inputs<'t>(file: &mut OpenFile<'t>, names: &'t [Name]) -> Result<(), OutOfMemory>
    ensures { OnOk result (open_lists file.new ≡ with_inputs (open_lists file.old) names.now) }
{
    for index in 0..names.len() {
        file.add_input(name_at(names, index))?;
    }
    Ok(())
}

/// Appends outputs of the model that comes. The one error is out of memory.
pub fn push_outputs<'t>(file: &mut OpenFile<'t>, names: &'t [Name]) -> Result<(), OutOfMemory>
    ensures { OnOk result (open_lists file.new ≡ with_outputs (open_lists file.old) names.now) }
{
    for index in 0..names.len() {
        file.add_output(name_at(names, index))?;
    }
    Ok(())
}

fn push_words<'t>(file: &mut OpenFile<'t>, names: &'t [Name]) -> Result<(), OutOfMemory>
    ensures { OnOk result (open_lists file.new ≡ with_words (open_lists file.old) names.now) }
{
    for index in 0..names.len() {
        file.add_word(name_at(names, index))?;
    }
    Ok(())
}

/// Appends a row of the table that comes, which begins where these letters do, the last of the text.
fn push_row(file: &mut OpenFile<'_>, letters: &[u8]) -> Result<(), OutOfMemory>
    ensures { OnOk result (open_lists file.new
        ≡ with_row (open_lists file.old) (length (open_lists file.old).text - length letters.now)) }
{
    let place = file.text().len().saturating_sub(letters.len());
    file.add_row(place)
}

/// Appends rows of this width of the table that comes. Their letters are the first of these, the last of the text; the
/// result is what stands behind them.
fn push_rows<'t>(
    file: &mut OpenFile<'_>,
    width: usize,
    rows: &[Row],
    letters: &'t [u8],
) -> Result<&'t [u8], OutOfMemory>
    requires none { (open_lists file.old).rows ≡ [] }
    requires width { All (λ row. length row ≡ width) rows.now }
    requires letters { IsFrontOf (rows_letters rows.now) letters.now }
    requires there { IsRestOf (open_lists file.old).text letters.now }
    ensures rows { OnOk result (HasRows (open_lists file.old) (open_lists file.new) width rows.now) }
    ensures left { IfOk result (λ left. letters.now ≡ rows_letters rows.now ++ left.now) }
{
    let mut left = letters;
    for index in 0..rows.len() {
        push_row(file, left)?;
        left = from_place(left, width);
    }
    Ok(left)
}

/// Appends a table. No words or rows wait for a part. The letters of its rows are the first of these, the last of the
/// text; the result is what stands behind them. The one error is out of memory.
pub fn push_table<'t>(
    file: &mut OpenFile<'t>,
    table: &'t Table,
    letters: &'t [u8],
) -> Result<&'t [u8], OutOfMemory>
    requires words { (open_lists file.old).words ≡ [] }
    requires rows { (open_lists file.old).rows ≡ [] }
    requires good { IsGoodTable table.now }
    requires letters { IsFrontOf (rows_letters table.now.rows) letters.now }
    requires there { IsRestOf (open_lists file.old).text letters.now }
    ensures lists { OnOk result (open_lists file.new ≡ with_parts (open_lists file.old) (TablePart table.now ∷ [])) }
    ensures left { IfOk result (λ left. letters.now ≡ rows_letters table.now.rows ++ left.now) }
{
    let line = table_line(table)?;
    let inputs = inputs_of(table);
    push_words(file, inputs)?;
    file.add_word(output_of(table))?;
    let left = push_rows(file, inputs.len(), rows_of(table), letters)?;
    file.add_part(kind_of(table), line)?;
    Ok(left)
}

fn table_line(table: &Table) -> Result<u32, OutOfMemory>
    ensures { IfOk result (λ line. line ≡ table.now.line) }
{
    as_u32(table.line as usize)
}

fn inputs_of(table: &Table) -> &[Name]
    ensures { result.now ≡ table.now.inputs }
{
    table.inputs.as_slice()
}

fn output_of(table: &Table) -> &[u8]
    ensures { result.now ≡ table.now.output }
{
    table.output.as_bytes()
}

fn rows_of(table: &Table) -> &[Row]
    ensures { result.now ≡ table.now.rows }
{
    table.rows.as_slice()
}

fn kind_of(table: &Table) -> PartKind
    ensures { result ≡ at.Table table.now.on }
{
    PartKind::Table { on: table.on }
}

/// Appends a latch. No words or rows wait for a part. The one error is out of memory.
pub fn push_latch<'t>(file: &mut OpenFile<'t>, latch: &'t Latch) -> Result<(), OutOfMemory>
    requires words { (open_lists file.old).words ≡ [] }
    requires rows { (open_lists file.old).rows ≡ [] }
    ensures { OnOk result (open_lists file.new ≡ with_parts (open_lists file.old) (LatchPart latch.now ∷ [])) }
{
    let line = as_u32(latch.line as usize)?;
    let kind = latch_kind(latch);
    file.add_word(latch.input.as_bytes())?;
    file.add_word(latch.output.as_bytes())?;
    push_signal(file, &latch.control)?;
    file.add_part(kind, line)
}

fn latch_kind(latch: &Latch) -> PartKind
    ensures { result ≡ at.Latch (edge_of latch.now.control) latch.now.init }
{
    PartKind::Latch {
        edge: edge_of(&latch.control),
        init: latch.init,
    }
}

fn edge_of(control: &Option<Control>) -> Option<Edge2>
    ensures { result ≡ edge_of control.now }
{
    match control {
        Some(control) => Some(control.edge),
        None => None,
    }
}

/// Appends the signal of a control, if it has one.
fn push_signal<'t>(file: &mut OpenFile<'t>, control: &'t Option<Control>) -> Result<(), OutOfMemory>
    ensures { OnOk result (open_lists file.new ≡ with_words (open_lists file.old) (signal_words control.now)) }
{
    match signal_of(control) {
        Some(signal) => file.add_word(signal),
        None => Ok(()),
    }
}

fn signal_of(control: &Option<Control>) -> Option<&[u8]>
    ensures { option_to_list (option_map (λ w. w.now) result) ≡ signal_words control.now }
{
    match control {
        Some(control) => match &control.signal {
            Some(signal) => Some(signal.as_bytes()),
            None => None,
        },
        None => None,
    }
}

/// Appends an instance. No words or rows wait for a part. The one error is out of memory.
pub fn push_instance<'t>(file: &mut OpenFile<'t>, instance: &'t Instance) -> Result<(), OutOfMemory>
    requires words { (open_lists file.old).words ≡ [] }
    requires rows { (open_lists file.old).rows ≡ [] }
    ensures { OnOk result (open_lists file.new ≡ with_parts (open_lists file.old) (InstancePart instance.now ∷ [])) }
{
    let line = instance_line(instance)?;
    file.add_word(unit_of(instance))?;
    push_bindings(file, bindings_of(instance))?;
    file.add_part(PartKind::Instance, line)
}

fn instance_line(instance: &Instance) -> Result<u32, OutOfMemory>
    ensures { IfOk result (λ line. line ≡ instance.now.line) }
{
    as_u32(instance.line as usize)
}

fn unit_of(instance: &Instance) -> &[u8]
    ensures { result.now ≡ instance.now.unit }
{
    instance.unit.as_bytes()
}

fn bindings_of(instance: &Instance) -> &[Binding]
    ensures { result.now ≡ instance.now.bindings }
{
    instance.bindings.as_slice()
}

fn push_bindings<'t>(file: &mut OpenFile<'t>, bindings: &'t [Binding]) -> Result<(), OutOfMemory>
    ensures { OnOk result (open_lists file.new ≡ with_words (open_lists file.old) (pair_words bindings.now)) }
{
    for index in 0..bindings.len() {
        push_pair(file, binding_at(bindings, index))?;
    }
    Ok(())
}

fn binding_at(bindings: &[Binding], index: usize) -> &Binding
    requires { index < length bindings.now }
    ensures { slice_get bindings.now index ≡ Some result.now }
{
    &bindings[index]
}

/// Appends the words of a binding.
fn push_pair<'t>(file: &mut OpenFile<'t>, binding: &'t Binding) -> Result<(), OutOfMemory>
    ensures { OnOk result (open_lists file.new
        ≡ with_words (open_lists file.old) (binding.now.formal ∷ binding.now.actual ∷ [])) }
{
    file.add_word(binding.formal.as_bytes())?;
    file.add_word(binding.actual.as_bytes())
}

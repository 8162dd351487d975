//! A file with names of its own, out of a file by numbers.
ghost use Rattle.std.specs.Prelude.{◌≡◌, ◌<◌, [], IfOk, OnOk, Some, length, map, slice_get, slice_index_or};
ghost use Rattle.blif_ast.specs.Models.{row_at, row_letter};
ghost use Rattle.file_copies.specs.Copied.{model_with_all, model_with_part};
ghost use Rattle.numbered_file.specs.Numbered.{
  between,
  bindings_by,
  file_of,
  instance_by,
  latch_by,
  model_by,
  name_of,
  named,
  part_by,
  parts_of,
  table_by,
};

use blif_ast::{
    Binding, BlifFile, BlifModel, Control, Edge2, InputNames, Instance, Latch, Letter, Letters,
    Row, Rows, Table,
};
use dom_base::{Name, OutOfMemory};
use numbered_file::{
    Ends, ModelAt, Names, NumberedFile, PartAt, PartKind, between, ends_of, from_place,
    items_before,
};
use std::alloc::{AllocError, Global};

/// The file that a file by numbers stands for. The one error is out of memory.
pub fn to_file(alloc: Global, file: &NumberedFile<'_>) -> Result<BlifFile, OutOfMemory>
    ensures { IfOk result (λ copy. copy ≡ file_of file.now) }
{
    let all = file.models();
    let mut models = Vec::with_capacity(alloc, all.len())?;
    let mut starts = Starts {
        inputs: 0,
        outputs: 0,
        parts: 0,
    };
    for index in 0..all.len() {
        let at = model_at(all, index);
        let model = model_by(alloc, file, starts, at)?;
        models.push(model)?;
        starts = Starts {
            inputs: at.inputs_end,
            outputs: at.outputs_end,
            parts: at.parts_end,
        };
    }
    Ok(BlifFile { models })
}

fn model_at(models: &[ModelAt], index: usize) -> ModelAt
    requires { index < length models.now }
    ensures { slice_get models.now index ≡ Some result }
{
    models[index]
}

fn part_at(parts: &[PartAt], index: usize) -> PartAt
    requires { index < length parts.now }
    ensures { slice_get parts.now index ≡ Some result }
{
    parts[index]
}

/// Where the inputs, outputs and parts of a model begin in the lists of the file.
#[derive(Clone, Copy, Debug)]
struct Starts {
    inputs: u32,
    outputs: u32,
    parts: u32,
}

/// The model whose inputs, outputs and parts begin at these places.
fn model_by(
    alloc: Global,
    file: &NumberedFile<'_>,
    starts: Starts,
    at: ModelAt,
) -> Result<BlifModel, OutOfMemory>
    ensures { IfOk result (λ model. model ≡ model_by (name_of file.now.names at.name) at.line
        (between starts.inputs at.inputs_end (named file.now.names file.now.inputs))
        (between starts.outputs at.outputs_end (named file.now.names file.now.outputs))
        (between starts.parts at.parts_end (parts_of file.now))) }
{
    let mut model = empty_model(alloc, file, starts, at)?;
    push_parts(alloc, file, &mut model, starts.parts, at.parts_end)?;
    Ok(model)
}

/// The same without its parts.
fn empty_model(
    alloc: Global,
    file: &NumberedFile<'_>,
    starts: Starts,
    at: ModelAt,
) -> Result<BlifModel, OutOfMemory>
    ensures { IfOk result (λ model. model ≡ model_by (name_of file.now.names at.name) at.line
        (between starts.inputs at.inputs_end (named file.now.names file.now.inputs))
        (between starts.outputs at.outputs_end (named file.now.names file.now.outputs)) []) }
{
    let names = file.names();
    Ok(BlifModel {
        name: name_at(alloc, names, at.name)?,
        inputs: names_between(alloc, names, file.inputs(), starts.inputs, at.inputs_end)?,
        outputs: names_between(alloc, names, file.outputs(), starts.outputs, at.outputs_end)?,
        tables: Vec::new(alloc),
        latches: Vec::new(alloc),
        instances: Vec::new(alloc),
        line: u64::from(at.line),
    })
}

fn names_between(
    alloc: Global,
    names: &Names<'_>,
    numbers: &[u32],
    start: u32,
    end: u32,
) -> Result<Vec<Name>, OutOfMemory>
    ensures { IfOk result (λ v. v.items ≡ between start end (named names.now numbers.now)) }
{
    names_at(alloc, names, between(numbers, start, end))
}

/// Appends the parts from one place up to another to those of a model.
fn push_parts(
    alloc: Global,
    file: &NumberedFile<'_>,
    model: &mut BlifModel,
    start: u32,
    end: u32,
) -> Result<(), OutOfMemory>
    ensures { OnOk result (model.new ≡ model_with_all model.old (between start end (parts_of file.now))) }
{
    let all = file.parts();
    let parts = between(all, start, end);
    let mut before = ends_of(items_before(all, start as usize));
    for index in 0..parts.len() {
        let part = part_at(parts, index);
        copy_part(alloc, file, model, before, part)?;
        before = Ends {
            words: part.words_end,
            rows: part.rows_end,
        };
    }
    Ok(())
}

/// Appends a part whose words and rows begin at these places.
fn copy_part(
    alloc: Global,
    file: &NumberedFile<'_>,
    model: &mut BlifModel,
    before: Ends,
    part: PartAt,
) -> Result<(), OutOfMemory>
    ensures { OnOk result (model.new ≡ model_with_part model.old (part_by file.now.text part.kind part.line
        (between before.words part.words_end (named file.now.names file.now.words)) (between before.rows part.rows_end file.now.rows))) }
{
    let words = between(file.words(), before.words, part.words_end);
    let rows = between(file.rows(), before.rows, part.rows_end);
    push_part(alloc, file.text(), file.names(), model, part, words, rows)
}

/// Appends a part to those of a model.
fn push_part(
    alloc: Global,
    text: &[u8],
    names: &Names<'_>,
    model: &mut BlifModel,
    part: PartAt,
    words: &[u32],
    rows: &[u32],
) -> Result<(), OutOfMemory>
    ensures { OnOk result (model.new
        ≡ model_with_part model.old (part_by text.now part.kind part.line (named names.now words.now) rows.now)) }
{
    match part.kind {
        PartKind::Table { on } => {
            let table = table_by(alloc, text, names, on, part.line, words, rows)?;
            model.tables.push(table)?;
        }
        PartKind::Latch { edge, init } => {
            let latch = latch_by(alloc, names, edge, init, part.line, words)?;
            model.latches.push(latch)?;
        }
        PartKind::Instance => {
            let instance = instance_by(alloc, names, part.line, words)?;
            model.instances.push(instance)?;
        }
    }
    Ok(())
}

fn table_by(
    alloc: Global,
    text: &[u8],
    names: &Names<'_>,
    on: bool,
    line: u32,
    words: &[u32],
    rows: &[u32],
) -> Result<Table, OutOfMemory>
    ensures { IfOk result (λ table. table ≡ table_by text.now on line (named names.now words.now) rows.now) }
{
    let width = words.len().saturating_sub(1);
    let (inputs, output) = match words {
        [inputs @ .., output] => (inputs, name_at(alloc, names, *output)?),
        [] => (words, Name::from_bytes(alloc, &[])?),
    };
    Ok(Table {
        inputs: input_names(alloc, names, inputs)?,
        output,
        on,
        rows: rows_at(alloc, text, width, rows)?,
        line: u64::from(line),
    })
}

fn input_names(alloc: Global, names: &Names<'_>, numbers: &[u32]) -> Result<InputNames, OutOfMemory>
    ensures { IfOk result (λ inputs. inputs.items ≡ named names.now numbers.now) }
{
    let mut inputs = InputNames::with_capacity(alloc, numbers.len())?;
    for number in numbers {
        inputs.push(name_at(alloc, names, *number)?)?;
    }
    Ok(inputs)
}

/// The rows of a table with so many inputs that begin at these places of the text. The one error is out of memory.
fn rows_at(alloc: Global, text: &[u8], width: usize, places: &[u32]) -> Result<Rows, OutOfMemory>
    ensures { IfOk result (λ rows. rows.items ≡ map (row_at text.now width) places.now) }
{
    let mut rows = Rows::with_capacity(alloc, places.len())?;
    for place in places {
        let bytes = from_place(text, *place as usize);
        let letters = letters_of(alloc, &bytes[..bytes.len().min(width)])?;
        rows.push(Row { letters })?;
    }
    Ok(rows)
}

fn letters_of(alloc: Global, bytes: &[u8]) -> Result<Letters, AllocError>
    ensures { IfOk result (λ v. v.items ≡ map row_letter bytes.now) }
{
    let mut letters = Letters::with_capacity(alloc, bytes.len())?;
    for byte in bytes {
        letters.push(Letter::from_byte(*byte))?;
    }
    Ok(letters)
}

fn latch_by(
    alloc: Global,
    names: &Names<'_>,
    edge: Option<Edge2>,
    init: u8,
    line: u32,
    words: &[u32],
) -> Result<Latch, OutOfMemory>
    ensures { IfOk result (λ latch. latch ≡ latch_by edge init line (named names.now words.now)) }
{
    let control = match edge {
        Some(edge) => Some(Control {
            edge,
            signal: some_name(alloc, names, words, 2)?,
        }),
        None => None,
    };
    Ok(Latch {
        input: word_at(alloc, names, words, 0)?,
        output: word_at(alloc, names, words, 1)?,
        control,
        init,
        line: u64::from(line),
    })
}

fn instance_by(
    alloc: Global,
    names: &Names<'_>,
    line: u32,
    words: &[u32],
) -> Result<Instance, OutOfMemory>
    ensures { IfOk result (λ instance. instance ≡ instance_by line (named names.now words.now)) }
{
    let bindings = match words {
        [_, bindings @ ..] => bindings_by(alloc, names, bindings)?,
        [] => Vec::new(alloc),
    };
    Ok(Instance {
        unit: word_at(alloc, names, words, 0)?,
        bindings,
        line: u64::from(line),
    })
}

fn bindings_by(alloc: Global, names: &Names<'_>, words: &[u32]) -> Result<Vec<Binding>, OutOfMemory>
    ensures { IfOk result (λ v. v.items ≡ bindings_by (named names.now words.now)) }
{
    let mut bindings = Vec::with_capacity(alloc, words.len() / 2)?;
    let mut rest = words;
    'bindings: while let [formal, actual, more @ ..] = rest {
        bindings.push(Binding {
            formal: name_at(alloc, names, *formal)?,
            actual: name_at(alloc, names, *actual)?,
        })?;
        rest = more;
    }
    Ok(bindings)
}

/// The name of the word at this place, if there is one.
fn some_name(
    alloc: Global,
    names: &Names<'_>,
    words: &[u32],
    place: usize,
) -> Result<Option<Name>, OutOfMemory>
    ensures { IfOk result (λ name. name ≡ slice_get (named names.now words.now) place) }
{
    match words.get(place) {
        Some(number) => Ok(Some(name_at(alloc, names, *number)?)),
        None => Ok(None),
    }
}

/// The name of the word at this place, or an empty one.
fn word_at(
    alloc: Global,
    names: &Names<'_>,
    words: &[u32],
    place: usize,
) -> Result<Name, OutOfMemory>
    ensures { IfOk result (λ name. name ≡ slice_index_or (named names.now words.now) place []) }
{
    match words.get(place) {
        Some(number) => name_at(alloc, names, *number),
        None => Name::from_bytes(alloc, &[]),
    }
}

fn name_at(alloc: Global, names: &Names<'_>, number: u32) -> Result<Name, OutOfMemory>
    ensures { IfOk result (λ name. name ≡ name_of names.now number) }
{
    Name::from_bytes(alloc, names.name(number))
}

fn names_at(alloc: Global, names: &Names<'_>, numbers: &[u32]) -> Result<Vec<Name>, OutOfMemory>
    ensures { IfOk result (λ v. v.items ≡ named names.now numbers.now) }
{
    let mut all = Vec::with_capacity(alloc, numbers.len())?;
    for number in numbers {
        all.push(name_at(alloc, names, *number)?)?;
    }
    Ok(all)
}

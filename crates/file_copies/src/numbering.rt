//! A file by numbers, out of a file with names of its own.
ghost use Rattle.std.specs.Prelude.{◌≡◌, ℕ, List, ◌++◌, All, IfOk, OnOk, length};
ghost use Rattle.blif_ast.specs.Good.{IsGoodFile, IsGoodModel};
ghost use Rattle.file_copies.specs.FileLetters.{file_letters, models_letters, tables_letters};
ghost use Rattle.numbered_file.specs.Numbered.{file_of};
ghost use Rattle.numbered_file.specs.OpenLists.{no_lists, open_lists, with_model, IsClosed};
ghost use Rattle.blif_lines.specs.TextPlaces.{IsFrontOf, IsRestOf};
ghost use Rattle.numbered_file.specs.Places.{first_part};
ghost use Rattle.file_copies.specs.Pushing.{model_added};

use crate::keyed_hash::hash_of_names;
use crate::model_parts::{Rest, push_parts};
use crate::part_words::{push_inputs, push_outputs};
use blif_ast::{BlifFile, BlifModel};
use dom_base::{Name, NameHash, OutOfMemory};
use numbered_file::{NumberedFile, OpenFile, as_u32};
use std::alloc::Global;

/// The file by numbers that stands for a good file. Its names are lent from the file, and its text is what `bytes_of` makes
/// of the file. No part stands behind the last model, and those of a model stand in the order of their lines. The one error is out of memory, which is also
/// answered where a line or a count needs more than 32 bits.
pub fn number_file<'t>(
    alloc: Global,
    file: &'t BlifFile,
    bytes: &'t [u8],
) -> Result<NumberedFile<'t>, OutOfMemory>
    requires good { IsGoodFile file.now }
    requires bytes { bytes.now ≡ file_letters file.now }
    ensures file { IfOk result (λ numbered. file_of numbered ≡ file.now) }
    ensures closed { IfOk result (λ numbered. first_part numbered (length numbered.models) ≡ length numbered.parts) }
{
    let mut are_crowded = false;
    let numbered = number_by(alloc, file, bytes, NameHash::known(), &mut are_crowded);
    if !are_crowded {
        return numbered;
    }
    let hash = hash_of_names(alloc, &file.models)?;
    number_by(alloc, file, bytes, hash, &mut are_crowded)
}

/// The same, where names are hashed so. An error may also say that names are crowded: then `are_crowded` says so.
fn number_by<'t>(
    alloc: Global,
    file: &'t BlifFile,
    bytes: &'t [u8],
    hash: NameHash,
    are_crowded: &mut bool,
) -> Result<NumberedFile<'t>, OutOfMemory>
    requires good { IsGoodFile file.now }
    requires bytes { bytes.now ≡ file_letters file.now }
    ensures file { IfOk result (λ numbered. file_of numbered ≡ file.now) }
    ensures closed { IfOk result (λ numbered. first_part numbered (length numbered.models) ≡ length numbered.parts) }
{
    let mut numbered = OpenFile::new(alloc, bytes, hash);
    let pushed = push_models(&mut numbered, &file.models, bytes);
    *are_crowded = numbered.are_crowded();
    pushed?;
    let numbered = numbered.close();
    numbered.is_in_order();
    Ok(numbered)
}

/// Appends models to a file without models. The letters of their rows are the text.
fn push_models<'t>(
    file: &mut OpenFile<'t>,
    models: &'t [BlifModel],
    letters: &'t [u8],
) -> Result<(), OutOfMemory>
    requires new { open_lists file.old ≡ no_lists letters.now }
    requires good { All IsGoodModel models.now }
    requires letters { letters.now ≡ models_letters models.now }
    ensures models { OnOk result ((open_lists file.new).models ≡ models.now) }
    ensures closed { OnOk result (IsClosed (open_lists file.new)) }
{
    let mut rest = models;
    let mut left = letters;
    'models: while let [model, more @ ..] = rest {
        left = push_model(file, model, left)?;
        rest = more;
    }
    Ok(())
}

/// Appends a model to a file whose last model is closed. The letters of its rows are the first of these, the last of the
/// text; the result is what stands behind them.
fn push_model<'t>(
    file: &mut OpenFile<'t>,
    model: &'t BlifModel,
    letters: &'t [u8],
) -> Result<&'t [u8], OutOfMemory>
    requires closed { IsClosed (open_lists file.old) }
    requires good { IsGoodModel model.now }
    requires letters { IsFrontOf (tables_letters model.now.tables) letters.now }
    requires there { IsRestOf (open_lists file.old).text letters.now }
    ensures lists { OnOk result (open_lists file.new ≡ model_added (open_lists file.old) model.now) }
    ensures left { IfOk result (λ left. (more : List ℕ) → letters.now ≡ tables_letters model.now.tables ++ more → left.now ≡ more) }
    ensures there { IfOk result (λ left. IsRestOf (open_lists file.old).text left.now) }
{
    let line = model_line(model)?;
    push_inputs(file, inputs_of(model))?;
    push_outputs(file, outputs_of(model))?;
    let left = push_parts(file, rest_of(model), letters)?;
    close_model(file, name_of(model), line)?;
    Ok(left)
}

/// Appends a model of this name, whose inputs, outputs and parts are there.
fn close_model<'t>(file: &mut OpenFile<'t>, name: &'t [u8], line: u32) -> Result<(), OutOfMemory>
    ensures { OnOk result (open_lists file.new ≡ with_model (open_lists file.old) name.now line) }
{
    let number = file.number(name)?;
    file.add_model(number, line)
}

fn model_line(model: &BlifModel) -> Result<u32, OutOfMemory>
    ensures { IfOk result (λ line. line ≡ model.now.line) }
{
    as_u32(model.line as usize)
}

fn name_of(model: &BlifModel) -> &[u8]
    ensures { result.now ≡ model.now.name }
{
    model.name.as_bytes()
}

fn inputs_of(model: &BlifModel) -> &[Name]
    ensures { result.now ≡ model.now.inputs }
{
    model.inputs.as_slice()
}

fn outputs_of(model: &BlifModel) -> &[Name]
    ensures { result.now ≡ model.now.outputs }
{
    model.outputs.as_slice()
}

/// All parts of a model.
fn rest_of(model: &BlifModel) -> Rest<'_>
    ensures tables { result.tables.now ≡ model.now.tables }
    ensures latches { result.latches.now ≡ model.now.latches }
    ensures instances { result.instances.now ≡ model.now.instances }
{
    Rest {
        tables: model.tables.as_slice(),
        latches: model.latches.as_slice(),
        instances: model.instances.as_slice(),
    }
}

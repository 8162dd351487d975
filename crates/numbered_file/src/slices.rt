//! Where the lists of a part and of a model stand in the lists of a file by numbers.
ghost use Rattle.std.specs.Prelude.{◌≡◌, ◌+◌, drop, take};
ghost use Rattle.numbered_file.specs.Numbered.{between};
ghost use Rattle.numbered_file.specs.OpenLists.{
  inputs_end,
  outputs_end,
  parts_end,
  rows_end,
  words_end,
};
ghost use Rattle.numbered_file.specs.Places.{
  first_input,
  first_output,
  first_part,
  first_row,
  first_word,
  inputs_at,
  of_inputs,
  of_outputs,
  of_part,
  outputs_at,
  rows_at,
  words_at,
};

use crate::file::NumberedFile;
use crate::parts::{ModelAt, PartAt};

/// Where the words and rows of parts end in the lists of the file.
#[derive(Clone, Copy, Debug)]
pub struct Ends {
    pub words: u32,
    pub rows: u32,
}

/// Where the inputs, outputs and parts of models end in the lists of the file.
#[derive(Clone, Copy, Debug)]
pub struct ModelEnds {
    pub inputs: u32,
    pub outputs: u32,
    pub parts: u32,
}

impl<'t> NumberedFile<'t> {
    /// Where the words of the part at a place begin, among the words of all parts.
    pub fn first_word(&self, part: usize) -> usize
        ensures { result ≡ first_word self.now part }
    {
        ends_of(items_before(self.parts(), part)).words as usize
    }

    /// Of items for the words of all parts, those for the part at a place. None where there is no such part.
    pub fn of_part<'a, T>(&self, items: &'a [T], part: usize) -> &'a [T]
        ensures { result.now ≡ of_part self.now part items.now }
    {
        let start = ends_of(items_before(self.parts(), part));
        let end = ends_of(items_through(self.parts(), part));
        between(items, start.words, end.words)
    }

    /// The words of the part at a place, by the numbers of their names. None where there is no such part.
    pub fn words_of(&self, part: usize) -> &[u32]
        ensures { result.now ≡ words_at self.now part }
    {
        self.of_part(self.words(), part)
    }

    /// Where the rows of the part at a place begin, among the rows of all parts.
    pub fn first_row(&self, part: usize) -> usize
        ensures { result ≡ first_row self.now part }
    {
        ends_of(items_before(self.parts(), part)).rows as usize
    }

    /// The places of the text at which the rows of the part at a place begin. None where there is no such part.
    pub fn rows_of(&self, part: usize) -> &[u32]
        ensures { result.now ≡ rows_at self.now part }
    {
        let start = ends_of(items_before(self.parts(), part));
        let end = ends_of(items_through(self.parts(), part));
        between(self.rows(), start.rows, end.rows)
    }

    /// Where the inputs of a model begin, among those of all models.
    pub fn first_input(&self, model: usize) -> usize
        ensures { result ≡ first_input self.now model }
    {
        model_ends_of(items_before(self.models(), model)).inputs as usize
    }

    /// Of items for the inputs of all models, those for one model. None where there is no such model.
    pub fn of_inputs<'a, T>(&self, items: &'a [T], model: usize) -> &'a [T]
        ensures { result.now ≡ of_inputs self.now model items.now }
    {
        let start = model_ends_of(items_before(self.models(), model));
        let end = model_ends_of(items_through(self.models(), model));
        between(items, start.inputs, end.inputs)
    }

    /// The inputs of a model, by the numbers of their names. None where there is no such model.
    pub fn inputs_of(&self, model: usize) -> &[u32]
        ensures { result.now ≡ inputs_at self.now model }
    {
        self.of_inputs(self.inputs(), model)
    }

    /// Where the outputs of a model begin, among those of all models.
    pub fn first_output(&self, model: usize) -> usize
        ensures { result ≡ first_output self.now model }
    {
        model_ends_of(items_before(self.models(), model)).outputs as usize
    }

    /// Of items for the outputs of all models, those for one model. None where there is no such model.
    pub fn of_outputs<'a, T>(&self, items: &'a [T], model: usize) -> &'a [T]
        ensures { result.now ≡ of_outputs self.now model items.now }
    {
        let start = model_ends_of(items_before(self.models(), model));
        let end = model_ends_of(items_through(self.models(), model));
        between(items, start.outputs, end.outputs)
    }

    /// The outputs of a model, by the numbers of their names. None where there is no such model.
    pub fn outputs_of(&self, model: usize) -> &[u32]
        ensures { result.now ≡ outputs_at self.now model }
    {
        self.of_outputs(self.outputs(), model)
    }

    /// Where the parts of a model begin, among those of all models. They end where those of the next model begin.
    pub fn first_part(&self, model: usize) -> usize
        ensures { result ≡ first_part self.now model }
    {
        model_ends_of(items_before(self.models(), model)).parts as usize
    }
}

/// Where the words and rows of these parts end, which are the first of a file.
pub fn ends_of(parts: &[PartAt]) -> Ends
    ensures words { result.words ≡ words_end 0 parts.now }
    ensures rows { result.rows ≡ rows_end 0 parts.now }
{
    match parts {
        [.., last] => Ends {
            words: last.words_end,
            rows: last.rows_end,
        },
        [] => Ends { words: 0, rows: 0 },
    }
}

/// Where the inputs, outputs and parts of these models end, which are the first of a file.
fn model_ends_of(models: &[ModelAt]) -> ModelEnds
    ensures inputs { result.inputs ≡ inputs_end 0 models.now }
    ensures outputs { result.outputs ≡ outputs_end 0 models.now }
    ensures parts { result.parts ≡ parts_end 0 models.now }
{
    match models {
        [.., last] => ModelEnds {
            inputs: last.inputs_end,
            outputs: last.outputs_end,
            parts: last.parts_end,
        },
        [] => ModelEnds {
            inputs: 0,
            outputs: 0,
            parts: 0,
        },
    }
}

/// The items before a place.
pub fn items_before<T>(items: &[T], place: usize) -> &[T]
    ensures { result.now ≡ take place items.now }
{
    &items[..items.len().min(place)]
}

/// The items up to the one at a place.
fn items_through<T>(items: &[T], place: usize) -> &[T]
    ensures { result.now ≡ take (place + 1) items.now }
{
    if place < items.len() {
        return &items[..place + 1];
    }
    items
}

/// The items from one place up to another.
pub fn between<T>(items: &[T], start: u32, end: u32) -> &[T]
    ensures { result.now ≡ between start end items.now }
{
    let rest = from_place(items, start as usize);
    &rest[..rest.len().min(end.saturating_sub(start) as usize)]
}

/// The items from a place on, if there are any.
pub fn from_place<T>(items: &[T], start: usize) -> &[T]
    ensures { result.now ≡ drop start items.now }
{
    match items.get(start..) {
        Some(rest) => rest,
        None => &items[items.len()..],
    }
}

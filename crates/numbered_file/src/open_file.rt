//! A file of BLIF by numbers, as long as more may come.
ghost use Rattle.std.specs.Prelude.{◌≡◌, ◌≢◌, ◌<◌, ◌∷◌, [], IfOk, IsFalse, IsTrue, OnOk, Some, length, slice_get};
ghost use Rattle.numbered_file.specs.NameNumbers.{AddsAtMost, Grows};
ghost use Rattle.numbered_file.specs.Numbered.{IsNumbered, name_of};
ghost use Rattle.numbered_file.specs.OpenLists.{
  no_lists,
  open_lists,
  with_inputs,
  with_model,
  with_outputs,
  with_part,
  with_row,
  with_words,
};

use crate::file::NumberedFile;
use crate::lists::Lists;
use crate::name_table::{NameTable, as_u32};
use crate::parts::{ModelAt, PartAt, PartKind};
use dom_base::{NameHash, OutOfMemory};
use std::alloc::Global;
use std::marker::Model;

/// A file of BLIF by numbers that is read: its names, which are found by their letters, and its lists.
#[derive(Drop)]
pub struct OpenFile<'t> {
    names: NameTable<'t>,
    lists: Lists<'t>,
}

impl<'t> Model for OpenFile<'t> {
    ghost use Rattle.numbered_file.specs.NumberedData.{NumberedData};
    ghost use Rattle.numbered_file.specs.Numbered.{IsNumbered};

    ghost Value = { NumberedData };

    ghost view = { λ f. record {
      text = f.lists.text.now;
      names = f.names;
      inputs = f.lists.inputs.items;
      outputs = f.lists.outputs.items;
      words = f.lists.words.items;
      rows = f.lists.rows.items;
      parts = f.lists.parts.items;
      models = f.lists.models.items;
    } };

    ghost invariant = { λ f. IsNumbered (record {
      text = f.lists.text.now;
      names = f.names;
      inputs = f.lists.inputs.items;
      outputs = f.lists.outputs.items;
      words = f.lists.words.items;
      rows = f.lists.rows.items;
      parts = f.lists.parts.items;
      models = f.lists.models.items;
    }) };
}

impl<'t> OpenFile<'t> {
    /// A file without models, of this text, whose names are to be hashed so.
    pub fn new(alloc: Global, text: &'t [u8], hash: NameHash) -> OpenFile<'t>
        ensures { open_lists result ≡ no_lists text.now }
    {
        OpenFile {
            names: NameTable::new(alloc, hash, text.len()),
            lists: Lists::new(alloc, text),
        }
    }

    /// The text that the file stands in.
    pub fn text(&self) -> &'t [u8]
        ensures { result.now ≡ self.now.text }
    {
        self.lists.text
    }

    /// Whether there is no model.
    pub fn has_no_model(&self) -> bool
        ensures none { IsTrue result → (open_lists self.now).models ≡ [] }
        ensures some { IsFalse result → (open_lists self.now).models ≢ [] }
    {
        self.lists.models.as_slice().is_empty()
    }

    /// Whether so many names met that they are to be hashed with a key.
    pub fn are_crowded(&self) -> bool {
        self.names.are_crowded()
    }

    /// The file, once no more comes.
    pub fn close(self) -> NumberedFile<'t>
        ensures { result ≡ self.entry }
    {
        let _ = self.lists.models.len();
        let OpenFile { names, lists } = self;
        NumberedFile {
            names: names.into_names(),
            lists,
        }
    }

    /// The number of a name, which is added where it is new. The one error is out of memory, or names that are crowded.
    pub fn number(&mut self, name: &'t [u8]) -> Result<u32, OutOfMemory>
        ensures lists { open_lists self.new ≡ open_lists self.old }
        ensures grown { Grows self.old.names self.new.names }
        ensures one { AddsAtMost name.now self.old.names self.new.names }
        ensures number { IfOk result (λ number. slice_get self.new.names number ≡ Some name.now) }
    {
        self.names.number(name)
    }

    /// Appends an input of the model that comes. The one error is out of memory.
    pub fn add_input(&mut self, name: &'t [u8]) -> Result<(), OutOfMemory>
        ensures lists { OnOk result (open_lists self.new ≡ with_inputs (open_lists self.old) (name.now ∷ [])) }
        ensures grown { Grows self.old.names self.new.names }
        ensures one { AddsAtMost name.now self.old.names self.new.names }
    {
        let number = self.number(name)?;
        self.push_input(number)
    }

    fn push_input(&mut self, number: u32) -> Result<(), OutOfMemory>
        requires { number < length self.old.names }
        ensures lists { OnOk result (open_lists self.new ≡ with_inputs (open_lists self.old) (name_of self.old.names number ∷ [])) }
        ensures names { self.new.names ≡ self.old.names }
    {
        self.lists.inputs.push(number)?;
        Ok(())
    }

    /// Appends an output of the model that comes. The one error is out of memory.
    pub fn add_output(&mut self, name: &'t [u8]) -> Result<(), OutOfMemory>
        ensures lists { OnOk result (open_lists self.new ≡ with_outputs (open_lists self.old) (name.now ∷ [])) }
        ensures grown { Grows self.old.names self.new.names }
        ensures one { AddsAtMost name.now self.old.names self.new.names }
    {
        let number = self.number(name)?;
        self.push_output(number)
    }

    fn push_output(&mut self, number: u32) -> Result<(), OutOfMemory>
        requires { number < length self.old.names }
        ensures lists { OnOk result (open_lists self.new ≡ with_outputs (open_lists self.old) (name_of self.old.names number ∷ [])) }
        ensures names { self.new.names ≡ self.old.names }
    {
        self.lists.outputs.push(number)?;
        Ok(())
    }

    /// Appends a word of the part that comes. The one error is out of memory.
    pub fn add_word(&mut self, name: &'t [u8]) -> Result<(), OutOfMemory>
        ensures lists { OnOk result (open_lists self.new ≡ with_words (open_lists self.old) (name.now ∷ [])) }
        ensures grown { Grows self.old.names self.new.names }
        ensures one { AddsAtMost name.now self.old.names self.new.names }
    {
        let number = self.number(name)?;
        self.push_word(number)
    }

    fn push_word(&mut self, number: u32) -> Result<(), OutOfMemory>
        requires { number < length self.old.names }
        ensures lists { OnOk result (open_lists self.new ≡ with_words (open_lists self.old) (name_of self.old.names number ∷ [])) }
        ensures names { self.new.names ≡ self.old.names }
    {
        self.lists.words.push(number)?;
        Ok(())
    }

    /// Appends a row of the table that comes, which begins at this place. The one error is out of memory.
    pub fn add_row(&mut self, place: usize) -> Result<(), OutOfMemory>
        ensures lists { OnOk result (open_lists self.new ≡ with_row (open_lists self.old) place) }
        ensures names { self.new.names ≡ self.old.names }
    {
        let place = as_u32(place)?;
        self.push_row(place)
    }

    fn push_row(&mut self, place: u32) -> Result<(), OutOfMemory>
        ensures lists { OnOk result (open_lists self.new ≡ with_row (open_lists self.old) place) }
        ensures names { self.new.names ≡ self.old.names }
    {
        self.lists.rows.push(place)?;
        Ok(())
    }

    /// Appends a part of the model that comes, whose words and rows are there. The one error is out of memory.
    pub fn add_part(&mut self, kind: PartKind, line: u32) -> Result<(), OutOfMemory>
        ensures lists { OnOk result (open_lists self.new ≡ with_part (open_lists self.old) kind line) }
        ensures names { self.new.names ≡ self.old.names }
    {
        let words_end = as_u32(self.lists.words.len())?;
        let rows_end = as_u32(self.lists.rows.len())?;
        self.push_part(PartAt {
            kind,
            words_end,
            rows_end,
            line,
        })
    }

    fn push_part(&mut self, part: PartAt) -> Result<(), OutOfMemory>
        requires words { part.words_end ≡ length self.old.words }
        requires rows { part.rows_end ≡ length self.old.rows }
        ensures lists { OnOk result (open_lists self.new ≡ with_part (open_lists self.old) part.kind part.line) }
        ensures names { self.new.names ≡ self.old.names }
    {
        self.lists.parts.push(part)?;
        Ok(())
    }

    /// Appends a model, whose inputs, outputs and parts are there. The one error is out of memory.
    pub fn add_model(&mut self, name: u32, line: u32) -> Result<(), OutOfMemory>
        requires { name < length self.old.names }
        ensures lists { OnOk result (open_lists self.new ≡ with_model (open_lists self.old) (name_of self.old.names name) line) }
        ensures names { self.new.names ≡ self.old.names }
    {
        let inputs_end = as_u32(self.lists.inputs.len())?;
        let outputs_end = as_u32(self.lists.outputs.len())?;
        let parts_end = as_u32(self.lists.parts.len())?;
        self.push_model(ModelAt {
            name,
            line,
            inputs_end,
            outputs_end,
            parts_end,
        })
    }

    fn push_model(&mut self, model: ModelAt) -> Result<(), OutOfMemory>
        requires name { model.name < length self.old.names }
        requires inputs { model.inputs_end ≡ length self.old.inputs }
        requires outputs { model.outputs_end ≡ length self.old.outputs }
        requires parts { model.parts_end ≡ length self.old.parts }
        ensures lists { OnOk result (open_lists self.new
            ≡ with_model (open_lists self.old) (name_of self.old.names model.name) model.line) }
        ensures names { self.new.names ≡ self.old.names }
    {
        self.lists.models.push(model)?;
        Ok(())
    }
}

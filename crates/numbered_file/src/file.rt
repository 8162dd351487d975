//! A file of BLIF by numbers.
ghost use Rattle.std.specs.Prelude.{◌≡◌};
ghost use Rattle.numbered_file.specs.Numbered.{IsNumbered};

use crate::lists::Lists;
use crate::names::Names;
use crate::parts::{ModelAt, PartAt};
use std::marker::Model;

/// A file of BLIF by numbers, over the text that it stands in: its names, and its lists by the numbers of the names.
#[derive(Drop)]
pub struct NumberedFile<'t> {
    pub(crate) names: Names<'t>,
    pub(crate) lists: Lists<'t>,
}

impl<'t> Model for NumberedFile<'t> {
    ghost use Rattle.numbered_file.specs.NumberedData.{NumberedData};
    ghost use Rattle.numbered_file.specs.Numbered.{IsNumbered};

    ghost Value = { NumberedData };

    ghost view = { λ f. record {
      text = f.lists.text.now;
      names = f.names;
      inputs = f.lists.inputs.items;
      outputs = f.lists.outputs.items;
      words = f.lists.words.items;
      rows = f.lists.rows.items;
      parts = f.lists.parts.items;
      models = f.lists.models.items;
    } };

    ghost invariant = { λ f. IsNumbered (record {
      text = f.lists.text.now;
      names = f.names;
      inputs = f.lists.inputs.items;
      outputs = f.lists.outputs.items;
      words = f.lists.words.items;
      rows = f.lists.rows.items;
      parts = f.lists.parts.items;
      models = f.lists.models.items;
    }) };
}

impl<'t> NumberedFile<'t> {
    /// The text that the file stands in.
    pub fn text(&self) -> &'t [u8]
        ensures { result.now ≡ self.now.text }
    {
        self.lists.text
    }

    /// The names, each once, in the order in which they are first seen.
    pub fn names(&self) -> &Names<'t>
        ensures { result.now ≡ self.now.names }
    {
        &self.names
    }

    /// The inputs of all models, by the numbers of their names.
    pub fn inputs(&self) -> &[u32]
        ensures { result.now ≡ self.now.inputs }
    {
        self.lists.inputs.as_slice()
    }

    /// The outputs of all models, by the numbers of their names.
    pub fn outputs(&self) -> &[u32]
        ensures { result.now ≡ self.now.outputs }
    {
        self.lists.outputs.as_slice()
    }

    /// The words of all parts, by the numbers of their names.
    pub fn words(&self) -> &[u32]
        ensures { result.now ≡ self.now.words }
    {
        self.lists.words.as_slice()
    }

    /// The places of the text at which the rows of all tables begin.
    pub fn rows(&self) -> &[u32]
        ensures { result.now ≡ self.now.rows }
    {
        self.lists.rows.as_slice()
    }

    /// All parts, in the order of their cards.
    pub fn parts(&self) -> &[PartAt]
        ensures { result.now ≡ self.now.parts }
    {
        self.lists.parts.as_slice()
    }

    /// All models.
    pub fn models(&self) -> &[ModelAt]
        ensures { result.now ≡ self.now.models }
    {
        self.lists.models.as_slice()
    }

    /// Names differ, each number is that of a name, and parts and models stand one behind the other.
    pub fn is_in_order(&self)
        ensures { IsNumbered self.now }
    {
        let _ = self.lists.models.len();
    }
}

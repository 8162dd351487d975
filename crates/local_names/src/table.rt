//! The names of each model, and a place for each input, output and word.
ghost use Rattle.std.specs.Prelude.{◌≡◌, length};
ghost use Rattle.local_names.specs.LocalNames.{names_in};

use card_places::NumberLists;
use std::marker::Model;

/// The names of each model of a file by their numbers, each once; and for each input, output and word of the file's models a
/// place. An input, an output, each word of a table and of a latch, and an actual of an instance have their places among the names
/// of the model that they stand in, a formal among those of the instance's model. The first word of an instance, which is the name
/// of its model, has a place that says nothing.
#[derive(Drop)]
pub struct LocalNames {
    pub(crate) models: NumberLists,
    pub(crate) inputs: Vec<u32>,
    pub(crate) outputs: Vec<u32>,
    pub(crate) words: Vec<u32>,
}

impl Model for LocalNames {
    ghost use Rattle.local_names.specs.LocalNames.{LocalNamesData};

    ghost Value = { LocalNamesData };

    ghost view = { λ l. record {
      models = l.models.lists;
      inputs = l.inputs.items;
      outputs = l.outputs.items;
      words = l.words.items;
    } };
}

impl LocalNames {
    /// How many names a model has; none where there is no such model.
    pub fn count(&self, model: usize) -> usize
        ensures { result ≡ length (names_in self.now model) }
    {
        self.names(model).len()
    }

    /// The names of a model, by their numbers; none where there is no such model.
    pub fn names(&self, model: usize) -> &[u32]
        ensures { result.now ≡ names_in self.now model }
    {
        self.models.at(model)
    }

    /// The places of the inputs of all models.
    pub fn inputs(&self) -> &[u32]
        ensures { result.now ≡ self.now.inputs }
    {
        self.inputs.as_slice()
    }

    /// The places of the outputs of all models.
    pub fn outputs(&self) -> &[u32]
        ensures { result.now ≡ self.now.outputs }
    {
        self.outputs.as_slice()
    }

    /// The places of the words of all parts.
    pub fn words(&self) -> &[u32]
        ensures { result.now ≡ self.now.words }
    {
        self.words.as_slice()
    }
}

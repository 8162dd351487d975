//! The lists of a file of BLIF by numbers.
ghost use Rattle.std.specs.Prelude.{◌≡◌, []};

use crate::parts::{ModelAt, PartAt};
use std::alloc::Global;

/// The text that a file stands in; the inputs, the outputs and the words of the parts of all models, by the numbers of
/// the names; the places of the text at which the rows of all tables begin; all parts; all models.
#[derive(Drop)]
pub struct Lists<'t> {
    pub text: &'t [u8],
    pub inputs: Vec<u32>,
    pub outputs: Vec<u32>,
    pub words: Vec<u32>,
    pub rows: Vec<u32>,
    pub parts: Vec<PartAt>,
    pub models: Vec<ModelAt>,
}

impl<'t> Lists<'t> {
    /// No lists yet, of this text.
    pub fn new(alloc: Global, text: &'t [u8]) -> Lists<'t>
        ensures text { result.text.now ≡ text.now }
        ensures inputs { result.inputs.items ≡ [] }
        ensures outputs { result.outputs.items ≡ [] }
        ensures words { result.words.items ≡ [] }
        ensures rows { result.rows.items ≡ [] }
        ensures parts { result.parts.items ≡ [] }
        ensures models { result.models.items ≡ [] }
    {
        Lists {
            text,
            inputs: Vec::new(alloc),
            outputs: Vec::new(alloc),
            words: Vec::new(alloc),
            rows: Vec::new(alloc),
            parts: Vec::new(alloc),
            models: Vec::new(alloc),
        }
    }
}

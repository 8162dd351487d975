//! Where the parts and models of a file stand in its lists.
use blif_ast::Edge2;

/// The kind of a part.
#[derive(Clone, Copy, Debug)]
pub enum PartKind {
    /// A table. Its words are its inputs and, last, its output; where `on` is true its rows end in 1.
    Table { on: bool },
    /// A latch with its start value. Its words are its input, its output and, where one controls it, that signal; it has
    /// an edge where a control or `NIL` is named.
    Latch { edge: Option<Edge2>, init: u8 },
    /// An instance. Its words are the name of its model and then, for each binding, the formal and the actual.
    Instance,
}

/// A table, latch or instance: where its words and its rows end in the lists of the file, where those of the next part
/// begin. `line` is the line of its card, from 1.
#[derive(Clone, Copy, Debug)]
pub struct PartAt {
    pub kind: PartKind,
    pub words_end: u32,
    pub rows_end: u32,
    pub line: u32,
}

/// A model by the number of its name: where its inputs, outputs and parts end in the lists of the file, where those of
/// the next model begin. `line` is the line of its card, from 1.
#[derive(Clone, Copy, Debug)]
pub struct ModelAt {
    pub name: u32,
    pub line: u32,
    pub inputs_end: u32,
    pub outputs_end: u32,
    pub parts_end: u32,
}

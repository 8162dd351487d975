//! Files by numbers: the expanded list of a file, with a number in place of each signal.
ghost use Rattle.std.specs.Prelude.{◌≡◌, map};

use network::Reads;
use std::marker::Model;

/// Which card of its model a part is: the index of its table or of its latch there.
#[derive(Clone, Copy)]
pub enum PartCard {
    Table(u32),
    Latch(u32),
}

/// A table or a latch at a path: the number of its model in the file and which card it is there, and
/// the numbers of the signals that it reads and drives. A latch whose card names a signal that
/// controls it has the number of that signal too.
#[derive(Drop)]
pub struct NumberedPart {
    pub reads: Reads,
    pub model: u32,
    pub card: PartCard,
    pub drives: u32,
    pub control: Option<u32>,
}

impl Model for NumberedPart {
    ghost use Rattle.part_numbers.specs.NumberedFiles.{NumberedPartData};

    ghost Value = { NumberedPartData };

    ghost view = { λ p. record { model = p.model; card = p.card; reads = p.reads.items; drives = p.drives; control = p.control } };
}

/// The expanded list of a file by the numbers of its signals: how many numbers there are, the names
/// of the main model, which have the first numbers, the parts in order, and the numbers of the
/// signals at the main model's inputs and outputs.
#[derive(Drop)]
pub struct NumberedFile<'a> {
    pub signals: u32,
    pub names: Vec<&'a [u8]>,
    pub parts: Vec<NumberedPart>,
    pub inputs: Vec<u32>,
    pub outputs: Vec<u32>,
}

impl<'a> Model for NumberedFile<'a> {
    ghost use Rattle.std.specs.Prelude.{map};
    ghost use Rattle.part_numbers.specs.NumberedFiles.{NumberedFileData};

    ghost Value = { NumberedFileData };

    ghost view = { λ n. record { signals = n.signals; names = map (λ k. k.now) n.names.items; parts = n.parts.items; inputs = n.inputs.items; outputs = n.outputs.items } };
}

impl<'a> NumberedFile<'a> {
    /// The tables and latches in order.
    pub fn parts(&self) -> &[NumberedPart]
        ensures { result.now ≡ self.now.parts }
    {
        self.parts.as_slice()
    }

    /// The numbers of the signals at the main model's inputs.
    pub fn inputs(&self) -> &[u32]
        ensures { result.now ≡ self.now.inputs }
    {
        self.inputs.as_slice()
    }

    /// The numbers of the signals at the main model's outputs.
    pub fn outputs(&self) -> &[u32]
        ensures { result.now ≡ self.now.outputs }
    {
        self.outputs.as_slice()
    }

    /// The names of the main model, which have the first numbers.
    pub fn names(&self) -> &[&'a [u8]]
        ensures { map (λ k. k.now) result.now ≡ self.now.names }
    {
        self.names.as_slice()
    }
}

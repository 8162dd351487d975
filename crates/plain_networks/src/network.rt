//! Networks.

/// A table: the numbers of the signals at its inputs, whether its rows end in 1, and its rows, one letter
/// `0`, `1` or `-` per input in each.
#[derive(Drop)]
pub struct PlainTable {
    pub inputs: Vec<usize>,
    pub on: bool,
    pub rows: Vec<Vec<u8>>,
}

/// A latch: the number of the signal at its input, and its start value.
#[derive(Clone, Copy)]
pub struct PlainLatch {
    pub input: usize,
    pub init: bool,
}

/// A network. Its signals are numbered: the inputs first, then the outputs of the latches, then those of
/// the tables, each of which reads signals of smaller numbers.
#[derive(Drop)]
pub struct PlainNetwork {
    pub name: String,
    pub names: Vec<String>,
    pub inputs: usize,
    pub outputs: Vec<usize>,
    pub latches: Vec<PlainLatch>,
    pub tables: Vec<PlainTable>,
}

impl PlainNetwork {
    /// How many signals are inputs or outputs of latches.
    pub fn leaves(&self) -> usize {
        self.inputs.saturating_add(self.latches.len())
    }

    /// The number of the signal of a sink. The outputs come first, then the inputs of the latches.
    pub fn sink(&self, index: usize) -> usize {
        match self.outputs.get(index) {
            Some(signal) => *signal,
            None => match self.latches.get(index.saturating_sub(self.outputs.len())) {
                Some(latch) => latch.input,
                None => 0,
            },
        }
    }

    /// How many sinks there are.
    pub fn sinks(&self) -> usize {
        self.outputs.len().saturating_add(self.latches.len())
    }
}

//! What the program is asked for.
use deck_form::{DeckVersion, SynthOptions};
use trace_tool::{Clocking, Order, TraceOptions};

/// How a deck is made: of the chosen signs of its sinks and in a version of the text; of the signs that need the fewest
/// pairs of all and in version 1; of the chosen signs, for clocks that overlap and in version 1; or of the chosen signs,
/// with compound cells and in version 1.
#[derive(Clone, Copy)]
pub enum Method {
    Plain(DeckVersion),
    Exact,
    Skew,
    Compound,
}

/// What the words of the command line ask for, with the names of the files. A size is 1 to 30,000.
#[derive(Drop)]
pub enum Command<'a> {
    Synth {
        file: &'a str,
        options: SynthOptions,
        method: Method,
    },
    Flat {
        file: &'a str,
    },
    Run {
        file: &'a str,
        stim: &'a str,
    },
    Sim {
        deck: &'a str,
        stim: &'a str,
        options: TraceOptions,
        clocking: Clocking,
    },
    Cosim {
        file: &'a str,
        deck: &'a str,
        stim: &'a str,
        order: Order,
        seed: u64,
    },
    Report {
        file: &'a str,
        options: SynthOptions,
    },
    Bench {
        seed: u64,
        size: u32,
        options: SynthOptions,
    },
    Audit {
        deck: &'a str,
    },
}

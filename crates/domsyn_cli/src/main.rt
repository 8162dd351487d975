//! The program `domsyn`.
#![tactic(auto)]

use dom_io::{FileShelf, StreamSink};
use domsyn::top;
use std::env;
use std::process::ExitCode;

/// The status where the system doesn't give the words of the command line.
const NO_WORDS: u8 = 7;

fn main(rt: HostRuntime) -> ExitCode {
    let alloc = rt.alloc();
    let Ok(args) = env::args(&rt) else {
        return ExitCode::from(NO_WORDS);
    };
    let Ok(words) = args.skip(1).collect::<Vec<String>>(alloc) else {
        return ExitCode::from(NO_WORDS);
    };
    let mut out = StreamSink {
        stream: rt.stdout(),
        faults: 0,
    };
    let mut err = StreamSink {
        stream: rt.stderr(),
        faults: 0,
    };
    let mut shelf = FileShelf { rt, faults: 0 };
    ExitCode::from(top(alloc, words.as_slice(), &mut shelf, &mut out, &mut err))
}

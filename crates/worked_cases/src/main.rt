//! Runs the cases in the files that its words name, each a call of the program over files and sinks in memory, and prints
//! how many calls were right, and of the first that was not what differed.
#![tactic(auto)]

mod answer;
mod reader;
mod run;
mod sure;
mod text;

use run::Tally;
use std::process::ExitCode;
use std::{env, fs};
use sure::wrong_usage;

/// What came of the cases of each file that a word names, and of a call over a shelf and sinks that never fail.
fn run_all(rt: &HostRuntime) -> Option<Tally> {
    let alloc = rt.alloc();
    let mut tally = Tally::default();
    for name in env::args(rt).ok()?.skip(1) {
        let text = fs::read_to_string(rt, name.as_str()).ok()?;
        tally.run_file(alloc, name.as_str(), text.as_str())?;
    }
    tally.count(wrong_usage(alloc)?);
    Some(tally)
}

fn main(rt: HostRuntime) -> ExitCode {
    let Some(tally) = run_all(&rt) else {
        return ExitCode::from(2);
    };
    let (all, right) = (tally.all, tally.right);
    let printed = match &tally.wrong {
        None => println!(rt; "{all} calls, all right"),
        Some(wrong) => println!(rt; "{right} of {all} calls right, and not {wrong}"),
    };
    let done = printed.is_ok() && tally.wrong.is_none();
    ExitCode::from(if done { 0 } else { 1 })
}

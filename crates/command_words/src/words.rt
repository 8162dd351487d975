//! The words of the command line.
ghost use Rattle.std.specs.Prelude.{◌≡◌, IfOk, IsSome, MatchOption, None, OnErr, Some, map};
ghost use Rattle.std.specs.String.{string_bytes};
ghost use Rattle.command_words.specs.Asked.{asked_command};
ghost use Rattle.command_words.specs.Commands.{Asks, Command as Plain, command_for};
ghost use Rattle.command_words.specs.Commands.{audit_in, bench_in, cosim_in, flat_in, report_in, run_in, sim_in, synth_in};
ghost use Rattle.command_words.specs.Written.{written};

use crate::command::Command;
use crate::items::{one_plain, takes_all, three_plain, two_plain};
use crate::synth_options::{method_of, synth_options_of};
use crate::trace_options::{clocking_of, order_of, seed_of, trace_options_of};
use crate::values::number_from;
use dom_base::OutOfMemory;
use std::alloc::Global;

/// What the words ask for: the name of a command, then its files, with its options anywhere among them.
/// Memory is wanted for a command alone: words that ask for none are refused whatever there is of it.
pub fn command_of<'a>(
    alloc: Global,
    words: &'a [String],
) -> Result<Option<Command<'a>>, OutOfMemory>
    ensures command { IfOk result (λ found. MatchOption found
        ((command : Plain) → Asks (map string_bytes words.now) command → ⊥)
        (λ command. Asks (map string_bytes words.now) (asked_command command))) }
    ensures wanted { OnErr result (IsSome (command_for (map string_bytes words.now))) }
{
    let [name, rest @ ..] = words else {
        return Ok(None)
    };
    match name.as_str() {
        "synth" => Ok(synth_of(rest)),
        "flat" => Ok(flat_of(rest)),
        "run" => Ok(run_of(rest)),
        "sim" => sim_of(alloc, rest),
        "cosim" => Ok(cosim_of(rest)),
        "report" => Ok(report_of(rest)),
        "bench" => Ok(bench_of(rest)),
        "audit" => Ok(audit_of(rest)),
        _ => Ok(None),
    }
}

/// The command `synth FILE` with its options.
fn synth_of<'a>(words: &'a [String]) -> Option<Command<'a>>
    ensures { MatchOption result (synth_in (written (map string_bytes words.now)) ≡ None)
        (λ command. synth_in (written (map string_bytes words.now)) ≡ Some (asked_command command)) }
{
    if !takes_all(
        words,
        &["--width", "--height", "--phases", "--style", "--deck"],
        &["--exact", "--skew", "--compound"],
    ) {
        return None;
    }
    let file = one_plain(words)?;
    let options = synth_options_of(words)?;
    let method = method_of(words, options)?;
    Some(Command::Synth {
        file,
        options,
        method,
    })
}

/// The command `flat FILE`.
fn flat_of<'a>(words: &'a [String]) -> Option<Command<'a>>
    ensures { MatchOption result (flat_in (written (map string_bytes words.now)) ≡ None)
        (λ command. flat_in (written (map string_bytes words.now)) ≡ Some (asked_command command)) }
{
    if !takes_all(words, &[], &[]) {
        return None;
    }
    let file = one_plain(words)?;
    Some(Command::Flat { file })
}

/// The command `run FILE STIM`.
fn run_of<'a>(words: &'a [String]) -> Option<Command<'a>>
    ensures { MatchOption result (run_in (written (map string_bytes words.now)) ≡ None)
        (λ command. run_in (written (map string_bytes words.now)) ≡ Some (asked_command command)) }
{
    if !takes_all(words, &[], &[]) {
        return None;
    }
    let (file, stim) = two_plain(words)?;
    Some(Command::Run { file, stim })
}

/// The command `sim DECK STIM` with its options.
fn sim_of<'a>(alloc: Global, words: &'a [String]) -> Result<Option<Command<'a>>, OutOfMemory>
    ensures command { IfOk result (λ found. MatchOption found (sim_in (written (map string_bytes words.now)) ≡ None)
        (λ command. sim_in (written (map string_bytes words.now)) ≡ Some (asked_command command))) }
    ensures wanted { OnErr result (IsSome (sim_in (written (map string_bytes words.now)))) }
{
    if !takes_all(
        words,
        &["--order", "--seed", "--probe"],
        &["--events", "--skew"],
    ) {
        return Ok(None);
    }
    let Some((deck, stim)) = two_plain(words) else {
        return Ok(None)
    };
    let Some(clocking) = clocking_of(words) else {
        return Ok(None)
    };
    let Some(options) = trace_options_of(alloc, words)? else {
        return Ok(None)
    };
    Ok(Some(Command::Sim {
        deck,
        stim,
        options,
        clocking,
    }))
}

/// The command `cosim FILE DECK STIM` with its options.
fn cosim_of<'a>(words: &'a [String]) -> Option<Command<'a>>
    ensures { MatchOption result (cosim_in (written (map string_bytes words.now)) ≡ None)
        (λ command. cosim_in (written (map string_bytes words.now)) ≡ Some (asked_command command)) }
{
    if !takes_all(words, &["--order", "--seed"], &[]) {
        return None;
    }
    let (file, deck, stim) = three_plain(words)?;
    let order = order_of(words)?;
    let seed = seed_of(words)?;
    Some(Command::Cosim {
        file,
        deck,
        stim,
        order,
        seed,
    })
}

/// The command `report FILE` with its options.
fn report_of<'a>(words: &'a [String]) -> Option<Command<'a>>
    ensures { MatchOption result (report_in (written (map string_bytes words.now)) ≡ None)
        (λ command. report_in (written (map string_bytes words.now)) ≡ Some (asked_command command)) }
{
    if !takes_all(words, &["--width", "--height", "--phases", "--style"], &[]) {
        return None;
    }
    let file = one_plain(words)?;
    let options = synth_options_of(words)?;
    Some(Command::Report { file, options })
}

/// The command `bench SEED SIZE` with its options.
fn bench_of<'a>(words: &'a [String]) -> Option<Command<'a>>
    ensures { MatchOption result (bench_in (written (map string_bytes words.now)) ≡ None)
        (λ command. bench_in (written (map string_bytes words.now)) ≡ Some (asked_command command)) }
{
    if !takes_all(words, &["--width", "--height", "--phases", "--style"], &[]) {
        return None;
    }
    let (seed, size) = two_plain(words)?;
    let seed = number_from(seed, 0, u64::MAX)?;
    let size = number_from(size, 1, 30_000)? as u32;
    let options = synth_options_of(words)?;
    Some(Command::Bench {
        seed,
        size,
        options,
    })
}

/// The command `audit DECK`.
fn audit_of<'a>(words: &'a [String]) -> Option<Command<'a>>
    ensures { MatchOption result (audit_in (written (map string_bytes words.now)) ≡ None)
        (λ command. audit_in (written (map string_bytes words.now)) ≡ Some (asked_command command)) }
{
    if !takes_all(words, &[], &[]) {
        return None;
    }
    let deck = one_plain(words)?;
    Some(Command::Audit { deck })
}

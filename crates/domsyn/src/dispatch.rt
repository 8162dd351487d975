//! From a command to its outcome.
ghost use Rattle.std.specs.Prelude.{◌≡◌, ◌<◌, ◌≤◌, ◌↔◌, ℕ, List, All, IfOk, IsErrOf, OnOk, [], get_or, length, map};
ghost use Rattle.dom_io.specs.Asked.{HasAsked};
ghost use Rattle.dom_io.specs.Faults.{Rose};
ghost use Rattle.command_words.specs.Asked.{asked_command};
ghost use Rattle.command_words.specs.Commands.{HasGoodOptions, files_of as files_asked};
ghost use Rattle.domsyn.specs.declared.failure.Failure.{Failure as Failed};
ghost use Rattle.command_answers.specs.Endings.{ending_number};
ghost use Rattle.domsyn.specs.Failures.{IsFailureOf, IsCommandFault};
ghost use Rattle.domsyn.specs.Fetches.{AreFiles, AsksAt, AsksEach, IsFiles};
ghost use Rattle.domsyn.specs.Headline.{IsRightFor};
ghost use Rattle.domsyn.specs.Outcomes.{Files, IsFile, IsOutcome, Printed};
ghost use Rattle.domsyn.specs.Traced.{traced};
ghost use Rattle.command_answers.specs.declared.fault.Fault.{Fault as AnyFault};

use crate::failure::Failure;
use crate::fault_failure::failure_of;
use crate::fetch::{fetch_all, files_of};
use command_answers::{Answer, Fault, audit, bench, cosim, flat, report, run, sim, synth};
use command_words::Command;
use dom_io::Shelf;
use std::alloc::Global;
use trace_tool::TraceFault;

/// The outcome of a command over the files of a shelf. All its files are fetched first, in order.
pub fn outcome_of<'a, S: Shelf>(
    alloc: Global,
    command: &Command<'a>,
    shelf: &mut S,
) -> Result<Answer, Failure<'a>>
    requires names { All (S.may_ask shelf.old) (files_asked (asked_command command.now)) }
    requires good_options { HasGoodOptions (asked_command command.now) }
    ensures text { IfOk result (λ answer.
        IsOutcome (S.files shelf.old) (asked_command command.now) (Printed (ending_number answer.ending) answer.text.items)) }
    ensures right { IfOk result (λ answer. IsRightFor (S.files shelf.old) (asked_command command.now)
        (ending_number answer.ending) answer.text.items) }
    ensures failed { (failure : Failed) → IsErrOf result failure
        → IsFailureOf (S.files shelf.old) (asked_command command.now) (Rose (S.faults shelf.old) (S.faults shelf.new)) failure }
    ensures asked { OnOk result (AsksEach (S.files shelf.old) (files_asked (asked_command command.now))
        (HasAsked (S.asked shelf.old) (S.asked shelf.new))) }
    ensures asked_failed { (failure : Failed) → IsErrOf result failure
        → AsksAt (S.files shelf.old) (files_asked (asked_command command.now)) (HasAsked (S.asked shelf.old) (S.asked shelf.new)) failure }
    ensures unfetched { files_asked (asked_command command.now) ≡ [] → shelf.new ≡ shelf.old }
    ensures same_files { S.files shelf.new ≡ S.files shelf.old }
    ensures same_names { (name : List ℕ) → S.may_ask shelf.new name ↔ S.may_ask shelf.old name }
    ensures later { S.faults shelf.old ≤ S.faults shelf.new }
{
    let names = files_of(alloc, command)?;
    let files = fetch_all(alloc, shelf, &names)?;
    match answer_of(alloc, command, &files) {
        Ok(answer) => Ok(answer),
        Err(fault) => Err(failure_of(fault, command)),
    }
}

/// The answer to a command whose files have these bytes, in order.
fn answer_of(alloc: Global, command: &Command, files: &[Vec<u8>]) -> Result<Answer, Fault>
    requires given { IsFiles (asked_command command.now) (map (λ v. v.items) files.now) }
    requires good_options { HasGoodOptions (asked_command command.now) }
    ensures text { IfOk result (λ answer. (known : Files)
        → AreFiles known (files_asked (asked_command command.now)) (map (λ v. v.items) files.now)
        → IsOutcome known (asked_command command.now) (Printed (ending_number answer.ending) answer.text.items)) }
    ensures right { IfOk result (λ answer. (known : Files)
        → AreFiles known (files_asked (asked_command command.now)) (map (λ v. v.items) files.now)
        → IsRightFor known (asked_command command.now) (ending_number answer.ending) answer.text.items) }
    ensures refused { (why : AnyFault) → IsErrOf result why → (known : Files)
        → AreFiles known (files_asked (asked_command command.now)) (map (λ v. v.items) files.now)
        → IsCommandFault known (asked_command command.now) why }
{
    match command {
        Command::Synth {
            options,
            method,
            ..
        } => { synth(alloc, bytes_at(files, 0), *options, *method) }
        Command::Flat { .. } => traced(flat(alloc, bytes_at(files, 0))),
        Command::Run { .. } => traced(run(alloc, bytes_at(files, 0), bytes_at(files, 1))),
        Command::Sim {
            options,
            clocking,
            ..
        } => {
            traced(sim(
                alloc,
                bytes_at(files, 0),
                bytes_at(files, 1),
                options,
                *clocking,
            ))
        }
        Command::Cosim { order, seed, .. } => {
            let file = bytes_at(files, 0);
            let deck = bytes_at(files, 1);
            traced(cosim(alloc, file, deck, bytes_at(files, 2), *order, *seed))
        }
        Command::Report { options, .. } => { traced(report(alloc, bytes_at(files, 0), *options)) }
        Command::Bench {
            seed,
            size,
            options,
        } => traced(bench(alloc, *seed, *size, *options)),
        Command::Audit { .. } => traced(audit(alloc, bytes_at(files, 0))),
    }
}

/// The answer of a command that has no fault of its own.
fn traced(answer: Result<Answer, TraceFault>) -> Result<Answer, Fault>
    ensures { result ≡ traced answer }
{
    match answer {
        Ok(answer) => Ok(answer),
        Err(fault) => Err(Fault::Traced(fault)),
    }
}

/// The bytes of the file at a place.
fn bytes_at(files: &[Vec<u8>], place: usize) -> &[u8]
    requires { place < length files.now }
    ensures { (known : Files) (names : List (List ℕ)) → AreFiles known names (map (λ v. v.items) files.now)
        → IsFile known (get_or names place []) result.now }
{
    files[place].as_slice()
}

//! What is reported of a fault of a command.
ghost use Rattle.command_words.specs.Asked.{asked_command};
ghost use Rattle.domsyn.specs.Failures.{IsFailureFor, IsFailureNamed};

use crate::failure::Failure;
use crate::refusal::Refusal;
use command_answers::Fault;
use command_words::Command;
use net_flatten::FlatFault;
use trace_tool::TraceFault;

/// What is reported of a fault of a command: its cause, with the file of the command that it is about; or want of memory.
pub fn failure_of<'a>(fault: Fault, command: &Command<'a>) -> Failure<'a>
    ensures { IsFailureFor (asked_command command.now) fault result }
{
    match command {
        Command::Synth { file, .. } | Command::Flat { file } | Command::Report { file, .. } => {
            failure_named(fault, file, file, file)
        }
        Command::Run { file, stim } => failure_named(fault, file, file, stim),
        Command::Sim { deck, stim, .. } => failure_named(fault, deck, deck, stim),
        Command::Cosim {
            file,
            deck,
            stim,
            ..
        } => failure_named(fault, file, deck, stim),
        Command::Bench { .. } => failure_named(fault, "", "", ""),
        Command::Audit { deck } => failure_named(fault, deck, deck, deck),
    }
}

/// What is reported of a fault of a file, a deck and a stimulus of these names.
fn failure_named<'a>(fault: Fault, file: &'a str, deck: &'a str, stim: &'a str) -> Failure<'a>
    ensures { IsFailureNamed file.now deck.now stim.now fault result }
{
    let (file, why) = match fault {
        Fault::Traced(TraceFault::Blif { line, kind }) => (file, Refusal::Blif { line, kind }),
        Fault::Traced(TraceFault::Flat(FlatFault::At { line, kind, name })) => {
            (file, Refusal::Flat { line, kind, name })
        }
        Fault::Traced(TraceFault::Flat(FlatFault::TooMany { limit, count })) => {
            (file, Refusal::TooMany { limit, count })
        }
        Fault::TooManySinks { count } => (file, Refusal::TooManySinks { count }),
        Fault::Traced(TraceFault::Deck { line, kind }) => (deck, Refusal::Deck { line, kind }),
        Fault::Traced(TraceFault::Ports { place }) => (deck, Refusal::Ports { place }),
        Fault::Traced(TraceFault::NoNet { name }) => (deck, Refusal::NoNet { name }),
        Fault::Traced(TraceFault::Stim { line, kind }) => (stim, Refusal::Stim { line, kind }),
        Fault::Traced(TraceFault::Flat(FlatFault::Memory) | TraceFault::Memory) =>
            return Failure::Memory,
    };
    Failure::Refused { file, why }
}

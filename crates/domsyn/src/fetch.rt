//! Files of a shelf.
ghost use Rattle.std.specs.Prelude.{◌≡◌, ◌≤◌, ◌↔◌, ℕ, List, All, [], ◌∷◌, IfOk, IsErrOf, Some, length, map};
ghost use Rattle.dom_io.specs.Asked.{HasAsked};
ghost use Rattle.dom_io.specs.Faults.{Rose};
ghost use Rattle.command_words.specs.Asked.{asked_command};
ghost use Rattle.command_words.specs.Commands.{files_of as files_asked};
ghost use Rattle.domsyn.specs.declared.failure.Failure.{Failure as Failed};
ghost use Rattle.domsyn.specs.Outcomes.{IsFile};
ghost use Rattle.domsyn.specs.Failures.{AreUnfetched, IsUnfetched};
ghost use Rattle.domsyn.specs.Fetches.{AreFiles, AsksAt, AsksOnce, all_given};

use crate::failure::Failure;
use crate::refusal::Refusal;
use command_words::Command;
use dom_base::OutOfMemory;
use dom_io::{FetchFault, Shelf, is_too_long};
use std::alloc::Global;

/// The names of the files of a command, in order.
pub fn files_of<'a>(alloc: Global, command: &Command<'a>) -> Result<Vec<&'a str>, OutOfMemory>
    ensures { IfOk result (λ names. map (λ name. name.now) names.items ≡ files_asked (asked_command command.now)) }
{
    let mut names = Vec::new(alloc);
    match command {
        Command::Synth { file, .. } | Command::Flat { file } | Command::Report { file, .. } => {
            names.push(*file)?
        }
        Command::Run { file, stim } => {
            names.push(*file)?;
            names.push(*stim)?
        }
        Command::Sim { deck, stim, .. } => {
            names.push(*deck)?;
            names.push(*stim)?
        }
        Command::Cosim {
            file,
            deck,
            stim,
            ..
        } => {
            names.push(*file)?;
            names.push(*deck)?;
            names.push(*stim)?
        }
        Command::Bench { .. } => {}
        Command::Audit { deck } => names.push(*deck)?,
    }
    Ok(names)
}

/// The bytes of each of these files, which are fetched in order, where none has more than a file may have. None is fetched
/// after one that isn't given or is too long.
pub fn fetch_all<'a, S: Shelf>(
    alloc: Global,
    shelf: &mut S,
    names: &[&'a str],
) -> Result<Vec<Vec<u8>>, Failure<'a>>
    requires names { All (S.may_ask shelf.old) (map (λ name. name.now) names.now) }
    ensures bytes { IfOk result (λ files.
        AreFiles (S.files shelf.old) (map (λ name. name.now) names.now) (map (λ v. v.items) files.items)) }
    ensures failed { (failure : Failed) → IsErrOf result failure
        → AreUnfetched (S.files shelf.old) (map (λ name. name.now) names.now) (Rose (S.faults shelf.old) (S.faults shelf.new)) failure }
    ensures asked { IfOk result (λ files. HasAsked (S.asked shelf.old) (S.asked shelf.new)
        (all_given (map (λ name. name.now) names.now) (map (λ v. v.items) files.items))) }
    ensures asked_failed { (failure : Failed) → IsErrOf result failure
        → AsksAt (S.files shelf.old) (map (λ name. name.now) names.now) (HasAsked (S.asked shelf.old) (S.asked shelf.new)) failure }
    ensures unfetched { map (λ name. name.now) names.now ≡ [] → shelf.new ≡ shelf.old }
    ensures same_files { S.files shelf.new ≡ S.files shelf.old }
    ensures same_names { (name : List ℕ) → S.may_ask shelf.new name ↔ S.may_ask shelf.old name }
    ensures later { S.faults shelf.old ≤ S.faults shelf.new }
{
    let mut files = Vec::new(alloc);
    for name in names {
        let bytes = fetch(alloc, shelf, name)?;
        files.push(bytes)?;
    }
    Ok(files)
}

/// The bytes of a file, where it has no more than a file may have.
fn fetch<'a, S: Shelf>(alloc: Global, shelf: &mut S, file: &'a str) -> Result<Vec<u8>, Failure<'a>>
    requires name { S.may_ask shelf.old file.now }
    ensures bytes { IfOk result (λ bytes. IsFile (S.files shelf.old) file.now bytes.items) }
    ensures failed { (failure : Failed) → IsErrOf result failure
        → IsUnfetched (S.files shelf.old) file.now (Rose (S.faults shelf.old) (S.faults shelf.new)) failure }
    ensures asked { IfOk result (λ bytes. HasAsked (S.asked shelf.old) (S.asked shelf.new) ((file.now, Some (length bytes.items)) ∷ [])) }
    ensures asked_failed { (failure : Failed) → IsErrOf result failure
        → AsksOnce file.now (HasAsked (S.asked shelf.old) (S.asked shelf.new)) failure }
    ensures same_files { S.files shelf.new ≡ S.files shelf.old }
    ensures same_names { (name : List ℕ) → S.may_ask shelf.new name ↔ S.may_ask shelf.old name }
    ensures later { S.faults shelf.old ≤ S.faults shelf.new }
{
    match shelf.fetch(alloc, file) {
        Ok(bytes) => {
            if is_too_long(&bytes) {
                let why = Refusal::TooLong;
                return Err(Failure::Refused { file, why });
            }
            Ok(bytes)
        }
        Err(FetchFault::Failed) => Err(Failure::Unread { file }),
        Err(FetchFault::Memory) => Err(Failure::Memory),
    }
}

//! The end of a command: its text is put out, or a line says why there is none.
ghost use Rattle.std.specs.Prelude.{ℕ, ◌≡◌, ◌≢◌, ◌++◌, ◌≤◌, ◌⊎◌, OnOk, OnErr, codes, length};
ghost use Rattle.std.specs.Io.KnownBytes.{Appends};
ghost use Rattle.dom_io.specs.Faults.{Rose};
ghost use Rattle.dom_io.specs.Pieces.{AppendsPrefix};
ghost use Rattle.command_answers.specs.Endings.{ending_number};
ghost use Rattle.domsyn.specs.Failures.{HasRoomForFailure, IsReportedAt};
ghost use Rattle.domsyn.specs.Refusals.{refusal_line};
ghost use Rattle.domsyn.specs.Top.{Reports, line_of};

use crate::failure::Failure;
use crate::refusal::Refusal;
use crate::status::{CANNOT_READ, CANNOT_WRITE, DONE, OUT_OF_MEMORY, REFUSED, UNSETTLED};
use command_answers::{Answer, Ending};
use dom_io::{Sink, SinkFault, put_all};
use std::alloc::Global;

/// Puts out a text, and gives the status.
pub fn finish<K: Sink, E: Sink>(answer: &Answer, out: &mut K, err: &mut E) -> u8
    requires out_room { K.has_room out.old (length answer.now.text.items) }
    requires err_room { (status : ℕ) → E.has_room err.old (length (line_of status)) }
    ensures known { (result ≡ ending_number answer.now.ending) ⊎ (result ≡ 4) }
    ensures done { result ≢ 4 → Appends (K.taken out.old) (K.taken out.new) answer.now.text.items }
    ensures part { result ≡ 4 → AppendsPrefix (K.taken out.old) (K.taken out.new) answer.now.text.items }
    ensures cannot_write { result ≡ 4 → Rose (K.faults out.old) (K.faults out.new) }
    ensures reported { Reports (E.taken err.old) (E.taken err.new) (E.faults err.old) (E.faults err.new) (line_of result) }
    ensures quiet { result ≢ 4 → err.new ≡ err.old }
    ensures out_later { K.faults out.old ≤ K.faults out.new }
    ensures err_later { E.faults err.old ≤ E.faults err.new }
{
    match put_all(out, &answer.text) {
        Ok(()) => number_of(answer.ending),
        Err(_) => {
            put_line(err, b"domsyn: cannot write\n");
            CANNOT_WRITE
        }
    }
}

/// The status that the program ends with, once the text of a command that ends so is put out.
fn number_of(ending: Ending) -> u8
    ensures { result ≡ ending_number ending }
{
    match ending {
        Ending::Done => DONE,
        Ending::Differs => UNSETTLED,
    }
}

/// Reports why there is no text, and gives the status.
pub fn report_failure<E: Sink>(alloc: Global, failure: Failure, err: &mut E) -> u8
    requires failure_room { HasRoomForFailure failure (E.has_room err.old) }
    requires err_room { (status : ℕ) → E.has_room err.old (length (line_of status)) }
    ensures reported { IsReportedAt failure.entry result
        (Reports (E.taken err.old) (E.taken err.new) (E.faults err.old) (E.faults err.new)) }
    ensures later { E.faults err.old ≤ E.faults err.new }
{
    match failure {
        Failure::Refused { file, why } => report_refusal(alloc, file, &why, err),
        Failure::Unread { file } => {
            report_about(err, file, b": cannot read\n");
            CANNOT_READ
        }
        Failure::Memory => report_memory(err),
    }
}

/// Reports why a file is refused, or that memory did not suffice for it, and gives the status.
fn report_refusal<E: Sink>(alloc: Global, file: &str, why: &Refusal, err: &mut E) -> u8
    requires refusal_room { E.has_room err.old (length (refusal_line file.now why.now)) }
    requires err_room { (status : ℕ) → E.has_room err.old (length (line_of status)) }
    ensures reported { ((result ≡ 1)
        × Reports (E.taken err.old) (E.taken err.new) (E.faults err.old) (E.faults err.new) (refusal_line file.now why.now))
        ⊎ ((result ≡ 5) × Reports (E.taken err.old) (E.taken err.new) (E.faults err.old) (E.faults err.new) (line_of 5)) }
    ensures later { E.faults err.old ≤ E.faults err.new }
{
    match why.text(alloc) {
        Ok(text) => {
            report_about(err, why.subject(file), &text);
            REFUSED
        }
        Err(_) => report_memory(err),
    }
}

/// Reports that memory did not suffice, and gives the status.
pub fn report_memory<E: Sink>(err: &mut E) -> u8
    requires { (status : ℕ) → E.has_room err.old (length (line_of status)) }
    ensures status { result ≡ 5 }
    ensures reported { Reports (E.taken err.old) (E.taken err.new) (E.faults err.old) (E.faults err.new) (line_of 5) }
    ensures later { E.faults err.old ≤ E.faults err.new }
{
    put_line(err, b"domsyn: out of memory\n");
    OUT_OF_MEMORY
}

/// Puts a line on the sink, whose failures change no status.
pub fn put_line<E: Sink>(err: &mut E, line: &[u8])
    requires { E.has_room err.old (length line.now) }
    ensures reported { Reports (E.taken err.old) (E.taken err.new) (E.faults err.old) (E.faults err.new) line.now }
    ensures later { E.faults err.old ≤ E.faults err.new }
{
    let _ = put_all(err, line);
}

/// Puts a line about a subject on the sink: `domsyn: `, the subject and what there is to say.
fn report_about<E: Sink>(err: &mut E, subject: &str, what: &[u8])
    requires { E.has_room err.old (length (codes "domsyn: " ++ subject.now ++ what.now)) }
    ensures reported { Reports (E.taken err.old) (E.taken err.new) (E.faults err.old) (E.faults err.new)
        (codes "domsyn: " ++ subject.now ++ what.now) }
    ensures later { E.faults err.old ≤ E.faults err.new }
{
    let _ = put_about(err, subject, what);
}

#[tactic(auto, using(dom_io::proofs::PieceLemmas::put_twice))]
fn put_about<E: Sink>(err: &mut E, subject: &str, what: &[u8]) -> Result<(), SinkFault>
    requires { E.has_room err.old (length (codes "domsyn: " ++ subject.now ++ what.now)) }
    ensures ok { OnOk result (Appends (E.taken err.old) (E.taken err.new) (codes "domsyn: " ++ subject.now ++ what.now)) }
    ensures err { OnErr result (AppendsPrefix (E.taken err.old) (E.taken err.new) (codes "domsyn: " ++ subject.now ++ what.now)) }
    ensures later { E.faults err.old ≤ E.faults err.new }
    ensures failed { OnErr result (Rose (E.faults err.old) (E.faults err.new)) }
{
    if let Err(fault) = put_all(err, b"domsyn: ") {
        return Err(fault);
    }
    if let Err(fault) = put_all(err, subject.as_bytes()) {
        return Err(fault);
    }
    put_all(err, what)
}

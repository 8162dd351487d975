//! What the program does.
ghost use Rattle.std.specs.Prelude.{◌≡◌, ◌≢◌, ◌≤◌, ◌⊎◌, ℕ, List, Some, All, IfSome, ◌↔◌, length, map};
ghost use Rattle.std.specs.String.{string_bytes};
ghost use Rattle.std.specs.Io.KnownBytes.{Appends};
ghost use Rattle.dom_io.specs.Asked.{HasAsked};
ghost use Rattle.dom_io.specs.Faults.{Rose};
ghost use Rattle.dom_io.specs.Pieces.{AppendsPrefix};
ghost use Rattle.domsyn.specs.declared.refusal.Refusal.{Refusal};
ghost use Rattle.command_words.specs.Commands.{Asks, Bench, Command, files_of};
ghost use Rattle.deck_form.specs.declared.options.SynthOptions.{SynthOptions};
ghost use Rattle.domsyn.specs.Answered.{AnswersOutcome};
ghost use Rattle.domsyn.specs.AuditedDecks.{GivesAuditedDeck};
ghost use Rattle.domsyn.specs.Benches.{GivesSameBench};
ghost use Rattle.domsyn.specs.Fetches.{AsksAll, AsksAtRefusal, AsksFirst, AsksUpTo};
ghost use Rattle.domsyn.specs.FlatTexts.{GivesFlatText};
ghost use Rattle.domsyn.specs.Headline.{GivesRightDeck};
ghost use Rattle.domsyn.specs.Outcomes.{Outcome, Refused, Printed, status_of};
ghost use Rattle.domsyn.specs.OwnAudits.{SaysYes};
ghost use Rattle.domsyn.specs.OwnDecks.{SaysSame};
ghost use Rattle.domsyn.specs.OwnTraces.{SaysOutputs};
ghost use Rattle.domsyn.specs.Refusals.{refusal_line};
ghost use Rattle.domsyn.specs.Top.{HasOutcome, HasRoomFor, IsRefusalLine, IsText, MeetsUnread, Reports, line_of, unread_line};

use crate::dispatch::outcome_of;
use crate::ending::{finish, put_line, report_failure, report_memory};
use crate::status::USAGE;
use command_words::command_of;
use dom_io::{Shelf, Sink};
use std::alloc::Global;

const USAGE_LINE: &[u8] =
    b"usage: domsyn synth FILE | flat FILE | run FILE STIM | sim DECK STIM | cosim FILE DECK STIM | report FILE | bench SEED SIZE \
    | audit DECK\n";

/// Does all that the program does, and gives its status: 0 done, 1 a file is refused, 2 the words ask
/// for nothing, 3 a file can't be read, 4 the output can't be written, 5 out of memory, 6 a settling
/// of a simulation doesn't end, a deck does something else than its file, or a deck isn't built of
/// domino cells. `words` are those of the command line without the program's name. The text goes to
/// `out`, and a line to `err` at every status but 0 and 6.
pub fn top<S: Shelf, K: Sink, E: Sink>(
    alloc: Global,
    words: &[String],
    shelf: &mut S,
    out: &mut K,
    err: &mut E,
) -> u8
    requires names { (command : Command) → Asks (map string_bytes words.now) command → All (S.may_ask shelf.old) (files_of command) }
    requires out_room { HasRoomFor (S.files shelf.old) (IsText (map string_bytes words.now)) (K.has_room out.old) }
    requires refusal_room { HasRoomFor (S.files shelf.old) (IsRefusalLine (map string_bytes words.now)) (E.has_room err.old) }
    requires unread_room { (file : List ℕ) → MeetsUnread (S.files shelf.old) (map string_bytes words.now) file
        → E.has_room err.old (length (unread_line file)) }
    requires err_room { (status : ℕ) → E.has_room err.old (length (line_of status)) }

    ensures known { result ≤ 6 }
    // The words are refused exactly where they ask for no command, and then nothing is fetched.
    ensures usage { ((command : Command) → Asks (map string_bytes words.now) command → ⊥) → result ≡ 2 }
    ensures usage_only { result ≡ 2 → (command : Command) → Asks (map string_bytes words.now) command → ⊥ }
    ensures unfetched { result ≡ 2 → shelf.new ≡ shelf.old }
    ensures same_files { S.files shelf.new ≡ S.files shelf.old }
    ensures same_names { (name : List ℕ) → S.may_ask shelf.new name ↔ S.may_ask shelf.old name }

    // The files of the words are asked for in their order, each once, and none after one that isn't given or is too long: all of
    // them where there is a text, up to the file that the line names where it can't be read or is too long, and else all, or some
    // of the first where memory did not suffice.
    ensures asked_all { result ≢ 1 → result ≢ 2 → result ≢ 3 → result ≢ 5
        → AsksAll (S.files shelf.old) (map string_bytes words.now) (HasAsked (S.asked shelf.old) (S.asked shelf.new)) }
    ensures asked_first { result ≡ 5
        → AsksFirst (S.files shelf.old) (map string_bytes words.now) (HasAsked (S.asked shelf.old) (S.asked shelf.new)) }

    // A fault of the outside is reported only where its count rose in this call.
    ensures cannot_read { result ≡ 3 → Rose (S.faults shelf.old) (S.faults shelf.new) }
    ensures cannot_write { result ≡ 4 → Rose (K.faults out.old) (K.faults out.new) }

    // What the words ask for has a text with its status as its outcome, or a file that is refused for its cause.
    ensures done { (result ≡ 0) ⊎ (result ≡ 6)
        → (text : List ℕ) × HasOutcome (S.files shelf.old) (map string_bytes words.now) (Printed result text)
        × Appends (K.taken out.old) (K.taken out.new) text }
    ensures part { result ≡ 4 → (status : ℕ) × ((text : List ℕ)
        × HasOutcome (S.files shelf.old) (map string_bytes words.now) (Printed status text)
        × AppendsPrefix (K.taken out.old) (K.taken out.new) text) }
    ensures refused { result ≡ 1 → (file : List ℕ) × ((why : Refusal)
        × HasOutcome (S.files shelf.old) (map string_bytes words.now) (Refused file why)
        × Reports (E.taken err.old) (E.taken err.new) (E.faults err.old) (E.faults err.new) (refusal_line file why)
        × AsksAtRefusal (S.files shelf.old) (map string_bytes words.now) (HasAsked (S.asked shelf.old) (S.asked shelf.new)) file why) }
    ensures cause { result ≡ 1 → IfSome (S.files shelf.old) (λ known. (file : List ℕ) (why : Refusal)
        → HasOutcome (Some known) (map string_bytes words.now) (Refused file why)
        → Reports (E.taken err.old) (E.taken err.new) (E.faults err.old) (E.faults err.new) (refusal_line file why)) }
    ensures complete { IfSome (S.files shelf.old) (λ known. (outcome : Outcome)
        → HasOutcome (Some known) (map string_bytes words.now) outcome
        → (Rose (S.faults shelf.old) (S.faults shelf.new) → ⊥) → (Rose (K.faults out.old) (K.faults out.new) → ⊥)
        → (result ≡ status_of outcome) ⊎ (result ≡ 5)) }
    // Where the files of the words are known, there is one outcome, and its status is the answer, or 5, where no count rose.
    ensures answered { AnswersOutcome (S.files shelf.old) (map string_bytes words.now) result
        (Rose (S.faults shelf.old) (S.faults shelf.new) ⊎ Rose (K.faults out.old) (K.faults out.new)) }

    // Where the words ask for the deck of a file, what was put out is a right deck of that file, in every order of events.
    ensures headline { result ≡ 0 → GivesRightDeck (S.files shelf.old) (map string_bytes words.now)
        (Appends (K.taken out.old) (K.taken out.new)) }

    // Where the words ask for a file as one model, what was put out is a text that is accepted and refused for nothing, unless it is
    // longer than a file may be, and whose network has the names of model, inputs and outputs, the start values and the runs of that
    // of the file.
    ensures flat_reads_back { result ≡ 0 → GivesFlatText (S.files shelf.old) (map string_bytes words.now)
        (Appends (K.taken out.old) (K.taken out.new)) }

    // `bench` refuses nothing and reads nothing, and what it puts out says that its deck does what the network does.
    ensures bench { (seed size : ℕ) (options : SynthOptions) → Asks (map string_bytes words.now) (Bench seed size options)
        → (result ≢ 1) × (result ≢ 3) × (result ≢ 6) }
    ensures bench_unfetched { (seed size : ℕ) (options : SynthOptions) → Asks (map string_bytes words.now) (Bench seed size options)
        → shelf.new ≡ shelf.old }
    ensures same { result ≡ 0 → GivesSameBench (map string_bytes words.now) (Appends (K.taken out.old) (K.taken out.new)) }

    // `cosim` of a right deck of a text says that all is the same.
    ensures own { SaysSame (S.files shelf.old) (map string_bytes words.now) result (Appends (K.taken out.old) (K.taken out.new)) }
    // `sim` of it, and with clocks that overlap of one for that or on one clock, is refused only for a probe that names no net, and
    // puts out a trace with the outputs of the text's network, each of whose settlings ends.
    ensures own_sim { SaysOutputs (S.files shelf.old) (map string_bytes words.now) result (Appends (K.taken out.old) (K.taken out.new)) }

    // Where the words ask for the audit of a deck and it says yes, the deck that was read is one of domino cells, and right in
    // every order of events. And it says yes of a right deck with keepers, in each order of its devices.
    ensures audited { result ≡ 0 → GivesAuditedDeck (S.files shelf.old) (map string_bytes words.now)
        (Appends (K.taken out.old) (K.taken out.new)) }
    ensures own_audit { SaysYes (S.files shelf.old) (map string_bytes words.now) result (Appends (K.taken out.old) (K.taken out.new)) }

    // Nothing is put out at another status, and `err` gets the line of the status, of the cause, or of the file.
    ensures nothing { result ≢ 0 → result ≢ 4 → result ≢ 6 → out.new ≡ out.old }
    ensures unread { result ≡ 3 → (file : List ℕ) × MeetsUnread (S.files shelf.old) (map string_bytes words.now) file
        × Reports (E.taken err.old) (E.taken err.new) (E.faults err.old) (E.faults err.new) (unread_line file)
        × AsksUpTo (S.files shelf.old) (map string_bytes words.now) (HasAsked (S.asked shelf.old) (S.asked shelf.new)) file }
    ensures reported { result ≢ 1 → result ≢ 3
        → Reports (E.taken err.old) (E.taken err.new) (E.faults err.old) (E.faults err.new) (line_of result) }
    ensures quiet { (result ≡ 0) ⊎ (result ≡ 6) → err.new ≡ err.old }
    ensures later { (S.faults shelf.old ≤ S.faults shelf.new) × (K.faults out.old ≤ K.faults out.new)
        × (E.faults err.old ≤ E.faults err.new) }
{
    let command = match command_of(alloc, words) {
        Ok(Some(command)) => command,
        Ok(None) => {
            put_line(err, USAGE_LINE);
            return USAGE;
        }
        Err(_) => return report_memory(err),
    };
    match outcome_of(alloc, &command, shelf) {
        Ok(answer) => finish(&answer, out, err),
        Err(failure) => report_failure(alloc, failure, err),
    }
}

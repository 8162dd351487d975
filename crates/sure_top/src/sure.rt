//! Calls over a shelf and sinks that never fail.
ghost use Rattle.std.specs.Prelude.{◌≡◌, ◌≢◌, ◌⊎◌, ◌++◌, ℕ, List, Some, All, IsSome, length, map};
ghost use Rattle.std.specs.String.{string_bytes};
ghost use Rattle.dom_io.specs.Held.{held};
ghost use Rattle.dom_io.specs.Sure.{HasRoom};
ghost use Rattle.command_words.specs.Commands.{Asks, Command, files_of};
ghost use Rattle.domsyn.specs.Outcomes.{Outcome, Printed, status_of};
ghost use Rattle.domsyn.specs.Top.{HasOutcome, HasRoomFor, IsRefusalLine, IsText, MeetsUnread, line_of, unread_line};

use dom_io::{SureShelf, SureSink};
use domsyn::top;
use std::alloc::Global;

/// Does what `top` does, over a shelf that holds each file that the words ask for and sinks with room for what is put on
/// them. It ends with neither 3 nor 4: with the status of what the words ask for, or 2 where they ask for nothing, or 5.
pub fn top_over_sure(
    alloc: Global,
    words: &[String],
    shelf: &mut SureShelf,
    out: &mut SureSink,
    err: &mut SureSink,
) -> u8
    requires names { (command : Command) → Asks (map string_bytes words.now) command
        → All (λ name. IsSome (held shelf.old name)) (files_of command) }
    requires out_room { HasRoomFor (Some shelf.old) (IsText (map string_bytes words.now)) (HasRoom out.old) }
    requires refusal_room { HasRoomFor (Some shelf.old) (IsRefusalLine (map string_bytes words.now)) (HasRoom err.old) }
    requires unread_room { (file : List ℕ) → MeetsUnread (Some shelf.old) (map string_bytes words.now) file
        → HasRoom err.old (length (unread_line file)) }
    requires err_room { (status : ℕ) → HasRoom err.old (length (line_of status)) }
    ensures read { 3 ≢ result }
    ensures written { 4 ≢ result }
    ensures usage { ((command : Command) → Asks (map string_bytes words.now) command → ⊥) → result ≡ 2 }
    ensures complete { (outcome : Outcome) → HasOutcome (Some shelf.old) (map string_bytes words.now) outcome
        → (result ≡ status_of outcome) ⊎ (result ≡ 5) }
    ensures done { (result ≡ 0) ⊎ (result ≡ 6)
        → (text : List ℕ) × HasOutcome (Some shelf.old) (map string_bytes words.now) (Printed result text)
        × (out.new.taken ≡ out.old.taken ++ text) }
{
    top(alloc, words, shelf, out, err)
}

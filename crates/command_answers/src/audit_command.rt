//! The command `audit DECK`: whether the circuit of a deck is built of domino cells with keepers.
ghost use Rattle.std.specs.Prelude.{◌≡◌, ◌++◌, IfOk, IsErrOf, OnOk};
ghost use Rattle.audit_deck.specs.Answers.{answer_of};
ghost use Rattle.deck.specs.CircuitData.{CircuitData};
ghost use Rattle.deck.specs.Nets.{net_name};
ghost use Rattle.deck_audit.specs.Audits.{Answer as Found};
ghost use Rattle.command_answers.specs.AuditedDecks.{IsAuditedDeck};
ghost use Rattle.command_answers.specs.Audits.{IsAuditOf, IsUnaudited, audit_line, is_yes, no_line, yes_line};
ghost use Rattle.command_answers.specs.Endings.{ending_of};
ghost use Rattle.command_answers.specs.declared.answer.Ending.TheVariants.{Done};
ghost use Rattle.trace_tool.specs.declared.fault.TraceFault.{TraceFault as Fault};

use crate::answer::{Answer, Ending};
use audit_deck::Audit;
use deck::{Circuit, roles};
use dom_base::{OutOfMemory, append, append_number};
use spice_read::read;
use std::alloc::Global;
use trace_tool::TraceFault;

/// What the audit of a deck says: `yes cells N width W height H`, or `no rule R net NAME` of the first rule that is broken
/// and its smallest net. The deck is read first, then its ports are looked at; the first fault in this order is reported.
pub fn audit(alloc: Global, deck: &[u8]) -> Result<Answer, TraceFault>
    ensures audit { IfOk result (λ answer. (circuit : CircuitData) × (found : Found) × IsAuditOf deck.now circuit found
        × (answer.text.items ≡ audit_line circuit.nets found) × (answer.ending ≡ ending_of (is_yes found))) }
    ensures right { IfOk result (λ answer. answer.ending ≡ Done → IsAuditedDeck deck.now answer.text.items) }
    ensures refused { (why : Fault) → IsErrOf result why → IsUnaudited deck.now why }
{
    let circuit = read(alloc, deck)?;
    let roles = roles(&circuit)?;
    let found = audit_deck::audit(alloc, &circuit, roles)?;
    let text = audit_text(alloc, &circuit, &found)?;
    let ending = Ending::of(is_yes(&found));
    Ok(Answer { text, ending })
}

/// Whether the answer is yes.
fn is_yes(found: &Audit) -> bool
    ensures { result ≡ is_yes (answer_of found.now) }
{
    match found {
        Audit::Yes { .. } => true,
        Audit::No { .. } => false,
    }
}

/// The line of an answer.
fn audit_text(alloc: Global, circuit: &Circuit, found: &Audit) -> Result<Vec<u8>, OutOfMemory>
    ensures { IfOk result (λ text. text.items ≡ audit_line circuit.now.nets (answer_of found.now)) }
{
    let mut text = Vec::new(alloc);
    match found {
        Audit::Yes {
            cells,
            width,
            height,
            ..
        } => put_yes(&mut text, *cells, *width, *height)?,
        Audit::No { rule, net } => put_no(&mut text, *rule, name_of(circuit, *net))?,
    }
    Ok(text)
}

/// Appends the line of a yes: the number of cells, and the greatest width and height of their trees.
fn put_yes(text: &mut Vec<u8>, cells: u32, width: u32, height: u32) -> Result<(), OutOfMemory>
    ensures { OnOk result (text.new.items ≡ text.old.items ++ yes_line cells width height) }
{
    append(text, b"yes cells ")?;
    append_number(text, cells as u64)?;
    append(text, b" width ")?;
    append_number(text, width as u64)?;
    append(text, b" height ")?;
    append_number(text, height as u64)?;
    append(text, b"\n")
}

/// Appends the line of a rule that is broken at a net of this name.
fn put_no(text: &mut Vec<u8>, rule: u32, name: &[u8]) -> Result<(), OutOfMemory>
    ensures { OnOk result (text.new.items ≡ text.old.items ++ no_line rule name.now) }
{
    append(text, b"no rule ")?;
    append_number(text, rule as u64)?;
    append(text, b" net ")?;
    append(text, name)?;
    append(text, b"\n")
}

/// The name of a net, or nothing where there is none of this number.
fn name_of(circuit: &Circuit, net: u32) -> &[u8]
    ensures { result.now ≡ net_name circuit.now.nets net }
{
    match circuit.nets.get_index(net as usize) {
        Some(name) => name.as_bytes(),
        None => b"",
    }
}

//! The reader.
ghost use Rattle.std.specs.Prelude.{◌≡◌, ℕ, [], None, IfOk, IsErrOf};
ghost use Rattle.deck.specs.declared.fault.DeckKind.{DeckKind};
ghost use Rattle.deck.specs.DeckFaults.{IsDeckFaultAt};
ghost use Rattle.deck.specs.DeckText.{IsDeckOf};
ghost use Rattle.spice_read.specs.ReadSubckts.{IsWholeRead};

use crate::DeckFault;
use crate::cards::{Card, Cards};
use crate::crowds::Crowds;
use crate::subckts::Subckts;
use deck::{Circuit, DeckKind};
use dom_base::NameHash;
use std::alloc::Global;

/// The circuit of a deck, the text of SPICE subcircuits of transistors that may call one another, or
/// the first line with a fault and the fault of the smallest number there. The circuit is the last
/// subcircuit, with what its calls stand for. Letters of upper case are read as those of lower case,
/// the bulks and the names of devices have no meaning, and nets are numbered in order of first
/// appearance: the ports first, then drain before gate before source.
pub fn read(alloc: Global, text: &[u8]) -> Result<Circuit, DeckFault>
    ensures circuit { IfOk result (λ circuit. IsDeckOf text.now circuit) }
    ensures fault { (line : ℕ) (kind : DeckKind) → IsErrOf result (DeckFault.At line kind) → IsDeckFaultAt text.now line kind }
{
    let mut crowds = Crowds::new(alloc, NameHash::known());
    let read = read_with(alloc, &mut crowds, text);
    if !crowds.are_crowded() {
        return read;
    }
    read_with(
        alloc,
        &mut Crowds::new(alloc, NameHash::of_text(text)),
        text,
    )
}

/// The same, where names are hashed so. An error may also say that memory did not suffice where names are crowded.
fn read_with(alloc: Global, crowds: &mut Crowds, text: &[u8]) -> Result<Circuit, DeckFault>
    ensures circuit { IfOk result (λ circuit. IsDeckOf text.now circuit) }
    ensures fault { (line : ℕ) (kind : DeckKind) → IsErrOf result (DeckFault.At line kind) → IsDeckFaultAt text.now line kind }
{
    let mut subckts = Subckts::new(alloc, crowds.units.hash());
    let cards = read_cards(alloc, crowds, text, &mut subckts)?;
    subckts.finish(alloc, &mut crowds.nets, cards)
}

/// Reads all cards of a text into its subcircuits, which are none yet, and gives what is left behind them.
fn read_cards<'a>(
    alloc: Global,
    crowds: &mut Crowds,
    text: &'a [u8],
    subckts: &mut Subckts,
) -> Result<Cards<'a>, DeckFault>
    requires closed { subckts.old.closed ≡ [] }
    requires current { subckts.old.current ≡ None }
    ensures read { IfOk result (IsWholeRead text.now subckts.new) }
    ensures fault { (line : ℕ) (kind : DeckKind) → IsErrOf result (DeckFault.At line kind) → IsDeckFaultAt text.now line kind }
{
    let mut cards = Cards::new(alloc, text)?;
    let mut card = Card::new(alloc);
    'cards: while cards.next(alloc, &mut card)? {
        subckts.push(alloc, crowds, &card)?;
    }
    Ok(cards)
}

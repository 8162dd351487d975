//! Nets by the words that name them.
ghost use Rattle.std.specs.Prelude.{◌≡◌, ◌<◌, ◌+◌, ◌++◌, ◌∷◌, ◌^◌, [], IfOk, OnErr, OnOk, if◌then◌else◌, is_ok, length, slice_get, take, true, Some};
ghost use Rattle.std.specs.Str.{str_to_ascii_lowercase};
ghost use Rattle.dom_base.specs.Names.{IsNetName};
ghost use Rattle.deck.specs.DeckCards.{word_at};
ghost use Rattle.deck.specs.Limits.{most_devices};
ghost use Rattle.deck.specs.Nets.{net_number, with_net, with_nets};
ghost use Rattle.deck.specs.Numbers.{AreNumbersOf};
ghost use Rattle.deck.specs.Pushes.{added_device, pushed};
ghost use Rattle.spice_read.specs.ReadSubckts.{HasNames};

use crate::cards::Card;
use crate::recent_nets::RecentNets;
use crate::words::net_name;
use deck::{Circuit, Device, NetSet};
use dom_base::{Kind, NetName, OutOfMemory, is_same};
use std::alloc::Global;

/// Whether the net of this number has the name that this word is.
fn is_named(nets: &[NetName], number: usize, word: &[u8]) -> bool
    ensures { result ≡ true → slice_get nets.now number ≡ Some (str_to_ascii_lowercase word.now) }
{
    match nets.get(number) {
        Some(net) => is_same(net.as_bytes(), word),
        None => false,
    }
}

/// The number of the net that a word names, which is added at the end where it is new. A refusal adds nothing.
pub fn number_of(
    alloc: Global,
    recent: &mut RecentNets,
    nets: &mut NetSet,
    word: &[u8],
) -> Result<usize, OutOfMemory>
    requires name { IsNetName (str_to_ascii_lowercase word.now) }
    ensures number { IfOk result (λ i. i ≡ net_number nets.old.keys (str_to_ascii_lowercase word.now)) }
    ensures keys { nets.new.keys ≡ (if is_ok result then with_net nets.old.keys (str_to_ascii_lowercase word.now) else nets.old.keys) }
{
    if let Some(guess) = recent.number(word) {
        if is_named(nets.as_slice(), guess, word) {
            return Ok(guess);
        }
    }
    let name = net_name(alloc, word)?;
    let (number, _) = nets.insert_full(name)?;
    recent.note(word, number);
    Ok(number)
}

/// The numbers of the nets that the card of a device names. After a refusal some of them may stand at the end.
fn number_ends(
    alloc: Global,
    recent: &mut RecentNets,
    nets: &mut NetSet,
    card: &Card<'_>,
) -> Result<(usize, usize, usize), OutOfMemory>
    requires { HasNames 5 card.now }
    ensures numbers { IfOk result (AreNumbersOf nets.old.keys (word_at card.now 1) (word_at card.now 2) (word_at card.now 3)) }
    ensures keys { OnOk result (nets.new.keys ≡ with_nets nets.old.keys (word_at card.now 1) (word_at card.now 2) (word_at card.now 3)) }
    ensures begins { take (length nets.old.keys) nets.new.keys ≡ nets.old.keys }
{
    let drain = number_of(alloc, recent, nets, card.word(1))?;
    let gate = number_of(alloc, recent, nets, card.word(2))?;
    let source = number_of(alloc, recent, nets, card.word(3))?;
    Ok((drain, gate, source))
}

/// Adds the device of a card at the end, and its nets where they are new. After a refusal some of the nets may stand at
/// the end.
fn push_device(
    alloc: Global,
    recent: &mut RecentNets,
    nets: &mut NetSet,
    devices: &mut Vec<Device>,
    kind: Kind,
    card: &Card<'_>,
) -> Result<(), OutOfMemory>
    requires few { length nets.old.keys + 3 < 2 ^ 32 }
    requires names { HasNames 5 card.now }
    ensures nets { OnOk result (nets.new.keys ≡ with_nets nets.old.keys (word_at card.now 1) (word_at card.now 2) (word_at card.now 3)) }
    ensures devices { OnOk result (devices.new.items
        ≡ devices.old.items ++ added_device nets.old.keys kind (word_at card.now 1) (word_at card.now 2) (word_at card.now 3) ∷ []) }
    ensures kept { OnErr result (devices.new.items ≡ devices.old.items) }
    ensures begins { take (length nets.old.keys) nets.new.keys ≡ nets.old.keys }
{
    let (drain, gate, source) = number_ends(alloc, recent, nets, card)?;
    devices.push(Device {
        kind,
        drain: drain as u32,
        gate: gate as u32,
        source: source as u32,
    })?;
    Ok(())
}

/// Adds the device of a card to a circuit. The one error is out of memory, and it leaves the circuit as it was.
pub fn push_card(
    alloc: Global,
    recent: &mut RecentNets,
    circuit: &mut Circuit,
    kind: Kind,
    card: &Card<'_>,
) -> Result<(), OutOfMemory>
    requires room { length circuit.old.devices < most_devices }
    requires names { HasNames 5 card.now }
    ensures { OnOk result (circuit.new ≡ pushed circuit.old kind (word_at card.now 1) (word_at card.now 2) (word_at card.now 3)) }
{
    let before = circuit.nets.len();
    match push_device(
        alloc,
        recent,
        &mut circuit.nets,
        &mut circuit.devices,
        kind,
        card,
    ) {
        Ok(()) => Ok(()),
        Err(failed) => {
            circuit.nets.truncate(before);
            Err(failed)
        }
    }
}

//! The lines of phases and the cards of devices.
ghost use Rattle.std.specs.Prelude.{◌≡◌, ◌++◌, ◌∷◌, ◌<◌, [], All, OnOk, length};
ghost use Rattle.std.specs.List.{flat_map};
ghost use Rattle.spice_text.specs.Text.{phase_line, device_card, device_cards, bulk_of};
ghost use Rattle.deck.specs.DeckText.{model_word};
ghost use Rattle.deck.specs.Nets.{IsInRange, net_name};

use deck::{Device, Phase};
use dom_base::{Kind, NetName, OutOfMemory, append, append_number, append_word};

/// Appends a line for each phase.
pub fn put_phases(text: &mut Vec<u8>, phases: &[Phase]) -> Result<(), OutOfMemory>
    ensures { OnOk result (text.new.items ≡ text.old.items ++ flat_map phase_line phases.now) }
{
    for phase in phases {
        put_phase(text, phase)?;
    }
    Ok(())
}

fn put_phase(text: &mut Vec<u8>, phase: &Phase) -> Result<(), OutOfMemory>
    ensures { OnOk result (text.new.items ≡ text.old.items ++ phase_line phase.now) }
{
    append(text, b"* phase")?;
    append_word(text, phase.net.as_bytes())?;
    append(text, if phase.plus { b" +\n" } else { b" -\n" })
}

/// Appends a card for each device, numbered from 0.
pub fn put_cards(
    text: &mut Vec<u8>,
    nets: &[NetName],
    devices: &[Device],
) -> Result<(), OutOfMemory>
    requires { All (IsInRange (length nets.now)) devices.now }
    ensures { OnOk result (text.new.items ≡ text.old.items ++ device_cards nets.now devices.now) }
{
    for (index, device) in devices.iter().enumerate() {
        put_card(text, nets, index, *device)?;
    }
    Ok(())
}

fn put_card(
    text: &mut Vec<u8>,
    nets: &[NetName],
    index: usize,
    device: Device,
) -> Result<(), OutOfMemory>
    requires { IsInRange (length nets.now) device }
    ensures { OnOk result (text.new.items ≡ text.old.items ++ device_card nets.now (index, device)) }
{
    text.push(b'm')?;
    append_number(text, index as u64)?;
    append_word(text, net_name(nets, device.drain))?;
    append_word(text, net_name(nets, device.gate))?;
    append_word(text, net_name(nets, device.source))?;
    append(text, card_end(device.kind))?;
    Ok(())
}

pub fn net_name(nets: &[NetName], net: u32) -> &[u8]
    requires { net < length nets.now }
    ensures { result.now ≡ net_name nets.now net }
{
    nets[net as usize].as_bytes()
}

/// The end of a card: the bulk and the model of a kind of device, each after a blank, and LF.
pub fn card_end(kind: Kind) -> &'static [u8]
    ensures { result.now ≡ 32 ∷ bulk_of kind ++ 32 ∷ model_word kind ++ 10 ∷ [] }
{
    match kind {
        Kind::N => b" vss nch\n",
        Kind::P => b" vdd pch\n",
        Kind::Keep => b" vdd pkeep\n",
    }
}

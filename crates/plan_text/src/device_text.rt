//! Texts to which devices are put: cards, or calls of cells.
ghost use Rattle.std.specs.Prelude.{◌≡◌, ◌∷◌, [], OnOk};
ghost use Rattle.domino_cell.specs.Cell.{inverter};
ghost use Rattle.plan_text.specs.CalledTexts.{GroupTextData};
ghost use Rattle.plan_text.specs.CardTexts.{CardTextData};
ghost use Rattle.plan_text.specs.DeviceTexts.{with_end, with_put};
ghost use Rattle.plan_text.specs.declared.device_text.DeviceText.TheVariants.{Cards, Groups};
ghost use Rattle.plan_text.specs.Nets.{net_text};

use crate::card_text::CardText;
use crate::group_text::GroupText;
use crate::net::Net;
use dom_base::{Kind, OutOfMemory};

/// A text to which devices are put: cards of one subcircuit, or groups by their cells.
#[derive(Drop)]
pub enum DeviceText {
    Cards(CardText),
    Groups(GroupText),
}

impl DeviceText {
    /// Puts a device. The one error is out of memory, and then a part of it may stand at the end.
    #[inline(always)]
    pub fn put(
        &mut self,
        kind: Kind,
        drain: Net<'_>,
        gate: Net<'_>,
        source: Net<'_>,
    ) -> Result<(), OutOfMemory>
        ensures { OnOk result (self.new ≡ with_put self.old
            (record { kind = kind; drain = net_text drain.entry; gate = net_text gate.entry; source = net_text source.entry } ∷ [])) }
    {
        match self {
            DeviceText::Cards(cards) => cards.put(kind, drain, gate, source),
            DeviceText::Groups(groups) => groups.put(kind, drain, gate, source),
        }
    }

    /// Ends a group of devices, which cards don't tell.
    pub fn end_group(&mut self) -> Result<(), OutOfMemory>
        ensures { OnOk result (self.new ≡ with_end self.old) }
    {
        match self {
            DeviceText::Cards(_) => Ok(()),
            DeviceText::Groups(groups) => groups.end_group(),
        }
    }

    /// The text of cards.
    pub fn into_cards(self) -> CardText
        requires { (cards : CardTextData) × (self ≡ Cards cards) }
        ensures { self ≡ Cards result }
    {
        match self {
            DeviceText::Cards(cards) => cards,
            DeviceText::Groups(_) => unreachable!(),
        }
    }

    /// The text of groups.
    pub fn into_groups(self) -> GroupText
        requires { (groups : GroupTextData) × (self ≡ Groups groups) }
        ensures { self ≡ Groups result }
    {
        match self {
            DeviceText::Groups(groups) => groups,
            DeviceText::Cards(_) => unreachable!(),
        }
    }

    /// Puts the devices of an inverter from a net to another.
    pub fn put_inverter(
        &mut self,
        vdd: Net<'_>,
        vss: Net<'_>,
        gate: Net<'_>,
        out: Net<'_>,
    ) -> Result<(), OutOfMemory>
        ensures { OnOk result (self.new ≡ with_put self.old
            (inverter (net_text vdd.entry) (net_text vss.entry) (net_text gate.entry) (net_text out.entry))) }
    {
        self.put(Kind::P, out, gate, vdd)?;
        self.put(Kind::N, out, gate, vss)?;
        Ok(())
    }
}

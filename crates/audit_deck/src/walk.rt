//! The nets and the devices of a cell below its dynamic net.
ghost use Rattle.std.specs.Prelude.{◌≡◌, ◌<◌, ◌^◌, All, OnOk, length};
ghost use Rattle.deck.specs.PortLayout.{first_output};
ghost use Rattle.dom_base.specs.declared.kind.Kind.TheVariants.{N as nch};
ghost use Rattle.audit_deck.specs.Indexes.{AreThose, EndingAt, HasKind};
ghost use Rattle.deck_audit.specs.Words.{Reached};
ghost use Rattle.audit_deck.specs.Walks.{IsChannelAmong, IsChannelAt, IsNext, IsNextBy, MeetsThose};

use crate::index::Index;
use crate::numbering::Numbering;
use crate::ports::{far_end, is_free};
use deck::Roles;
use dom_base::{Kind, OutOfMemory};

impl<'a> Index<'a> {
    /// Meets the net to which an `nch` leads from one of its ends, where that is no source.
    fn meet_end(
        &self,
        roles: Roles,
        net: u32,
        place: u32,
        met: &mut Numbering,
    ) -> Result<(), OutOfMemory>
        requires ending { EndingAt self.now.devices net place }
        requires room { met.old.room ≡ self.now.nets }
        requires few { first_output roles < 2 ^ 32 }
        ensures room { met.new.room ≡ met.old.room }
        ensures met { OnOk result (MeetsThose (IsNextBy self.now.devices roles net place) met.old.nets met.new.nets) }
    {
        if !self.has_kind(place, Kind::N) {
            return Ok(());
        }
        let far = far_end(self.device(place), net);
        if !is_free(roles, far) {
            return Ok(());
        }
        met.add(far)
    }

    /// Meets the nets, no sources, to which `nch` devices lead from a net.
    fn meet_next(&self, roles: Roles, net: u32, met: &mut Numbering) -> Result<(), OutOfMemory>
        requires within { net < self.now.nets }
        requires room { met.old.room ≡ self.now.nets }
        requires few { first_output roles < 2 ^ 32 }
        ensures room { met.new.room ≡ met.old.room }
        ensures met { OnOk result (MeetsThose (IsNext self.now.devices roles net) met.old.nets met.new.nets) }
    {
        for place in self.ending(net) {
            self.meet_end(roles, net, *place, met)?;
        }
        Ok(())
    }

    /// Meets the nets that `nch` devices reach from a net, with no source inside, and forgets others.
    pub fn reach(&self, roles: Roles, start: u32, met: &mut Numbering) -> Result<(), OutOfMemory>
        requires within { start < self.now.nets }
        requires room { met.old.room ≡ self.now.nets }
        requires few { first_output roles < 2 ^ 32 }
        ensures room { met.new.room ≡ met.old.room }
        ensures reached { OnOk result (AreThose (Reached self.now.devices roles start) met.new.nets) }
    {
        met.clear();
        met.add(start)?;
        let mut done: usize = 0;
        'nets: while done < met.nets().len() {
            let net = met.nets()[done];
            self.meet_next(roles, net, met)?;
            done += 1;
        }
        Ok(())
    }

    /// Meets a device, where it is an `nch`.
    fn meet_channel(&self, place: u32, met: &mut Numbering) -> Result<(), OutOfMemory>
        requires within { place < length self.now.devices }
        requires room { met.old.room ≡ length self.now.devices }
        ensures room { met.new.room ≡ met.old.room }
        ensures met { OnOk result (MeetsThose (λ p. (p ≡ place) × HasKind self.now.devices nch p) met.old.nets met.new.nets) }
    {
        if !self.has_kind(place, Kind::N) {
            return Ok(());
        }
        met.add(place)
    }

    /// Meets the `nch` devices that end at a net.
    fn meet_channels_at(&self, net: u32, met: &mut Numbering) -> Result<(), OutOfMemory>
        requires within { net < self.now.nets }
        requires room { met.old.room ≡ length self.now.devices }
        ensures room { met.new.room ≡ met.old.room }
        ensures met { OnOk result (MeetsThose (IsChannelAt self.now.devices net) met.old.nets met.new.nets) }
    {
        for place in self.ending(net) {
            self.meet_channel(*place, met)?;
        }
        Ok(())
    }

    /// Meets the `nch` devices that end at some nets, and forgets others.
    pub fn meet_channels(&self, nets: &[u32], met: &mut Numbering) -> Result<(), OutOfMemory>
        requires within { All (λ net. net < self.now.nets) nets.now }
        requires room { met.old.room ≡ length self.now.devices }
        ensures room { met.new.room ≡ met.old.room }
        ensures met { OnOk result (AreThose (IsChannelAmong self.now.devices nets.now) met.new.nets) }
    {
        met.clear();
        for net in nets {
            self.meet_channels_at(*net, met)?;
        }
        let _met = met.nets();
        Ok(())
    }
}

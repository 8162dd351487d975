//! What a sweep over a component finds, by each sort of paths.
ghost use Rattle.std.specs.Prelude.{◌≡◌, ◌<◌, ℕ, IfOk};
ghost use Rattle.switch_model.specs.Found.{class_of};
ghost use Rattle.switch_model.specs.FourDrives.{target_by_drives};
ghost use Rattle.switch_model.specs.Sweeps.{AreRooms, drives_in, target_in};

use crate::drives::Drives;
use crate::room::Room;
use dom_base::{OutOfMemory, Tri};
use std::alloc::Global;

/// Room for the classes by four sorts of paths.
#[derive(Drop)]
pub struct Rooms {
    pub strong_definite: Room,
    pub strong_possible: Room,
    pub definite: Room,
    pub possible: Room,
}

impl Rooms {
    /// Room for so many nets. The one error is out of memory.
    pub fn new(alloc: Global, nets: u32) -> Result<Rooms, OutOfMemory>
        ensures { IfOk result (λ rooms. AreRooms nets rooms) }
    {
        Ok(Rooms {
            strong_definite: Room::new(alloc, nets)?,
            strong_possible: Room::new(alloc, nets)?,
            definite: Room::new(alloc, nets)?,
            possible: Room::new(alloc, nets)?,
        })
    }

    /// The target that the last sweep found for a net.
    pub fn target(&self, plain: bool, net: u32) -> Tri
        requires { (n : ℕ) × AreRooms n self.now × (net < n) }
        ensures { result ≡ target_in plain self.now net }
    {
        let class = self.possible.class(net);
        let drives = self.drives_by(plain, net, class.drives);
        target_from(drives, class.charge)
    }

    /// The drives of a net, of which those by possible paths are given.
    fn drives_by(&self, plain: bool, net: u32, possible: Drives) -> Drives
        requires rooms { (n : ℕ) × AreRooms n self.now × (net < n) }
        requires possible { possible ≡ (class_of self.now.possible net).drives }
        ensures { result ≡ drives_in plain self.now net }
    {
        if plain {
            return possible;
        }
        Drives::by_sort(
            self.strong_definite.class(net).drives,
            self.strong_possible.class(net).drives,
            self.definite.class(net).drives,
            possible,
        )
    }
}

/// The target by what sources drive a net to and by its charge: what strong paths pull to, else what all
/// paths pull to, else the charge.
pub fn target_from(drives: Drives, charge: Tri) -> Tri
    ensures { result ≡ target_by_drives drives charge }
{
    if let Some(value) = drives.pulled(false) {
        return value;
    }
    if let Some(value) = drives.pulled(true) {
        return value;
    }
    charge
}

//! What is known of nets that are joined.
ghost use Rattle.std.specs.Prelude.{◌≡◌};
ghost use Rattle.switch_model.specs.Found.{AreJoinedTo, IsMixed, IsWith};
ghost use Rattle.switch_model.specs.FourDrives.{no_drives};

use crate::drives::{Drives, NO_DRIVES};
use dom_base::Tri;

/// What is known of nets that are joined: what sources drive them to, and the value of all, `Unknown`
/// where two have different ones.
#[derive(Clone, Copy, Debug, PartialEq, Eq)]
pub struct Class {
    pub drives: Drives,
    pub charge: Tri,
}

impl Class {
    /// One net of this value, and no source.
    pub fn alone(value: Tri) -> Class
        ensures drives { result.drives ≡ no_drives }
        ensures charge { result.charge ≡ value }
    {
        Class {
            drives: NO_DRIVES,
            charge: value,
        }
    }

    /// The nets of both.
    pub fn joined(self, other: Class) -> Class
        ensures { AreJoinedTo self other result }
    {
        Class {
            drives: self.drives.with(other.drives),
            charge: mixed(self.charge, other.charge),
        }
    }

    /// With the sources of some drives.
    pub fn driven(self, drives: Drives) -> Class
        ensures drives { IsWith self.drives drives result.drives }
        ensures charge { result.charge ≡ self.charge }
    {
        Class {
            drives: self.drives.with(drives),
            charge: self.charge,
        }
    }
}

/// The value of both, `Unknown` where they differ.
fn mixed(a: Tri, b: Tri) -> Tri
    ensures { IsMixed a b result }
{
    if a == b { a } else { Tri::Unknown }
}

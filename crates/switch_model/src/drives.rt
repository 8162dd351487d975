//! What the sources at the ends of paths of four sorts say.
ghost use Rattle.std.specs.Prelude.{◌≡◌, ◌≢◌, ◌<◌, ◌↔◌, ◌⊎◌, Bool, false, length, nat_eq, true};
ghost use Rattle.std.specs.Int.{bit_at};
ghost use Rattle.deck.specs.Nets.{IsInRange};
ghost use Rattle.dom_base.specs.Conduction.{conduction};
ghost use Rattle.dom_base.specs.declared.kind.Kind.TheVariants.{Keep};
ghost use Rattle.switch_model.specs.FourDrives.{drives_by, has, pull_by, pull_where, side, sort_of, tells};
ghost use Rattle.switch_model.specs.Walks.{Conducts, PassesSort};

use crate::{Switch, conducts};
use deck::Device;
use dom_base::{Kind, Tri};

/// What is known of the sources at the ends of paths: for definite and for possible paths, by strong
/// devices and by all, whether one leads to a source that isn't `One` and whether one leads to a source
/// that isn't `Zero`, a bit each.
#[derive(Clone, Copy, Debug, PartialEq, Eq)]
pub struct Drives {
    pub bits: u8,
}

/// No source by any sort of paths.
pub const NO_DRIVES: Drives = Drives { bits: 0 };

// The bits of all sorts of paths; of possible ones; and of those by all devices.
const ALL_SORTS: u8 = 255;

const POSSIBLE_SORTS: u8 = 204;

const WEAK_SORTS: u8 = 15;

// The bits of one sort each.
const DEFINITE: u8 = 3;

const POSSIBLE: u8 = 12;

const STRONG_DEFINITE: u8 = 48;

const STRONG_POSSIBLE: u8 = 192;

// The bits of sources that aren't `One`, and of those that aren't `Zero`.
const NOT_ONE: u8 = 85;

const NOT_ZERO: u8 = 170;

impl Drives {
    /// The drives by a source of a value at the other end of a device.
    pub fn of_source(device: Device, value: Tri, values: &[Tri]) -> Drives
        requires { IsInRange (length values.now) device }
        ensures { (definite keepers high : Bool) → (tells result definite keepers high ≡ true)
            ↔ (PassesSort (sort_of definite keepers) values.now device × (value ≢ side high)) }
    {
        let sorts = sorts_by(device.kind, values[device.gate as usize]);
        let bits = sorts & strengths_of(device.kind) & sides_of(value);
        Drives { bits }
    }

    /// The drives by the sources of both.
    pub fn with(self, other: Drives) -> Drives
        ensures { (definite keepers high : Bool) → (tells result definite keepers high ≡ true)
            ↔ ((tells self definite keepers high ≡ true) ⊎ (tells other definite keepers high ≡ true)) }
    {
        Drives {
            bits: self.bits | other.bits,
        }
    }

    /// What is known by each sort of paths from the drives that stand for this sort.
    pub fn by_sort(
        strong_definite: Drives,
        strong_possible: Drives,
        definite: Drives,
        possible: Drives,
    ) -> Drives
        ensures { result ≡ drives_by strong_definite strong_possible definite possible }
    {
        let strong = strong_definite.bits & STRONG_DEFINITE
            | strong_possible.bits & STRONG_POSSIBLE;
        let all = definite.bits & DEFINITE | possible.bits & POSSIBLE;
        Drives { bits: strong | all }
    }

    /// What the sources pull a net to, by strong devices or by all.
    pub fn pulled(self, keepers: bool) -> Option<Tri>
        ensures { result ≡ pull_by self keepers }
    {
        let base = if keepers { 0 } else { 4 };
        let definite = self.tells(base) || self.tells(base + 1);
        pulled_where(definite, self.tells(base + 2), self.tells(base + 3))
    }

    /// Whether a bit is set.
    fn tells(self, place: u8) -> bool
        requires { place < 8 }
        ensures { result ≡ nat_eq (bit_at self.bits place) 1 }
    {
        self.bits >> place & 1 == 1
    }
}

/// What sources pull a net to: nothing where no possible path leads to one; their value where it is one
/// and a definite path leads to one; else `Unknown`.
fn pulled_where(definite: bool, low: bool, high: bool) -> Option<Tri>
    ensures { result ≡ pull_where definite low high }
{
    match (definite, low, high) {
        (_, false, false) => None,
        (true, true, false) => Some(Tri::Zero),
        (true, false, true) => Some(Tri::One),
        _ => Some(Tri::Unknown),
    }
}

/// The bits of the sorts of paths that a gate of this value lets through a device of this kind.
fn sorts_by(kind: Kind, gate: Tri) -> u8
    ensures { (definite keepers high : Bool) → (has result definite keepers high ≡ true) ↔ Conducts definite (conduction kind gate) }
{
    match conducts(kind, gate) {
        Switch::On => ALL_SORTS,
        Switch::Off => 0,
        Switch::Maybe => POSSIBLE_SORTS,
    }
}

/// The bits of the sorts of paths that a device of this kind may be part of.
fn strengths_of(kind: Kind) -> u8
    ensures { (definite keepers high : Bool) → (has result definite keepers high ≡ true) ↔ (keepers ≡ false → kind ≢ Keep) }
{
    match kind {
        Kind::Keep => WEAK_SORTS,
        _ => ALL_SORTS,
    }
}

/// The bits of a source of this value.
fn sides_of(value: Tri) -> u8
    ensures { (definite keepers high : Bool) → (has result definite keepers high ≡ true) ↔ (value ≢ side high) }
{
    match value {
        Tri::Zero => NOT_ONE,
        Tri::One => NOT_ZERO,
        Tri::Unknown => ALL_SORTS,
    }
}

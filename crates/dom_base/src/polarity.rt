//! The two supplies as types.
ghost use Rattle.std.specs.Prelude.{◌≡◌, refl};
ghost use Rattle.std.proofs.Common.{inl, inr};
ghost use Rattle.dom_base.specs.Polarity.{IsSwitch};
ghost use Rattle.dom_base.specs.Tri.{opposite};
ghost use Rattle.dom_base.specs.declared.tri.Tri.{Tri};
ghost use Rattle.dom_base.specs.declared.kind.Kind.{Kind};
ghost use Rattle.dom_base.specs.declared.tri.Tri.TheVariants.{Zero, One};
ghost use Rattle.dom_base.specs.declared.kind.Kind.TheVariants.{N as nch, P as pch};

use crate::{Kind, Tri};

/// The devices that lead to one supply: their kind, and the value of the gate at which they are on.
/// Either they are `N` and on at `One`, or they are `P` and on at `Zero`.
pub trait Polarity: Copy {
    ghost KIND: { Kind };

    ghost ON: { Tri };

    const KIND: Kind;

    const ON: Tri;

    ghost is_switch: { IsSwitch KIND ON };
}

/// A supply, with the other one as a type: the devices that lead to the other are on where those
/// that lead to this one are off.
pub trait Supply: Polarity {
    type Other: Polarity;
    /// The other supply.
    fn other(self) -> Self::Other;

    ghost opposite_on: { Self.Other.ON ≡ opposite Self.ON };
}

/// Ground: `N` devices, on at `One`.
#[derive(Clone, Copy, Debug, PartialEq, Eq)]
pub struct ToVss;

/// The positive supply: `P` devices, on at `Zero`.
#[derive(Clone, Copy, Debug, PartialEq, Eq)]
pub struct ToVdd;

impl Polarity for ToVss {
    ghost KIND = { nch };

    ghost ON = { One };

    const KIND: Kind = Kind::N;

    const ON: Tri = Tri::One;

    ghost is_switch = { inl (refl, refl) };
}

impl Polarity for ToVdd {
    ghost KIND = { pch };

    ghost ON = { Zero };

    const KIND: Kind = Kind::P;

    const ON: Tri = Tri::Zero;

    ghost is_switch = { inr (refl, refl) };
}

impl Supply for ToVss {
    type Other = ToVdd;

    ghost opposite_on = { refl };

    fn other(self) -> ToVdd {
        ToVdd
    }
}

impl Supply for ToVdd {
    type Other = ToVss;

    ghost opposite_on = { refl };

    fn other(self) -> ToVss {
        ToVss
    }
}

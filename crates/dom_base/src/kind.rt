//! Kinds of devices.

/// The model of a transistor: `N` is `nch`, `P` is `pch`, `Keep` is `pkeep`, a weak `pch`.
#[derive(Clone, Copy, Debug, PartialEq, Eq, Hash)]
pub enum Kind {
    N,
    P,
    Keep,
}

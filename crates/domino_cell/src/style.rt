//! Styles of domino cells.

/// Whether each cell has a keeper, or precharges the inner nets of its tree (Rabaey, Digital Integrated Circuits:
/// dynamic logic).
#[derive(Clone, Copy, Debug, PartialEq, Eq)]
pub enum Style {
    Keeper,
    Precharge,
}

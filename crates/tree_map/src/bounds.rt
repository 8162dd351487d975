//! Bounds of trees.

/// The greatest width and the greatest height that a tree may have, in switches: `w` branches in
/// parallel and `h` switches in series.
#[derive(Clone, Copy, Debug, PartialEq, Eq)]
pub struct Bounds {
    pub w: u32,
    pub h: u32,
}

//! How many bytes a file may have.
ghost use Rattle.std.specs.Prelude.{◌≡◌, ◌+◌, ◌<◌, ◌↔◌, IsTrue, length};
ghost use Rattle.dom_io.specs.Held.{file_limit};

/// The most bytes that a file may have.
pub const FILE_LIMIT: u64 = 67_108_864;

/// The most bytes that a fetch gives: one more than a file may have, which shows that a file is
/// too long.
#[tactic(auto, unfolding(crate::specs::Held::file_limit))]
pub fn fetch_limit() -> usize
    ensures { result ≡ file_limit + 1 }
{
    FILE_LIMIT as usize + 1
}

/// Whether these bytes are more than a file may have.
#[tactic(auto, unfolding(crate::specs::Held::file_limit))]
pub fn is_too_long(bytes: &[u8]) -> bool
    ensures { IsTrue result ↔ (file_limit < length bytes.now) }
{
    bytes.len() as u64 > FILE_LIMIT
}

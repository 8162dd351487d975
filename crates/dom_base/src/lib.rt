//! What every other crate of domsyn stands on: ternary values, kinds of devices, the two supplies as
//! types, names, and the lines and words of texts.
#![tactic(auto)]

mod crowd;
mod kind;
mod lines;
mod memory;
mod name;
mod name_hash;
mod name_hasher;
mod name_mark;
mod polarity;
mod text;
mod tri;
mod words;

pub use crowd::Crowd;
pub use kind::Kind;
pub use lines::{cut_line, strip_comment, strip_last};
pub use memory::OutOfMemory;
pub use name::{Name, NameBytes, NetName, name_in_lower_case};
pub use name_hash::{NameDigest, NameHash};
pub use name_hasher::NameHasher;
pub use name_mark::mark_of;
pub use polarity::{Polarity, Supply, ToVdd, ToVss};
pub use text::{append, append_number, append_number_to_name, append_to_name, append_word};
pub use tri::Tri;
pub use words::{cut_words, first_word, has_control, have_control, is_same};

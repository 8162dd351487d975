//! A file of BLIF by numbers: each name has a number, rows are places of the text, and all lists of a file are a few vectors.
#![tactic(auto)]

mod file;
mod lists;
mod name_table;
mod names;
mod open_file;
mod others;
mod parts;
mod slices;
mod slots;
mod word;

pub use file::NumberedFile;
pub use name_table::as_u32;
pub use names::Names;
pub use open_file::OpenFile;
pub use parts::{ModelAt, PartAt, PartKind};
pub use slices::{Ends, between, ends_of, from_place, items_before};

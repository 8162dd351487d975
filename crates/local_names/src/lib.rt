//! The names of each model of a file of BLIF by numbers, the places of words of cards among them, and how large the file's network is.
#![tactic(auto)]

mod distinct;
mod formals;
mod model_numbers;
mod names_of_file;
mod size_checks;
mod sizes;
mod table;
mod word_places;

pub use names_of_file::local_names;
pub use size_checks::check_counts;
pub use sizes::count;
pub use table::LocalNames;

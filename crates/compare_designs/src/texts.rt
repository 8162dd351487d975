//! Generated texts.
use crate::divided::divided_file;
use plain_hierarchies::{PlainFile, drawn_file, network_of, one_model, written};
use plain_networks::{PlainNetwork, Sizes};
use plain_texts::Draws;
use std::alloc::{AllocError, Global};

/// What names begin with, before their numbers. No name of a port that an instance binds has a `=`.
const STARTS: &[&str] = &[
    "a", "B[", "_", "w", "x.", "\u{e9}", "Q'", "$", "/", "n-", "ww", "k=",
];

/// A file with its text.
#[derive(Drop)]
pub struct DrawnText {
    pub file: PlainFile,
    pub text: String,
}

impl DrawnText {
    /// A network as a file of one model, with its text.
    pub fn of(alloc: Global, network: &PlainNetwork) -> Result<DrawnText, AllocError> {
        let mut file = one_model(alloc, network)?;
        let text = written(alloc, &mut file)?;
        Ok(DrawnText { file, text })
    }

    /// The network of the file.
    pub fn network(&self, alloc: Global) -> Result<PlainNetwork, AllocError> {
        network_of(alloc, &self.file)
    }
}

/// Gives names new ones, of the first so many starts with their numbers.
fn rename(
    alloc: Global,
    draws: &mut Draws,
    names: &mut [String],
    starts: usize,
    first: usize,
) -> Result<(), AllocError> {
    for (index, name) in names.iter_mut().enumerate() {
        let start = STARTS.get(draws.below(starts)).copied().unwrap_or("a");
        let number = first.saturating_add(index);
        *name = format!(in alloc; "{start}{number}")?;
    }
    Ok(())
}

/// A hierarchy, which may be refused, or a network some of whose cards stand in models of their own; with names
/// most of which are escaped in a deck.
pub fn drawn_text(alloc: Global, draws: &mut Draws, sizes: Sizes) -> Result<DrawnText, AllocError> {
    let plain = STARTS.len().saturating_sub(1);
    let mut file = if draws.below(4) == 0 {
        let mut file = drawn_file(alloc, draws)?;
        rename(alloc, draws, &mut file.names, plain, 0)?;
        file
    } else {
        let (mut file, formals) = divided_file(alloc, draws, sizes)?;
        let count = formals.min(file.names.len());
        let (own, more) = file.names.split_at_mut(count);
        rename(alloc, draws, own, STARTS.len(), 0)?;
        rename(alloc, draws, more, plain, count)?;
        file
    };
    let text = written(alloc, &mut file)?;
    Ok(DrawnText { file, text })
}

//! The networks of texts, and their gates.
use crate::trouble::Trouble;
use blif_read::{accepted_file_is_good, read};
use gate_decompose::{Gates, decompose};
use net_flatten::{Network, flatten};
use std::alloc::Global;

/// The network of a text.
pub fn network_of(alloc: Global, text: &[u8]) -> Result<Network, Trouble> {
    let file = read(alloc, text)?;
    accepted_file_is_good();
    Ok(flatten(alloc, &file)?)
}

/// The gates of the network of a text.
pub fn gates_of(alloc: Global, text: &str) -> Result<Gates, Trouble> {
    let network = network_of(alloc, text.as_bytes())?;
    Ok(decompose(alloc, &network)?)
}

//! Tests of the layers below the program: each reads or works out something that was worked by hand.
#![tactic(auto)]

#[cfg(test)]
mod deep;
#[cfg(test)]
mod generation;
#[cfg(test)]
mod logic;
#[cfg(test)]
mod names;
#[cfg(test)]
mod orders;
#[cfg(test)]
mod outside;
#[cfg(test)]
mod pending;
#[cfg(test)]
mod probes;
#[cfg(test)]
mod read_decks;
#[cfg(test)]
mod sure;
#[cfg(test)]
mod targets;
#[cfg(test)]
mod trees;
#[cfg(test)]
mod written_decks;

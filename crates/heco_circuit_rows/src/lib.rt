//! Circuits: why files are refused, and what is told, shown and meant by those that are read.
#![tactic(auto)]

#[cfg(test)]
mod broken;
#[cfg(test)]
mod files;
#[cfg(test)]
mod listed;
#[cfg(test)]
mod many;
#[cfg(test)]
mod meant;
mod named;
#[cfg(test)]
mod told;

pub use named::{DOT_OF_EIGHT, circuit_in, file_in, shown, wanted};

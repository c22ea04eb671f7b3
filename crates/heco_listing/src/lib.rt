//! The text that shows a circuit, its noise bounds with it.
#![tactic(auto)]

mod gates;
mod pieces;
mod ports;
mod vectors;
mod whole;

pub use whole::listing;
